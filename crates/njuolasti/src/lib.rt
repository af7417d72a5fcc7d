// The C interface: each function takes slices and numbers, calls the linker's own, and says its answer in numbers. No rule stands here.
#![tactic(auto)]

pub mod abi;
mod answers;
