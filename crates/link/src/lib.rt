// The linker. Below stand `image`, what images and shelves say, and `names`, the rules of texts; what is cited of them is what they promise.
#![tactic(auto)]

pub mod audit;
mod building;
mod fds;
mod field_index;
mod file_index;
pub mod file_lookup;
mod find_message_or_enum;
mod is_initialized_is_always_true;
mod judge;
pub mod link;
pub mod lookup;
mod put;
mod sight;
