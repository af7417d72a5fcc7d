// What the programs share: arguments, files read and stored whole, shelf files, and lines for people.
//
// No contract can say what the system reads and writes. Each says what is left: how much of a lent slice was filled, what it holds where that
// is known, and how long a text is that was handed over.
#![tactic(auto)]

pub mod arguments;
pub mod counts;
pub mod files;
pub mod say;
pub mod sentences;
pub mod shelves;
