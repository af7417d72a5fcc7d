// What a line is made of.
use crate::state::{Lists, State};
pub use shelf_io::say::{number, text};

// A number with a text behind it.
pub fn count(rt: &impl Print, n: u32, what: &[u8]) {
    number(rt, n as u64);
    text(rt, what);
}

// Which file of which case a line is about.
pub fn file(rt: &impl Print, lists: Lists, s: State) {
    text(rt, b"case ");
    text(rt, tokens::bytes_of(lists.cases, s.name));
    text(rt, b", file ");
    number(rt, s.file as u64);
    text(rt, b": ");
}
