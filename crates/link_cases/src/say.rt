// What a line is made of.
pub use shelf_io::say::text;

// A text in quotes.
pub fn quoted(rt: &impl Print, s: &[u8]) {
    text(rt, b"`");
    text(rt, s);
    text(rt, b"`");
}

pub fn number(rt: &impl Print, n: u32) {
    shelf_io::say::number(rt, n as u64);
}

// Words, a space in front of each.
pub fn words(rt: &impl Print, row: &[u32]) {
    for &word in row {
        text(rt, b" ");
        number(rt, word);
    }
}
