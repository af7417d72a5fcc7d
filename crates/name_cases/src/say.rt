// What a line is made of.

// What cannot be written is passed over.
pub fn text(rt: &impl Print, s: &[u8]) {
    let _ = rt.write_all(s);
}

// A text in quotes.
pub fn quoted(rt: &impl Print, s: &[u8]) {
    text(rt, b"`");
    text(rt, s);
    text(rt, b"`");
}

pub fn number(rt: &impl Print, n: u64) {
    let _ = rt.print(n);
}

pub fn answer(rt: &impl Print, yes: bool) {
    if yes {
        text(rt, b": yes\n");
    } else {
        text(rt, b": no\n");
    }
}
