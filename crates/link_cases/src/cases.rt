// The cases, one after the other, each on a shelf that is empty at its beginning.
use crate::state::State;
use crate::{files, say};
use tokens::Token;

// A case starts. Words and bytes of the case before stay, since what is not used is no part of a shelf.
fn begin(rt: &impl Print, text: &[u8], t: Token) -> State {
    let name = tokens::next(text, t.end);
    let count = tokens::next(text, name.end);
    say::text(rt, tokens::bytes_of(text, name));
    say::text(rt, b"\n");
    State::empty(count.end, tokens::is(text, name, b"whole"))
}

// A line of two numbers, each with a text in front.
fn say_two(rt: &impl Print, front: &[u8], first: u32, middle: &[u8], second: u32) {
    say::text(rt, front);
    say::number(rt, first);
    say::text(rt, middle);
    say::number(rt, second);
    say::text(rt, b"\n");
}

// From here on only so much of the shelf is lent.
fn with_room(rt: &impl Print, text: &[u8], t: Token, mut s: State) -> State {
    let w = tokens::next(text, t.end);
    let b = tokens::next(text, w.end);
    let words = tokens::number(text, w);
    let bytes = tokens::number(text, b);
    say_two(
        rt,
        b"  lent of the shelf: words ",
        words,
        b", bytes ",
        bytes,
    );
    s.at = b.end;
    s.lent.words = words;
    s.lent.bytes = bytes;
    s
}

// From here on images are longer.
fn with_longer(rt: &impl Print, text: &[u8], t: Token, mut s: State) -> State {
    let n = tokens::next(text, t.end);
    let image = tokens::number(text, n);
    say::text(rt, b"  zeros behind the image, words in all: ");
    say::number(rt, image);
    say::text(rt, b"\n");
    s.at = n.end;
    s.lent.image = image;
    s
}

// A word of the shelf is set.
fn with_change(rt: &impl Print, text: &[u8], t: Token, mut s: State, words: &mut [u32]) -> State {
    let p = tokens::next(text, t.end);
    let w = tokens::next(text, p.end);
    let place = tokens::number(text, p);
    let word = tokens::number(text, w);
    say_two(rt, b"  word ", place, b" of the shelf set to ", word);
    tokens::set(words, place as usize, word);
    s.at = w.end;
    s
}

// What stands next: the start of a case, a file, or how the files behind it are lent.
fn step(rt: &impl Print, text: &[u8], mut s: State, words: &mut [u32], bytes: &mut [u8]) -> State {
    let t = tokens::next(text, s.at);
    if tokens::is(text, t, b"case") {
        return begin(rt, text, t);
    }
    if tokens::is(text, t, b"file") {
        return files::read_file(rt, text, t, s, words, bytes);
    }
    if tokens::is(text, t, b"room") {
        return with_room(rt, text, t, s);
    }
    if tokens::is(text, t, b"longer") {
        return with_longer(rt, text, t, s);
    }
    if tokens::is(text, t, b"change") {
        return with_change(rt, text, t, s, words);
    }
    s.at = t.end;
    s
}

// All of it. Each step says where the next begins.
pub fn run(rt: &impl Print, text: &[u8], words: &mut [u32], bytes: &mut [u8]) {
    let mut s = State::empty(0, false);
    while s.at < text.len() {
        let next = step(rt, text, s, words, bytes);
        if next.at <= s.at {
            return;
        }
        s = next;
    }
}
