// A file of a case: read, linked, and what was answered.
use crate::state::{Lent, SHELF_BYTES, SHELF_WORDS, State};
use crate::{records, say};
use image::schema::Image;
use image::shelf::Used;
use image::verdict::Refused;
use link::link::Linked;
use tokens::heads::Expect;
use tokens::{Token, heads};

// Links onto as much of the shelf as is lent.
fn link_lent(
    words: &mut [u32],
    bytes: &mut [u8],
    used: Used,
    image: &[u32],
    pool: &[u8],
    lent: Lent,
) -> Linked {
    let w = words.len().min(lent.words as usize);
    let b = bytes.len().min(lent.bytes as usize);
    link::link::link(&mut words[..w], &mut bytes[..b], used, image, pool)
}

// Copies items, as far as there is room.
fn copy<T: Copy>(to: &mut [T], from: &[T]) {
    let n = to.len().min(from.len());
    to[..n].copy_from_slice(&from[..n]);
}

// Says so where words or bytes of the shelf are not as they were.
fn say_changes(
    rt: &impl Print,
    words: &[u32],
    bytes: &[u8],
    words_before: &[u32],
    bytes_before: &[u8],
) {
    if words != tokens::front(words_before, words.len()) {
        say::text(rt, b" (words of the shelf have changed)");
    }
    if bytes != tokens::front(bytes_before, bytes.len()) {
        say::text(rt, b" (bytes of the shelf have changed)");
    }
}

fn say_accepted(rt: &impl Print, used: Used, after: Used) {
    say::text(rt, b"  accepted as file ");
    say::number(rt, used.files);
    say::text(rt, b" (words used ");
    say::number(rt, after.words);
    say::text(rt, b", bytes used ");
    say::number(rt, after.bytes);
    say::text(rt, b")");
}

fn say_refused(rt: &impl Print, refused: Refused) {
    say::text(rt, b"  refused ");
    say::number(rt, refused.refusal.number());
    say::text(rt, b" at ");
    say::number(rt, refused.place);
}

// Ends the line of an answer: a refusal's number and place, or number 0.
fn end_line(rt: &impl Print, expect: Expect, number: u32, place: u32) {
    if !heads::is_met(expect, number, place) {
        say::text(rt, b" (the case says otherwise)");
    }
    say::text(rt, b"\n");
}

// Links a file and says what was answered. The answer is the three numbers behind it; a refusal has none, and they stay.
fn link_file(
    rt: &impl Print,
    expect: Expect,
    s: State,
    image: &[u32],
    pool: &[u8],
    words: &mut [u32],
    bytes: &mut [u8],
) -> Used {
    let mut words_before = [0u32; SHELF_WORDS];
    let mut bytes_before = [0u8; SHELF_BYTES];
    copy(&mut words_before, words);
    copy(&mut bytes_before, bytes);
    let used = s.used;
    let lent = s.lent;
    let linked = link_lent(words, bytes, used, image, pool, lent);
    match linked {
        Ok(after) => {
            say_accepted(rt, used, after);
            end_line(rt, expect, 0, 0);
            records::say_record(rt, words, &Image::read(image, pool), used, after, s.whole);
            after
        }
        Err(refused) => {
            say_refused(rt, refused);
            say_changes(rt, words, bytes, &words_before, &bytes_before);
            end_line(rt, expect, refused.refusal.number(), refused.place);
            used
        }
    }
}

// The file behind the token `t`. An image or a pool that is too long is cut where it is one word or byte too long.
pub fn read_file(
    rt: &impl Print,
    text: &[u8],
    t: Token,
    mut s: State,
    words: &mut [u32],
    bytes: &mut [u8],
) -> State {
    let mut image = [0u32; 65537];
    let mut pool = [0u8; 32769];
    let h = heads::head_of(text, t);
    let n = h.words as usize;
    let k = h.bytes as usize;
    let middle = tokens::read(text, h.end, &mut image, n);
    let end = tokens::read(text, middle, &mut pool, k);
    let used = link_file(
        rt,
        h.expect,
        s,
        tokens::front(&image, n.max(s.lent.image as usize)),
        tokens::front(&pool, k),
        words,
        bytes,
    );
    s.at = end;
    s.used = used;
    s
}
