// The files of a list of cases. Each is judged by itself. Shelves stand among them.
use crate::{answers, shelves};
use image::rows::Sections;
use image::verdict::Verdict;
use image::{links as link_rows, rows};
use shelf_io::say;
use tokens::Token;

// Whether a refusal is one of those that are judged here.
fn is_judged(number: u32) -> bool {
    matches!(number, 3..=5 | 8..=11 | 17)
}

// Whether an answer is not the refusal that stands behind the token `t`. One that is not judged here comes before some of those that are, so
// it wants none of them.
fn differs(text: &[u8], t: Token, answer: Verdict) -> bool {
    let n = tokens::next(text, t.end);
    let place = tokens::next(text, n.end);
    let number = tokens::number(text, n);
    if !is_judged(number) {
        return false;
    }
    match answer {
        Ok(()) => true,
        Err(refused) => {
            refused.refusal.number() != number || refused.place != tokens::number(text, place)
        }
    }
}

// Whether a case says something else than was answered. Of a file in the domain it says that 3, 4, 5 and 8 are not given.
fn is_unexpected(text: &[u8], t: Token, answer: Verdict) -> bool {
    if tokens::is(text, t, b"refused-at") {
        return differs(text, t, answer);
    }
    match answer {
        Ok(()) => false,
        Err(refused) => {
            tokens::is(text, t, b"domain") && matches!(refused.refusal.number(), 3..=5 | 8)
        }
    }
}

// Where the words start behind what is expected.
fn behind_expected(text: &[u8], t: Token) -> usize {
    if tokens::is(text, t, b"refused") {
        return tokens::next(text, t.end).end;
    }
    if tokens::is(text, t, b"refused-at") {
        return tokens::next(text, tokens::next(text, t.end).end).end;
    }
    t.end
}

fn say_links(rt: &impl Print, links: &[u32], n: usize) {
    for i in 0..n {
        say::text(rt, b" ");
        say::number(rt, rows::word_at(links, i) as u64);
    }
}

// Judges a file and says what was answered, and whether its case says something else.
fn judge(rt: &impl Print, text: &[u8], t: Token, image: &[u32], pool: &[u8]) {
    let mut links = [0u32; 4096];
    let a = answers::answer_to(image, pool, &mut links);
    say::text(rt, b"  ");
    answers::say(rt, a);
    if a.is_ok() {
        say::text(rt, b":");
        let n = link_rows::link_words(Sections::read(image));
        say_links(rt, &links, n);
    }
    if is_unexpected(text, t, a) {
        say::text(rt, b" (the case says otherwise)");
    }
    say::text(rt, b"\n");
}

// A file that starts behind `at`; the answer is where it ends.
fn read_file(rt: &impl Print, text: &[u8], at: usize) -> usize {
    let mut image = [0u32; 65536];
    let mut pool = [0u8; 32768];
    let words = tokens::next(text, at);
    let bytes = tokens::next(text, words.end);
    let expect = tokens::next(text, bytes.end);
    let w = tokens::number(text, words) as usize;
    let b = tokens::number(text, bytes) as usize;
    if 65536 < w {
        say::text(rt, b"  not read: an image longer than 65,536 words\n");
        return expect.end;
    }
    if 32768 < b {
        say::text(rt, b"  not read: a pool longer than 32,768 bytes\n");
        return expect.end;
    }
    let middle = tokens::read(text, behind_expected(text, expect), &mut image, w);
    let end = tokens::read(text, middle, &mut pool, b);
    judge(
        rt,
        text,
        expect,
        tokens::front(&image, w),
        tokens::front(&pool, b),
    );
    end
}

// The case, file or shelf that starts at `at`; the answer is where it ends.
fn step(rt: &impl Print, text: &[u8], at: usize) -> usize {
    let t = tokens::next(text, at);
    if tokens::is(text, t, b"case") {
        let name = tokens::next(text, t.end);
        say::text(rt, tokens::bytes_of(text, name));
        say::text(rt, b"\n");
        return tokens::next(text, name.end).end;
    }
    if tokens::is(text, t, b"file") {
        return read_file(rt, text, t.end);
    }
    if tokens::is(text, t, b"shelf") {
        return shelves::read_shelf(rt, text, t.end);
    }
    t.end
}

// All of it. Each step says where the next begins.
pub fn run(rt: &impl Print, text: &[u8]) {
    let mut at = 0;
    while at < text.len() {
        let next = step(rt, text, at);
        if next <= at {
            return;
        }
        at = next;
    }
}
