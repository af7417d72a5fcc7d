// Shelves: whether lent words and bytes with three numbers are a well-formed shelf. A shelf stands on standard input as
//
//     "shelf" NAME FILES WORDS BYTES word* byte*
//
// and behind it changes of it, each of which is made, asked about and taken back:
//
//     "word" NAME PLACE VALUE | "byte" NAME PLACE VALUE | "used" NAME WORDS BYTES FILES
use image::shelf::Used;
use image::{rows, well_formed};
use shelf_io::say;
use tokens::Token;

// Asks and says what was answered.
fn judge(rt: &impl Print, text: &[u8], name: Token, words: &[u32], bytes: &[u8], used: Used) {
    say::text(rt, b"  ");
    say::text(rt, tokens::bytes_of(text, name));
    if well_formed::is_well_formed(words, bytes, used) {
        say::text(rt, b": well formed\n");
    } else {
        say::text(rt, b": not well formed\n");
    }
}

// The shelf with one word changed.
fn with_word(
    rt: &impl Print,
    text: &[u8],
    name: Token,
    words: &mut [u32],
    bytes: &[u8],
    used: Used,
) -> usize {
    let place = tokens::next(text, name.end);
    let value = tokens::next(text, place.end);
    let at = tokens::number(text, place) as usize;
    let was = rows::word_at(words, at);
    tokens::set(words, at, tokens::number(text, value));
    judge(rt, text, name, words, bytes, used);
    tokens::set(words, at, was);
    value.end
}

// The shelf with one byte changed.
fn with_byte(
    rt: &impl Print,
    text: &[u8],
    name: Token,
    words: &[u32],
    bytes: &mut [u8],
    used: Used,
) -> usize {
    let place = tokens::next(text, name.end);
    let value = tokens::next(text, place.end);
    let at = tokens::number(text, place) as usize;
    let was = bytes.get(at).copied().unwrap_or(0);
    tokens::set(bytes, at, tokens::low_byte(tokens::number(text, value)));
    judge(rt, text, name, words, bytes, used);
    tokens::set(bytes, at, was);
    value.end
}

// The shelf with other numbers.
fn with_numbers(rt: &impl Print, text: &[u8], name: Token, words: &[u32], bytes: &[u8]) -> usize {
    let w = tokens::next(text, name.end);
    let b = tokens::next(text, w.end);
    let f = tokens::next(text, b.end);
    let used = Used {
        words: tokens::number(text, w),
        bytes: tokens::number(text, b),
        files: tokens::number(text, f),
    };
    judge(rt, text, name, words, bytes, used);
    f.end
}

// A change that starts at `at`; the answer is where it ends, if there is one.
fn change(
    rt: &impl Print,
    text: &[u8],
    at: usize,
    words: &mut [u32],
    bytes: &mut [u8],
    used: Used,
) -> Option<usize> {
    let t = tokens::next(text, at);
    let name = tokens::next(text, t.end);
    if tokens::is(text, t, b"word") {
        return Some(with_word(rt, text, name, words, bytes, used));
    }
    if tokens::is(text, t, b"byte") {
        return Some(with_byte(rt, text, name, words, bytes, used));
    }
    if tokens::is(text, t, b"used") {
        return Some(with_numbers(rt, text, name, words, bytes));
    }
    None
}

// All changes that stand from `at` on; the answer is where they end. Each says where the next begins.
fn changes(
    rt: &impl Print,
    text: &[u8],
    at: usize,
    words: &mut [u32],
    bytes: &mut [u8],
    used: Used,
) -> usize {
    let mut end = at;
    while end < text.len() {
        let Some(next) = change(rt, text, end, words, bytes, used) else {
            return end;
        };
        if next <= end {
            return end;
        }
        end = next;
    }
    end
}

// The shelf that starts behind `at`, and its changes; the answer is where they end. Each slice has some room behind what is used.
pub fn read_shelf(rt: &impl Print, text: &[u8], at: usize) -> usize {
    let mut words = [0u32; 2048];
    let mut bytes = [0u8; 1024];
    let name = tokens::next(text, at);
    let count = tokens::next(text, name.end);
    let w = tokens::next(text, count.end);
    let b = tokens::next(text, w.end);
    let used = Used {
        words: tokens::number(text, w),
        bytes: tokens::number(text, b),
        files: tokens::number(text, count),
    };
    let middle = tokens::read(text, b.end, &mut words, used.words as usize);
    let end = tokens::read(text, middle, &mut bytes, used.bytes as usize);
    judge(rt, text, name, &words, &bytes, used);
    changes(rt, text, end, &mut words, &mut bytes, used)
}
