// The link words of a file that both accept, one by one.
ghost use Rattle.std.specs.Prelude.{◌<◌};

use crate::state::{Lists, State};
use crate::{answers, say};
use image::rows::{Kind, Sections};
use image::shelf::File;
use tokens::Token;

// Where the crate's words go on, and how many were equal, not decided and different.
#[derive(Clone, Copy, Default)]
pub struct Compared {
    pub end: usize,
    pub equal: u32,
    pub undecided: u32,
    pub different: u32,
}

// A row and a word of it, by the word's place among the rows of its kind.
fn say_row(rt: &impl Print, kind: &[u8], at: u64, width: u64)
    requires { 0 < width }
{
    say::text(rt, kind);
    say::number(rt, at / width);
    say::text(rt, b" word ");
    say::number(rt, at % width);
}

// How many words the rows of a kind have.
fn row_words(image: &[u32], kind: Kind) -> u64 {
    let n = Sections::read(image).count_of(kind) as u64;
    match kind {
        Kind::Message => n * 10,
        Kind::Enum => n * 2,
        Kind::Oneof => n * 4,
        _ => n * 16,
    }
}

// A place among the link words, by row and word. Behind the rows stand 8 words.
fn say_place(rt: &impl Print, image: &[u32], at: u64) {
    let messages = row_words(image, Kind::Message);
    if at < messages {
        return say_row(rt, b"message row ", at, 10);
    }
    let enums = row_words(image, Kind::Enum);
    if at - messages < enums {
        return say_row(rt, b"enum row ", at - messages, 2);
    }
    let oneofs = row_words(image, Kind::Oneof);
    if at - messages - enums < oneofs {
        return say_row(rt, b"oneof row ", at - messages - enums, 4);
    }
    let fields = row_words(image, Kind::Field);
    if at - messages - enums - oneofs < fields {
        return say_row(rt, b"field row ", at - messages - enums - oneofs, 16);
    }
    say::text(rt, b"last words, word ");
    say::number(rt, at - messages - enums - oneofs - fields);
}

fn say_word(
    rt: &impl Print,
    lists: Lists,
    s: State,
    image: &[u32],
    at: usize,
    wanted: u32,
    given: u32,
) {
    say::file(rt, lists, s);
    say_place(rt, image, at as u64);
    say::text(rt, b": the crate gives ");
    say::number(rt, wanted as u64);
    say::text(rt, b", ours is ");
    say::number(rt, given as u64);
    say::text(rt, b"\n");
}

// The word that the token `t` says, or none where the crate does not decide it.
fn decided(answers: &[u8], t: Token) -> Option<u32> {
    if tokens::is(answers, t, b"-") {
        return None;
    }
    Some(tokens::number(answers, t))
}

// Holds the crate's words, from `at` on, against as many link words.
fn compare_each(rt: &impl Print, lists: Lists, at: usize, s: State, file: &File) -> Compared {
    let mut c = Compared::default();
    c.end = at;
    for (i, &given) in file.links.iter().enumerate() {
        let t = tokens::next(lists.answers, c.end);
        match decided(lists.answers, t) {
            None => c.undecided = c.undecided.saturating_add(1),
            Some(wanted) => {
                if wanted == given {
                    c.equal = c.equal.saturating_add(1);
                } else {
                    c.different = c.different.saturating_add(1);
                    say_word(rt, lists, s, file.image, i, wanted, given);
                }
            }
        }
        c.end = t.end;
    }
    c
}

// Holds the crate's n words, from `at` on, against the link words. Where they are not as many, all of them together are one difference.
pub fn compare(
    rt: &impl Print,
    lists: Lists,
    at: usize,
    n: u32,
    s: State,
    file: &File,
) -> Compared {
    if n as usize == file.links.len() {
        return compare_each(rt, lists, at, s, file);
    }
    say::file(rt, lists, s);
    say::text(rt, b"the crate gives ");
    say::number(rt, n as u64);
    say::text(rt, b" words, ours are ");
    say::number(rt, file.links.len() as u64);
    say::text(rt, b"\n");
    Compared {
        end: answers::end_of_words(lists.answers, at, n),
        equal: 0,
        undecided: 0,
        different: 1,
    }
}
