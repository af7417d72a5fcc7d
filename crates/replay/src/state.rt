// What is kept from one file to the next.
use crate::tally::Tally;
use image::shelf::Used;
use tokens::Token;

// How many words and bytes the shelf has: more than the files of any stored case fill.
pub const SHELF_WORDS: usize = 8192;

pub const SHELF_BYTES: usize = 4096;

// The two lists that are read: the cases, and the crate's answers.
#[derive(Clone, Copy)]
pub struct Lists<'a> {
    pub cases: &'a [u8],
    pub answers: &'a [u8],
}

// How the two shelves of a case differ: whether a file stands only here, and whether one stands only on the crate's.
#[derive(Clone, Copy)]
pub struct Shelves {
    pub more_here: bool,
    pub more_there: bool,
}

// Where the cases and the answers go on; the name of the case; how many files of it were read, of how many; the shelf; and what was
// counted.
#[derive(Clone, Copy)]
pub struct State {
    pub at: usize,
    pub answer: usize,
    pub name: Token,
    pub file: u32,
    pub files: u32,
    pub used: Used,
    pub shelves: Shelves,
    pub tally: Tally,
}

impl State {
    // A case with its shelf, which is empty.
    pub fn begin(at: usize, answer: usize, name: Token, files: u32, tally: Tally) -> State {
        State {
            at,
            answer,
            name,
            file: 0,
            files,
            used: Used {
                words: 0,
                bytes: 0,
                files: 0,
            },
            shelves: Shelves {
                more_here: false,
                more_there: false,
            },
            tally,
        }
    }

    // Before the first case.
    pub fn start() -> State {
        State::begin(0, 0, Token { start: 0, end: 0 }, 0, Tally::default())
    }
}
