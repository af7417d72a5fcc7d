// What is kept from one file to the next.
use image::shelf::Used;

// How many words and bytes the shelf has.
pub const SHELF_WORDS: usize = 1280;

pub const SHELF_BYTES: usize = 512;

// How many words and bytes of the shelf are lent at most, and how many words of an image at least.
#[derive(Clone, Copy)]
pub struct Lent {
    pub words: u32,
    pub bytes: u32,
    pub image: u32,
}

// Where the text goes on, what of the shelf is used, what is lent, and whether each record is written out.
#[derive(Clone, Copy)]
pub struct State {
    pub at: usize,
    pub used: Used,
    pub lent: Lent,
    pub whole: bool,
}

impl State {
    // An empty shelf, all of which is lent, and images as they are.
    pub fn empty(at: usize, whole: bool) -> State {
        State {
            at,
            used: Used {
                words: 0,
                bytes: 0,
                files: 0,
            },
            lent: Lent {
                words: u32::MAX,
                bytes: u32::MAX,
                image: 0,
            },
            whole,
        }
    }
}
