// The shelf: a chain of records behind each other in lent words, with their pools in lent bytes, and where its files stand.
ghost use Rattle.std.specs.Prelude.{◌≡◌, cond, ◌≤◌, length, get_or};
ghost use Rattle.image.specs.Shelf.{shelf_of, end_word, record_fits, used_part};
ghost use Rattle.image.specs.Places.{no_place, file_of, shelf_file, places_of, chained};

use crate::rows::Sections;
use crate::{links, rows};

// What the caller holds: words used, bytes used, files.
#[derive(Clone, Copy, Debug, PartialEq, Eq)]
pub struct Used {
    pub words: u32,
    pub bytes: u32,
    pub files: u32,
}

// Where a file of a shelf stands: the start of its record and how many words its image has, and the start and length of its pool.
#[derive(Clone, Copy, Debug, PartialEq, Eq)]
pub struct Place {
    pub start: u32,
    pub image: u32,
    pub pool: u32,
    pub length: u32,
}

// Where no file stands.
const NO_PLACE: Place = Place {
    start: 0,
    image: 0,
    pool: 0,
    length: 0,
};

// Where the files of a shelf stand.
#[derive(Clone, Copy)]
pub struct Places {
    pub files: [Place; 32],
}

// Lent words and bytes with the places of the files in them.
#[derive(Clone, Copy)]
pub struct Shelf<'w, 'b> {
    pub words: &'w [u32],
    pub bytes: &'b [u8],
    pub places: Places,
}

// A file of a shelf: the words of its image, the bytes of its pool, its link rows.
#[derive(Clone, Copy)]
pub struct File<'w, 'b> {
    pub image: &'w [u32],
    pub pool: &'b [u8],
    pub links: &'w [u32],
}

impl<'w, 'b> Shelf<'w, 'b> {
    // Where file `f` stands.
    fn place(&self, f: u32) -> Place
        ensures { result ≡ get_or self.now.places.files f no_place }
    {
        self.places
            .files
            .get(f as usize)
            .copied()
            .unwrap_or(NO_PLACE)
    }

    // The image of file `f`.
    pub fn image(&self, f: u32) -> &'w [u32]
        ensures { result.now ≡ (shelf_file self.now f).image }
    {
        let at = self.place(f);
        rows::part(self.words, at.start as usize, at.image as usize)
    }

    // Its link rows.
    pub fn links(&self, f: u32) -> &'w [u32]
        ensures { result.now ≡ (shelf_file self.now f).links }
    {
        let at = self.place(f);
        let start = at.start as usize;
        let size = at.image as usize;
        let s = Sections::read(rows::part(self.words, start, size));
        rows::part(self.words, start + size, links::link_row_words(s))
    }

    // Its pool.
    pub fn pool(&self, f: u32) -> &'b [u8]
        ensures { result.now ≡ (shelf_file self.now f).pool }
    {
        let at = self.place(f);
        rows::part(self.bytes, at.pool as usize, at.length as usize)
    }

    // All three.
    pub fn file(&self, f: u32) -> File<'w, 'b>
        ensures { file_of result ≡ shelf_file self.now f }
    {
        File {
            image: self.image(f),
            pool: self.pool(f),
            links: self.links(f),
        }
    }
}

// Word `k` of the 8 words at the end of the last record.
fn end_word(words: &[u32], k: u8) -> u32
    ensures { result ≡ end_word words.now k }
{
    if words.len() < 8 {
        return rows::word_at(words, k as usize);
    }
    rows::word_at(words, words.len() - 8 + k as usize)
}

// Whether the last of the words and bytes are one record and its pool, as their sizes go.
fn record_fits(words: &[u32], bytes: &[u8]) -> bool
    ensures { result ≡ record_fits (shelf_of words.now bytes.now) }
{
    if words.len() < 8 {
        return false;
    }
    let start = end_word(words, 0) as usize;
    let size = end_word(words, 1) as usize;
    let s = Sections::read(rows::part(words, start, size));
    if start + size + links::link_row_words(s) + 8 != words.len() {
        return false;
    }
    if end_word(words, 2) as usize + end_word(words, 3) as usize != bytes.len() {
        return false;
    }
    if end_word(words, 4) != s.messages.count {
        return false;
    }
    if end_word(words, 5) != s.enums.count {
        return false;
    }
    if end_word(words, 6) != s.oneofs.count {
        return false;
    }
    end_word(words, 7) == s.fields.count
}

// Walks back over the ends of records, and keeps where each file stands; none where they do not chain back to nothing.
pub(crate) fn walk_back(words: &[u32], bytes: &[u8], used: Used) -> Option<Places>
    requires files_bound { used.files ≤ 32 }
    requires words_in_bounds { used.words ≤ length words.now }
    requires bytes_in_bounds { used.bytes ≤ length bytes.now }
    ensures { result ≡ cond (chained used.files (used_part words.now bytes.now used)) (Some (places_of used.files (used_part words.now bytes.now used))) None }
{
    let mut files = [NO_PLACE; 32];
    let mut w = used.words as usize;
    let mut b = used.bytes as usize;
    for k in (0..used.files as usize).rev() {
        let us = &words[..w];
        let ps = &bytes[..b];
        if !record_fits(us, ps) {
            return None;
        }
        files[k] = Place {
            start: end_word(us, 0),
            image: end_word(us, 1),
            pool: end_word(us, 2),
            length: end_word(us, 3),
        };
        w = end_word(us, 0) as usize;
        b = end_word(us, 2) as usize;
    }
    if w != 0 || b != 0 {
        return None;
    }
    Some(Places { files })
}
