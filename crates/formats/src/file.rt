// What both kinds of files have in common: a magic, a version and two sizes; then words, then bytes, and nothing behind them.
ghost use Rattle.std.specs.Prelude.{◌≡◌, true, ◌≤◌, ◌<◌, length};
ghost use Rattle.formats.specs.Words.{word_limit};
ghost use Rattle.formats.specs.Files.{file_of};
ghost use Rattle.formats.specs.Reading.{judged, read_file};
ghost use Rattle.formats.specs.Writing.{written};

use crate::words::{put_words, read_words, word_at};

// A kind of file: what it begins with, and the byte from which on its words stand.
#[derive(Clone, Copy)]
pub(crate) struct Kind {
    pub magic: [u8; 8],
    pub head: usize,
    ghost least: { 20 ≤ head },
    ghost most: { head ≤ 24 },
}

pub(crate) const IMAGE: Kind = Kind {
    magic: *b"NJUOLIMG",
    head: 20,
};

pub(crate) const SHELF: Kind = Kind {
    magic: *b"NJUOLSHF",
    head: 24,
};

// How many words and bytes a file holds.
#[derive(Clone, Copy, PartialEq, Eq)]
pub struct Sizes {
    pub words: u32,
    pub bytes: u32,
}

// Why a file is not read: it begins otherwise, it has another version, it is shorter or longer than it says, or it says
// more words or bytes than there is room for.
#[derive(Clone, Copy, PartialEq, Eq)]
pub enum Fault {
    Foreign,
    OtherVersion,
    Damaged,
    TooLong,
}

// The sizes of a file, or its first fault.
fn judge(file: &[u8], kind: Kind, word_room: usize, byte_room: usize) -> Result<Sizes, Fault>
    ensures { result ≡ judged (record { magic = kind.magic; head = kind.head }) file.now word_room byte_room }
{
    if !file.starts_with(&kind.magic) {
        return Err(Fault::Foreign);
    }
    // A file too short for what is read next is shorter than it says, whatever that is.
    if file.len() < 12 {
        return Err(Fault::Damaged);
    }
    if word_at(file, 8) != 1 {
        return Err(Fault::OtherVersion);
    }
    if file.len() < kind.head {
        return Err(Fault::Damaged);
    }
    let words = word_at(file, 12);
    let bytes = word_at(file, 16);
    if file.len() != kind.head + words as usize * 4 + bytes as usize {
        return Err(Fault::Damaged);
    }
    if word_room < words as usize || byte_room < bytes as usize {
        return Err(Fault::TooLong);
    }
    Ok(Sizes { words, bytes })
}

// Reads a file, and answers how much of the lent slices was filled; or a fault, and they are as they were.
pub(crate) fn read_file(
    file: &[u8],
    kind: Kind,
    words: &mut [u32],
    bytes: &mut [u8],
) -> Result<Sizes, Fault>
    ensures { record { answer = result; words = words.new; bytes = bytes.new } ≡ read_file (record { magic = kind.magic; head = kind.head }) file.now words.old bytes.old }
{
    let sizes = judge(file, kind, words.len(), bytes.len())?;
    let n = sizes.words as usize;
    let b = sizes.bytes as usize;
    read_words(file, kind.head, n, words);
    bytes[..b].copy_from_slice(&file[kind.head + n * 4..]);
    Ok(sizes)
}

// Writes a file, with `numbers` behind its magic, where there is room; the answer is how long it is.
pub(crate) fn write_file(
    magic: &[u8],
    numbers: &[u32],
    words: &[u32],
    bytes: &[u8],
    out: &mut [u8],
) -> Option<usize>
    requires magic_len_bound { length magic.now ≤ 8 }
    requires numbers_len_bound { length numbers.now ≤ 4 }
    requires words_len_bound { length words.now < word_limit }
    requires bytes_len_bound { length bytes.now < word_limit }
    ensures { record { answer = result; out = out.new } ≡ written true (file_of magic.now numbers.now words.now bytes.now) out.old }
{
    let w = magic.len() + numbers.len() * 4;
    let b = w + words.len() * 4;
    let size = b + bytes.len();
    if out.len() < size {
        return None;
    }
    out[..magic.len()].copy_from_slice(magic);
    put_words(out, magic.len(), numbers);
    put_words(out, w, words);
    out[b..size].copy_from_slice(bytes);
    Some(size)
}
