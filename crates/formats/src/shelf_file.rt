// A shelf as a file: its used words and bytes, and how many files it has.
ghost use Rattle.std.specs.Prelude.{◌≡◌};
ghost use Rattle.formats.specs.Reading.{read_shelf};
ghost use Rattle.formats.specs.Writing.{write_shelf};

use crate::file::{Fault, SHELF, read_file, write_file};
use crate::words::word_at;

// How many words and bytes of a shelf are used, and by how many files.
#[derive(Clone, Copy, PartialEq, Eq)]
pub struct ShelfSizes {
    pub words: u32,
    pub bytes: u32,
    pub files: u32,
}

// Reads a shelf file to the front of `words` and `bytes`, and answers the numbers of its shelf; or a fault, and they are as they were.
pub fn read_shelf(file: &[u8], words: &mut [u32], bytes: &mut [u8]) -> Result<ShelfSizes, Fault>
    ensures { record { answer = result; words = words.new; bytes = bytes.new } ≡ read_shelf file.now words.old bytes.old }
{
    let sizes = read_file(file, SHELF, words, bytes)?;
    Ok(ShelfSizes {
        words: sizes.words,
        bytes: sizes.bytes,
        files: word_at(file, 20),
    })
}

// Writes a shelf file to the front of `out`: the first `used_words` of `words` and the first `used_bytes` of `bytes`. The answer is how long
// it is; or nothing is written.
pub fn write_shelf(
    words: &[u32],
    bytes: &[u8],
    used_words: u32,
    used_bytes: u32,
    files: u32,
    out: &mut [u8],
) -> Option<usize>
    ensures { record { answer = result; out = out.new } ≡ write_shelf words.now bytes.now used_words used_bytes files out.old }
{
    let words = words.get(..used_words as usize)?;
    let bytes = bytes.get(..used_bytes as usize)?;
    write_file(
        &SHELF.magic,
        &[1, used_words, used_bytes, files],
        words,
        bytes,
        out,
    )
}
