// An image as a file.
ghost use Rattle.std.specs.Prelude.{◌≡◌};
ghost use Rattle.formats.specs.Reading.{read_image};
ghost use Rattle.formats.specs.Writing.{write_image};

use crate::file::{Fault, IMAGE, Sizes, read_file, write_file};

// Reads an image file to the front of `words` and `pool`, and answers how much of them was filled; or a fault, and they are as they were.
pub fn read_image(file: &[u8], words: &mut [u32], pool: &mut [u8]) -> Result<Sizes, Fault>
    ensures { record { answer = result; words = words.new; bytes = pool.new } ≡ read_image file.now words.old pool.old }
{
    read_file(file, IMAGE, words, pool)
}

// Writes an image file to the front of `out`, and answers how long it is; or nothing is written.
pub fn write_image(words: &[u32], pool: &[u8], out: &mut [u8]) -> Option<usize>
    ensures { record { answer = result; out = out.new } ≡ write_image words.now pool.now out.old }
{
    let word_count = u32::try_from(words.len()).ok()?;
    let byte_count = u32::try_from(pool.len()).ok()?;
    write_file(&IMAGE.magic, &[1, word_count, byte_count], words, pool, out)
}
