// Shelf files: opened and judged, and stored.
ghost use Rattle.std.specs.Prelude.{◌≡◌, true};
ghost use Rattle.formats.specs.Writing.{write_shelf};
ghost use Rattle.shelf_io.specs.Opening.{read_none, used_left, Untouched, Opens};

use crate::arguments::read_word;
use crate::files;
use crate::files::{Cause, LoadError, StoreError};
use crate::sentences::tell_shelf;
use formats::file::Fault;
use formats::shelf_file;
use image::shelf::{Places, Used};
use image::well_formed;
use std::rt::{Env, Files};
use tokens::front;

// The words and bytes of the longest shelf, and room for its file and one byte more, by which a longer file is known.
pub const SHELF_WORDS: usize = 262144;

pub const SHELF_BYTES: usize = 131072;

pub const FILE_ROOM: usize = 1179673;

// Why there is no shelf to work on: the file was not read, or it is no shelf file, or its shelf, which has these three numbers, is not well formed.
#[derive(Clone, Copy, PartialEq, Eq)]
pub enum OpenError {
    Unread(Cause),
    NoShelf(Fault),
    Broken(Used),
}

impl OpenError {
    // The numbers that there are all the same: those of the broken shelf, or, where none was read, those of a shelf with no file.
    pub fn used(self) -> Used
        ensures { result ≡ used_left self }
    {
        match self {
            OpenError::Broken(used) => used,
            OpenError::Unread(_) | OpenError::NoShelf(_) => Used {
                words: 0,
                bytes: 0,
                files: 0,
            },
        }
    }
}

// The numbers of a well-formed shelf, and where its files stand.
#[derive(Clone, Copy)]
pub struct Opened {
    pub used: Used,
    pub places: Places,
}

impl From<LoadError> for OpenError {
    ghost use Rattle.shelf_io.specs.Opening.{unopened};

    ghost from_gives = { λ error opened. opened ≡ unopened error };

    fn from(error: LoadError) -> OpenError {
        match error {
            LoadError::TooLong => OpenError::NoShelf(Fault::TooLong),
            LoadError::Unread(cause) => OpenError::Unread(cause),
        }
    }
}

// Reads the shelf of a file that was read, and answers its numbers.
fn decode(file: &[u8], words: &mut [u32], bytes: &mut [u8]) -> Result<Used, OpenError>
    ensures { Untouched result words.old bytes.old words.new bytes.new }
{
    match shelf_file::read_shelf(file, words, bytes) {
        Ok(sizes) => Ok(Used {
            words: sizes.words,
            bytes: sizes.bytes,
            files: sizes.files,
        }),
        Err(fault) => Err(OpenError::NoShelf(fault)),
    }
}

// Reads a file, and its shelf.
fn load(
    rt: &impl Files,
    path: &[u8],
    file: &mut [u8],
    words: &mut [u32],
    bytes: &mut [u8],
) -> Result<Used, OpenError>
    ensures { Untouched result words.old bytes.old words.new bytes.new }
{
    match files::read_whole(rt, path, file) {
        Ok(n) => decode(front(file, n), words, bytes),
        Err(error) => Err(OpenError::from(error)),
    }
}

// Opens a shelf file: it is read to the front of `words` and `bytes`, and judged. `file` is room for the file and one byte more.
pub fn open_shelf(
    rt: &impl Files,
    path: &[u8],
    file: &mut [u8],
    words: &mut [u32],
    bytes: &mut [u8],
) -> Result<Opened, OpenError>
    ensures { Opens result words.old bytes.old words.new bytes.new }
{
    let used = load(rt, path, file, words, bytes)?;
    let Some(places) = well_formed::read_shelf(words, bytes, used) else {
        return Err(OpenError::Broken(used));
    };
    Ok(Opened { used, places })
}

// Opens the shelf file that word `i` names, and says what is wrong where there is none to work on.
pub fn open_named(
    rt: &(impl Env + Files + Print),
    i: usize,
    file: &mut [u8],
    words: &mut [u32],
    bytes: &mut [u8],
) -> Result<Opened, OpenError>
    ensures { Opens result words.old bytes.old words.new bytes.new }
{
    let mut buffer = io::buffer();
    let n = read_word(rt, i, &mut buffer);
    let path = front(&buffer, n);
    let opened = open_shelf(rt, path, file, words, bytes);
    if let Err(error) = opened {
        tell_shelf(rt, path, Err(error));
    }
    opened
}

// Stores the used words and bytes of a shelf whole or not at all. `file` is room for the file.
pub fn store_shelf(
    rt: &impl Files,
    path: &[u8],
    words: &[u32],
    bytes: &[u8],
    used: Used,
    file: &mut [u8],
) -> Result<(), StoreError>
    ensures { file.new ≡ (write_shelf words.now bytes.now used.words used.bytes used.files file.old).out }
{
    let made = shelf_file::write_shelf(words, bytes, used.words, used.bytes, used.files, file);
    let Some(n) = made else {
        return Err(StoreError::NoRoom);
    };
    files::store_whole(rt, path, front(file, n)).map_err(StoreError::Unwritten)
}
