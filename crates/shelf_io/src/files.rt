// Files by name: read whole, and stored whole or not at all.
ghost use Rattle.std.specs.Prelude.{◌≡◌, ◌≤◌, length, IfOk};
ghost use Rattle.shelf_io.specs.Causes.{causes, cause_in};

use std::fs;
use std::fs::{OpenFile, OpenOptions};
use std::io::{Error, Read, Write};
use std::rt::Files;
use std::str::Utf8Error;
use tokens::front;

// The numbers of the system's errors that have a cause of their own.
const EPERM: u32 = 1;

const ENOENT: u32 = 2;

const EACCES: u32 = 13;

const EEXIST: u32 = 17;

const ENOTDIR: u32 = 20;

const EISDIR: u32 = 21;

const ENOSPC: u32 = 28;

const EROFS: u32 = 30;

const ENAMETOOLONG: u32 = 36;

// Why the system did not do what it was asked. `NoText` is said of a path that is not UTF-8, by which no file is asked for; `Taken` of the
// new file that is to take another's place; `Other` has the number that the system gave, or 0 where it gave none.
#[derive(Clone, Copy, PartialEq, Eq)]
pub enum Cause {
    Missing,
    Forbidden,
    Folder,
    NoFolder,
    LongPath,
    NoText,
    Taken,
    Full,
    Other(u32),
}

// A file was not read whole: it fills all the bytes that were lent, and may be longer; or the system did not read it.
#[derive(Clone, Copy, PartialEq, Eq)]
pub enum LoadError {
    TooLong,
    Unread(Cause),
}

// A file was not stored: it did not fit into the bytes that were lent to make it; or the old one stands as it was.
#[derive(Clone, Copy, PartialEq, Eq)]
pub enum StoreError {
    NoRoom,
    Unwritten(Cause),
}

// The cause that the number of an error stands for.
#[tactic(auto, unfolding(crate::specs::Causes::cause_in))]
fn cause_by(number: u32) -> Cause
    ensures { result ≡ cause_in causes number }
{
    match number {
        ENOENT => Cause::Missing,
        EACCES | EPERM | EROFS => Cause::Forbidden,
        EISDIR => Cause::Folder,
        ENOTDIR => Cause::NoFolder,
        ENAMETOOLONG => Cause::LongPath,
        EEXIST => Cause::Taken,
        ENOSPC => Cause::Full,
        _ => Cause::Other(number),
    }
}

// Why a call failed.
impl From<Error> for Cause {
    ghost use Rattle.std.specs.IoError.{raw_os_error};
    ghost use Rattle.shelf_io.specs.Causes.{cause_of};

    ghost from_gives = { λ error cause. cause ≡ cause_of (raw_os_error error) };

    fn from(error: Error) -> Cause {
        // A number below 0, and none, are said to be 0.
        match error.raw_os_error() {
            Some(number) => cause_by(u32::try_from(number).unwrap_or(0)),
            None => cause_by(0),
        }
    }
}

impl From<Utf8Error> for Cause {
    ghost use Rattle.shelf_io.specs.declared.files.Cause.TheVariants.{NoText};

    ghost from_gives = { λ _ cause. cause ≡ NoText };

    fn from(_error: Utf8Error) -> Cause {
        Cause::NoText
    }
}

impl From<Cause> for LoadError {
    ghost use Rattle.shelf_io.specs.declared.files.LoadError.TheVariants.{Unread};

    ghost from_gives = { λ cause error. error ≡ Unread cause };

    fn from(cause: Cause) -> LoadError {
        LoadError::Unread(cause)
    }
}

impl From<Error> for LoadError {
    ghost use Rattle.std.specs.IoError.{raw_os_error};
    ghost use Rattle.shelf_io.specs.Causes.{cause_of};
    ghost use Rattle.shelf_io.specs.declared.files.LoadError.TheVariants.{Unread};

    ghost from_gives = { λ failed error. error ≡ Unread (cause_of (raw_os_error failed)) };

    fn from(error: Error) -> LoadError {
        LoadError::Unread(Cause::from(error))
    }
}

// Reads to the front of `out` until the file ends. Each read says how many bytes it gave.
fn read_to_end(file: &mut impl Read, out: &mut [u8]) -> Result<usize, LoadError>
    ensures { IfOk result (λ n. n ≤ length out.new) }
{
    let mut n = 0;
    while n < out.len() {
        let more = file.read(&mut out[n..])?;
        if more == 0 {
            return Ok(n);
        }
        n += more;
    }
    Err(LoadError::TooLong)
}

// Reads until `out` is full, the input ends or a read fails, and answers how many bytes were read. Each read says how many it gave.
pub fn read_full(input: &mut impl Read, out: &mut [u8]) -> usize
    ensures { result ≤ length out.new }
{
    let mut n = 0;
    while n < out.len() {
        let Ok(more) = input.read(&mut out[n..]) else {
            return n;
        };
        if more == 0 {
            return n;
        }
        n += more;
    }
    n
}

// The file that a path names. The system takes no longer path, and a word that was cut may have lost a part of its last letter.
fn name_of(path: &[u8]) -> Result<&str, Cause> {
    if 4095 < path.len() {
        return Err(Cause::LongPath);
    }
    Ok(str::from_utf8(path)?)
}

// Reads a file to the front of `out`, which is longer than the longest file that is wanted, and answers how many bytes it has.
pub fn read_whole(rt: &impl Files, path: &[u8], out: &mut [u8]) -> Result<usize, LoadError>
    ensures { IfOk result (λ n. n ≤ length out.new) }
{
    let name = name_of(path)?;
    let mut file = fs::open(rt, name)?;
    read_to_end(&mut file, out)
}

// Writes to a new file, and waits until that has reached its device.
fn write_out(file: &mut (impl Write + OpenFile), contents: &[u8]) -> Result<(), Cause> {
    file.write_all(contents)?;
    file.sync_all()?;
    Ok(())
}

// Makes a file that was not there, or none.
fn write_new(rt: &impl Files, path: &str, contents: &[u8]) -> Result<(), Cause> {
    let mut file = OpenOptions::new()
        .write(true)
        .create_new(true)
        .open(rt, path)?;
    let stored = write_out(&mut file, contents);
    drop(file);
    if stored.is_err() {
        let _ = fs::remove_file(rt, path);
    }
    stored
}

// Makes the file `fresh`, which then takes the name `path`.
fn replace(rt: &impl Files, path: &[u8], fresh: &[u8], contents: &[u8]) -> Result<(), Cause> {
    let path = str::from_utf8(path)?;
    let fresh = str::from_utf8(fresh)?;
    write_new(rt, fresh, contents)?;
    if let Err(error) = fs::rename(rt, fresh, path) {
        let _ = fs::remove_file(rt, fresh);
        return Err(Cause::from(error));
    }
    Ok(())
}

// Stores a file whole or not at all: it is written beside the old one, with `.new` behind its name, and then takes the old one's place.
pub(crate) fn store_whole(rt: &impl Files, path: &[u8], contents: &[u8]) -> Result<(), Cause> {
    let mut fresh = io::buffer();
    let n = path.len();
    if 4091 < n {
        return Err(Cause::LongPath);
    }
    fresh[..n].copy_from_slice(path);
    fresh[n..n + 4].copy_from_slice(b".new");
    replace(rt, path, front(&fresh, n + 4), contents)
}
