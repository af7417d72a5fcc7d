// What went wrong, in words. Each function answers how many bytes it handed to standard output, and promises a bound. `Display` would tell no
// bound, so the errors print by these.
ghost use Rattle.std.specs.Prelude.{◌≤◌, length, IfSome};

use crate::files::{Cause, StoreError};
use crate::say;
use crate::shelves::OpenError;
use formats::file::Fault;
use image::verdict::{Refusal, Refused};
use tokens::front;

// Why a file was not read or stored.
fn tell_cause(rt: &impl Print, c: Cause) -> usize
    ensures { result ≤ 80 }
{
    match c {
        Cause::Missing => say::text(rt, b"no such file or folder"),
        Cause::Forbidden => say::text(rt, b"no permission"),
        Cause::Folder => say::text(rt, b"it is a folder"),
        Cause::NoFolder => say::text(rt, b"a part of its path is no folder"),
        Cause::LongPath => say::text(rt, b"its path is too long"),
        Cause::NoText => say::text(rt, b"its path is not UTF-8"),
        Cause::Taken => say::text(rt, b"a file of its name with .new behind it is in the way"),
        Cause::Full => say::text(rt, b"no space is left"),
        Cause::Other(number) => other_cause(rt, number),
    }
}

fn other_cause(rt: &impl Print, number: u32) -> usize
    ensures { result ≤ 80 }
{
    let n = say::text(rt, b"the system's error ");
    n + say::number(rt, number as u64)
}

// Why a file is not of its kind.
pub fn tell_fault(rt: &impl Print, f: Fault) -> usize
    ensures { result ≤ 80 }
{
    match f {
        Fault::Foreign => say::text(rt, b"it does not begin like one"),
        Fault::OtherVersion => say::text(rt, b"it has another version"),
        Fault::Damaged => say::text(rt, b"it is damaged: shorter or longer than it says"),
        Fault::TooLong => say::text(rt, b"it is longer than one may be"),
    }
}

// What a refusal says.
fn reason(r: Refusal) -> &'static [u8]
    ensures { length result.now ≤ 100 }
{
    match r {
        Refusal::TooLong => b"the shelf or the image is longer than its limit",
        Refusal::ShelfBroken => b"the shelf is not well formed",
        Refusal::LayoutBroken => b"the image breaks a layout rule",
        Refusal::LimitPassed => b"a count, depth or text limit is passed, or 32 files are shelved",
        Refusal::TextWrong => b"a text breaks its byte rule",
        Refusal::NameTaken => b"a file of that name is on the shelf",
        Refusal::ImportMissing => b"an import is not on the shelf",
        Refusal::NameShared => b"two messages or enums of the file share a full name",
        Refusal::EntryName => b"a map entry's name does not end in Entry",
        Refusal::EntryNotBare =>
            b"a map entry has extensions, extension ranges, nested messages or enums",
        Refusal::EntryFields =>
            b"a map entry's fields are not key = 1 and value = 2, in that order, both optional",
        Refusal::DefaultWrong => b"a default cannot be read, or is one of a message or a group",
        Refusal::DefaultBarred => b"defaults of double, float and bytes are not read",
        Refusal::ExtendeeAbsent => b"an extension at file level extends nothing",
        Refusal::MessageMissing => b"a message or an extendee is not found",
        Refusal::EnumMissing => b"an enum is not found",
        Refusal::FieldClash => b"its number, name or JSON name clashes with an earlier field's",
        Refusal::NoRoom => b"the shelf has no room for the record",
    }
}

// What a refusal's place counts, if it has one.
fn counted_by(r: Refusal) -> Option<&'static [u8]>
    ensures { IfSome result (λ label. length label.now ≤ 20) }
{
    match r {
        Refusal::ImportMissing => Some(b", import row "),
        Refusal::EntryName | Refusal::EntryNotBare | Refusal::EntryFields => Some(b", message "),
        Refusal::DefaultWrong
        | Refusal::DefaultBarred
        | Refusal::ExtendeeAbsent
        | Refusal::MessageMissing
        | Refusal::EnumMissing
        | Refusal::FieldClash => Some(b", field "),
        _ => None,
    }
}

// A refusal: its number, its place where it has one, and what it says.
pub fn tell_refusal(rt: &impl Print, refused: Refused) -> usize
    ensures { result ≤ 200 }
{
    let r = refused.refusal;
    let n = say::text(rt, b"refused ") + say::number(rt, r.number() as u64);
    let k = match counted_by(r) {
        Some(label) => say::text(rt, label) + say::number(rt, refused.place as u64),
        None => 0,
    };
    n + k + say::text(rt, b": ") + say::text(rt, reason(r))
}

// Why a file was not read.
pub fn tell_unread(rt: &impl Print, c: Cause) -> usize
    ensures { result ≤ 100 }
{
    let n = say::text(rt, b"not read (");
    n + tell_cause(rt, c) + say::text(rt, b")")
}

// Why a file is no shelf file.
fn tell_no_shelf(rt: &impl Print, f: Fault) -> usize
    ensures { result ≤ 100 }
{
    let n = say::text(rt, b"not a shelf file (");
    n + tell_fault(rt, f) + say::text(rt, b")")
}

// What opening a shelf file came to.
fn tell_state(rt: &impl Print, state: Result<(), OpenError>) -> usize
    ensures { result ≤ 100 }
{
    match state {
        Ok(()) => say::text(rt, b"a well-formed shelf"),
        Err(OpenError::Unread(c)) => tell_unread(rt, c),
        Err(OpenError::NoShelf(f)) => tell_no_shelf(rt, f),
        Err(OpenError::Broken(_)) => say::text(rt, b"a shelf file whose shelf is not well formed"),
    }
}

// What opening a shelf file came to, as a line. The answer counts what stands behind the path.
pub fn tell_shelf(rt: &impl Print, path: &[u8], state: Result<(), OpenError>) -> usize
    ensures { result ≤ 110 }
{
    say::text(rt, path);
    let n = say::text(rt, b": ");
    n + tell_state(rt, state) + say::text(rt, b"\n")
}

fn tell_unwritten(rt: &impl Print, c: Cause) -> usize
    ensures { result ≤ 100 }
{
    let n = say::text(rt, b"not written (");
    n + tell_cause(rt, c) + say::text(rt, b")")
}

// What storing a file came to.
pub fn tell_stored(rt: &impl Print, stored: Result<(), StoreError>) -> usize
    ensures { result ≤ 100 }
{
    match stored {
        Ok(()) => say::text(rt, b"written"),
        Err(StoreError::NoRoom) => say::text(rt, b"not written (it is too long)"),
        Err(StoreError::Unwritten(c)) => tell_unwritten(rt, c),
    }
}

// A file of a shelf, by its number and name. No name on a shelf is longer than 128 bytes.
pub fn tell_file(rt: &impl Print, f: u32, name: &[u8]) -> usize
    ensures { result ≤ 160 }
{
    let n = say::text(rt, b"file ") + say::number(rt, f as u64) + say::text(rt, b", ");
    n + say::text(rt, front(name, 128))
}
