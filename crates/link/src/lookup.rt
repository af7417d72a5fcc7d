// Lookups for a file of a shelf, whatever is lent: refused as 1 or 2, nothing for a bad file or index, or a number. What is looked up in one
// file alone stands below, in file_lookup; who looks up many things checks the shelf once and goes on there.
ghost use Rattle.std.specs.Prelude.{◌≡◌, ◌+◌, ◌<◌, ◌^◌, length, unwrap_or, Ok};
ghost use Rattle.image.specs.Schema.{schema};
ghost use Rattle.image.specs.FullName.{full_name};
ghost use Rattle.link.specs.declared.building.Wanted.TheVariants.{Message, Enum};
ghost use Rattle.link.specs.Lookup.{looked_number, looked_value, asked_of, placed_shelf, checked_shelf, opened_file, open_as, item_named, value_numbered, value_named, field_numbered, field_named, looked_up, written, item_written, name_written};

use crate::building::Wanted;
use crate::{file_lookup, judge};
use image::schema::Image;
use image::shelf::{File, Places, Shelf, Used};
use image::verdict::{Refusal, Refused, Verdict};
use image::{full_name, well_formed};

// What a lookup answers: a number or nothing, or a refusal of the shelf.
pub type Looked = Result<Option<u32>, Refusal>;

// What a caller lends: the words and the bytes of a shelf, and its three numbers.
#[derive(Clone, Copy)]
pub struct Lent<'a> {
    pub words: &'a [u32],
    pub bytes: &'a [u8],
    pub used: Used,
}

// 0 where something is found, 4294967295 where nothing is, else the number of the refusal.
pub fn number(looked: Looked) -> u32
    ensures { result ≡ looked_number looked }
{
    match looked {
        Ok(Some(_)) => 0,
        Ok(None) => u32::MAX,
        Err(refusal) => refusal.number(),
    }
}

// What was found, or 0.
pub fn value(looked: Looked) -> u32
    ensures { result ≡ looked_value looked }
{
    match looked {
        Ok(found) => found.unwrap_or(0),
        Err(_) => 0,
    }
}

// 1 or 2, or else where the files of a shelf stand.
pub fn shelf_places(lent: &Lent) -> Result<Places, Refused>
    ensures { result ≡ placed_shelf (asked_of lent.now) }
{
    let words = lent.words;
    let bytes = lent.bytes;
    judge::judge_lengths(words, bytes, lent.used, &words[..0], &bytes[..0])?;
    match well_formed::read_shelf(words, bytes, lent.used) {
        Some(places) => Ok(places),
        None => Err(Refusal::ShelfBroken.at(0)),
    }
}

// The verdict of 1 and 2, and where the files stand if the shelf is well formed, however long it is.
#[derive(Clone, Copy)]
pub struct Checked {
    pub verdict: Verdict,
    pub places: Option<Places>,
}

// Both at once, for whoever wants to know of a shelf that is refused as well.
pub fn check_shelf(lent: &Lent) -> Checked
    ensures { result ≡ checked_shelf (asked_of lent.now) }
{
    let words = lent.words;
    let bytes = lent.bytes;
    let places = well_formed::read_shelf(words, bytes, lent.used);
    if let Err(refused) = judge::judge_lengths(words, bytes, lent.used, &words[..0], &bytes[..0]) {
        return Checked {
            verdict: Err(refused),
            places,
        };
    }
    match places {
        Some(_) => Checked {
            verdict: Ok(()),
            places,
        },
        None => Checked {
            verdict: Err(Refusal::ShelfBroken.at(0)),
            places,
        },
    }
}

// The file of a shelf that is in order, or nothing where it has no such file.
fn open_file<'a>(lent: &Lent<'a>, file: u32) -> Result<Option<File<'a, 'a>>, Refusal>
    ensures { open_as result ≡ opened_file (asked_of lent.now) file }
{
    match shelf_places(lent) {
        Err(refused) => Err(refused.refusal),
        Ok(places) => {
            if lent.used.files <= file {
                return Ok(None);
            }
            let shelf = Shelf {
                words: lent.words,
                bytes: lent.bytes,
                places,
            };
            Ok(Some(shelf.file(file)))
        }
    }
}

// The flat number of a message or an enum, by its full name behind a dot.
fn item_by_full_name(lent: &Lent, file: u32, wanted: Wanted, name: &[u8]) -> Looked
    ensures { result ≡ looked_up (asked_of lent.now) file (λ x. item_named wanted x name.now) }
{
    let Some(file) = open_file(lent, file)? else {
        return Ok(None);
    };
    Ok(file_lookup::item_by_full_name(&file, wanted, name))
}

pub fn message_by_full_name(lent: &Lent, file: u32, name: &[u8]) -> Looked
    ensures { result ≡ looked_up (asked_of lent.now) file (λ x. item_named Message x name.now) }
{
    item_by_full_name(lent, file, Wanted::Message, name)
}

pub fn enum_by_full_name(lent: &Lent, file: u32, name: &[u8]) -> Looked
    ensures { result ≡ looked_up (asked_of lent.now) file (λ x. item_named Enum x name.now) }
{
    item_by_full_name(lent, file, Wanted::Enum, name)
}

// The place of a value in the enum with that flat number, by the value's number. The last index wins.
pub fn value_by_number(lent: &Lent, file: u32, index: u32, number: u32) -> Looked
    ensures { result ≡ looked_up (asked_of lent.now) file (λ x. value_numbered x index number) }
{
    let Some(file) = open_file(lent, file)? else {
        return Ok(None);
    };
    Ok(file_lookup::value_by_number(&file, index, number))
}

// The same by the value's name.
pub fn value_by_name(lent: &Lent, file: u32, index: u32, name: &[u8]) -> Looked
    ensures { result ≡ looked_up (asked_of lent.now) file (λ x. value_named x index name.now) }
{
    let Some(file) = open_file(lent, file)? else {
        return Ok(None);
    };
    Ok(file_lookup::value_by_name(&file, index, name))
}

// The flat number of a regular field of the message with that flat number, by the field's number.
pub fn field_by_number(lent: &Lent, file: u32, message: u32, number: u32) -> Looked
    ensures { result ≡ looked_up (asked_of lent.now) file (λ x. field_numbered x message number) }
{
    let Some(file) = open_file(lent, file)? else {
        return Ok(None);
    };
    Ok(file_lookup::field_by_number(&file, message, number))
}

// The same by the field's name. Mode 1 seeks own names, 2 own or JSON names, 0 is the usual mode.
pub fn field_by_name(lent: &Lent, file: u32, message: u32, mode: u32, name: &[u8]) -> Looked
    ensures { result ≡ looked_up (asked_of lent.now) file (λ x. field_named x message mode name.now) }
{
    let Some(file) = open_file(lent, file)? else {
        return Ok(None);
    };
    Ok(file_lookup::field_by_name(&file, message, mode, name))
}

// How long the full name is that was written.
fn length_answered(text: Option<usize>) -> Looked
    requires { unwrap_or text 0 < 2 ^ 32 }
    ensures { result ≡ Ok text }
{
    match text {
        Some(n) => Ok(Some(n as u32)),
        None => Ok(None),
    }
}

// Writes the full name of an item of a file, which is short.
fn write_item(image: &Image, links: &[u32], i: u32, out: &mut [u8]) -> Looked
    requires { length (full_name (schema image.now) links.now i) < 2 ^ 32 }
    ensures { record { answer = result; out = out.new } ≡ written out.old (full_name (schema image.now) links.now i) }
{
    length_answered(full_name::write_full_name(image, links, i, out))
}

// Writes the full name of a message or an enum, without the dot, to the front of `out`, or nothing where it is too short.
fn item_full_name(lent: &Lent, file: u32, wanted: Wanted, index: u32, out: &mut [u8]) -> Looked
    ensures { record { answer = result; out = out.new } ≡ name_written (asked_of lent.now) file out.old (item_written wanted index) }
{
    let Some(file) = open_file(lent, file)? else {
        return Ok(None);
    };
    let image = Image::read(file.image, file.pool);
    let s = &image.rows.sections;
    // Enums stand behind the messages among the items of a file.
    let (count, first) = match wanted {
        Wanted::Message => (s.messages.count, 0),
        Wanted::Enum => (s.enums.count, s.messages.count),
    };
    if count <= index {
        return Ok(None);
    }
    write_item(&image, file.links, first + index, out)
}

pub fn message_full_name(lent: &Lent, file: u32, message: u32, out: &mut [u8]) -> Looked
    ensures { record { answer = result; out = out.new } ≡ name_written (asked_of lent.now) file out.old (item_written Message message) }
{
    item_full_name(lent, file, Wanted::Message, message, out)
}

pub fn enum_full_name(lent: &Lent, file: u32, index: u32, out: &mut [u8]) -> Looked
    ensures { record { answer = result; out = out.new } ≡ name_written (asked_of lent.now) file out.old (item_written Enum index) }
{
    item_full_name(lent, file, Wanted::Enum, index, out)
}
