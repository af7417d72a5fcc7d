// Lookups in one file, given by the words of its image, the bytes of its pool and the words of its link rows, whatever they say. Flat numbers
// come from outside, so they are plain numbers until they are tested.
ghost use Rattle.std.specs.Prelude.{◌≡◌, ◌+◌};
ghost use Rattle.lists.specs.Below.{found_below};
ghost use Rattle.image.specs.Schema.{schema};
ghost use Rattle.image.specs.Places.{file_of};
ghost use Rattle.link.specs.declared.building.Wanted.TheVariants.{Message, Enum};
ghost use Rattle.link.specs.Lookup.{item_named, value_numbered, value_named, first_field_word, flat_field, field_numbered, mode_of, by_mode, field_named};

use crate::building::Wanted;
use crate::find_message_or_enum::find_item;
use image::rows::{Flat, Row};
use image::schema::Image;
use image::shelf::File;
use image::{fields, links as link_rows, values};

// The flat number of a message or an enum, by its full name behind a dot.
pub(crate) fn item_by_full_name(file: &File, wanted: Wanted, name: &[u8]) -> Option<u32>
    ensures { result ≡ item_named wanted (file_of file.now) name.now }
{
    find_item(file, wanted, name).map(|m| m.0)
}

pub fn message_by_full_name(file: &File, name: &[u8]) -> Option<u32>
    ensures { result ≡ item_named Message (file_of file.now) name.now }
{
    item_by_full_name(file, Wanted::Message, name)
}

pub fn enum_by_full_name(file: &File, name: &[u8]) -> Option<u32>
    ensures { result ≡ item_named Enum (file_of file.now) name.now }
{
    item_by_full_name(file, Wanted::Enum, name)
}

// The place of a value in the enum with that index, by the value's number.
pub fn value_by_number(file: &File, index: u32, number: u32) -> Option<u32>
    ensures { result ≡ value_numbered (file_of file.now) index number }
{
    let image = Image::read(file.image, file.pool);
    if image.rows.sections.enums.count <= index {
        return None;
    }
    let row = link_rows::enum_row(&image, file.links, Flat(index));
    values::value_by_number(&image, row, number)
}

// The same by the value's name.
pub fn value_by_name(file: &File, index: u32, name: &[u8]) -> Option<u32>
    ensures { result ≡ value_named (file_of file.now) index name.now }
{
    let image = Image::read(file.image, file.pool);
    if image.rows.sections.enums.count <= index {
        return None;
    }
    let row = link_rows::enum_row(&image, file.links, Flat(index));
    values::value_by_name(&image, row, name)
}

// The sum of two words, where it is below a third.
fn sum_below(a: u32, b: u32, n: u32) -> Option<u32>
    ensures { result ≡ found_below n (a + b) }
{
    a.checked_add(b).filter(|&k| k < n)
}

// The flat number of the field that was found at a place of a message, of which a file has `fields`.
fn flat_field(fields: u32, links: &[u32], m: Flat, found: Option<u32>) -> Option<u32>
    ensures { result ≡ flat_field fields (first_field_word links.now m.0) found }
{
    let link = link_rows::message_link_row(links, m);
    sum_below(link[4], found?, fields)
}

// The flat number of a regular field of the message with that flat number, by the field's number.
pub fn field_by_number(file: &File, message: u32, number: u32) -> Option<u32>
    ensures { result ≡ field_numbered (file_of file.now) message number }
{
    let image = Image::read(file.image, file.pool);
    if image.rows.sections.messages.count <= message {
        return None;
    }
    let row = link_rows::message_row(file.links, Flat(message));
    let found = fields::field_by_number(&image, row, number);
    flat_field(
        image.rows.sections.fields.count,
        file.links,
        Flat(message),
        found,
    )
}

// The mode that 0 stands for: own names.
const USUAL_MODE: u32 = 1;

// A mode comes from C as a number, and any number may come.
fn mode_of(mode: u32) -> u32
    ensures { result ≡ mode_of mode }
{
    if mode == 0 {
        return USUAL_MODE;
    }
    mode
}

// The place of a field in its message: mode 1 seeks own names, 2 own or JSON names.
#[tactic(auto, unfolding(crate::specs::Lookup::by_mode))]
fn by_mode(image: &Image, row: Row, mode: u32, name: &[u8]) -> Option<u32>
    ensures { result ≡ by_mode mode (schema image.now) row.0 name.now }
{
    match mode {
        1 => fields::field_by_name(image, row, name),
        2 => fields::field_by_name_or_json(image, row, name),
        _ => None,
    }
}

// The flat number of a regular field of the message with that flat number, by the field's name.
pub fn field_by_name(file: &File, message: u32, mode: u32, name: &[u8]) -> Option<u32>
    ensures { result ≡ field_named (file_of file.now) message mode name.now }
{
    let image = Image::read(file.image, file.pool);
    if image.rows.sections.messages.count <= message {
        return None;
    }
    let row = link_rows::message_row(file.links, Flat(message));
    let found = by_mode(&image, row, mode_of(mode), name);
    flat_field(
        image.rows.sections.fields.count,
        file.links,
        Flat(message),
        found,
    )
}
