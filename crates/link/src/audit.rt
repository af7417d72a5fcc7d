// What the audit listing says of a message: its mark, and what it carries under a field's own name. Labels and shapes are read as the words that
// rows have, which may be any.
ghost use Rattle.std.specs.Prelude.{◌≡◌, ◌+◌, Some};
ghost use Rattle.image.specs.Places.{file_of};
ghost use Rattle.link.specs.Audit.{says_alone, read_mark, by_shape, by_label, shape_at, carried_at, carried_under, passes_without};

use crate::field_index;
use image::rows::{Flat, Sections};
use image::schema::Image;
use image::shelf::File;
use image::{fields, links as link_rows, rows};

// The mark of a message: it skips the completeness check, or may be incomplete, with the distance to the nearest cause.
#[derive(Clone, Copy, Debug, PartialEq, Eq)]
pub enum Mark {
    AlwaysInitialised,
    MayBeIncomplete(u32),
}

// A field that a message carries, with its number.
#[derive(Clone, Copy, Debug, PartialEq, Eq)]
pub enum Carried {
    Required(u32),
    Optional(u32),
    Repeated(u32),
    Map(u32),
}

// How many messages a file has.
pub fn message_count(image: &[u32]) -> u32
    ensures { result ≡ (says_alone image.now).messages }
{
    Sections::read(image).messages.count
}

// The mark of a message, off its link row.
pub fn mark_of(links: &[u32], m: Flat) -> Mark
    ensures { result ≡ read_mark links.now m.0 }
{
    let link = link_rows::message_link_row(links, m);
    if link[8] == 0 {
        return Mark::MayBeIncomplete(link[9]);
    }
    Mark::AlwaysInitialised
}

// The shape of the field that stands `j` behind field `first`, 0 where the file has no such field. The number is added as usize, since any
// two words may be given.
fn shape_at(file: &File, first: u32, j: u32) -> u32
    ensures { result ≡ shape_at (file_of file.now) (first + j) }
{
    let image = Image::read(file.image, file.pool);
    let k = first as usize + j as usize;
    if image.rows.sections.fields.count as usize <= k {
        return 0;
    }
    let link = link_rows::field_link_row(&image, file.links, Flat(k as u32));
    link[5]
}

// A repeated field.
fn by_shape(shape: u32, number: u32) -> Carried
    ensures { result ≡ by_shape shape number }
{
    if shape == 2 {
        return Carried::Map(number);
    }
    Carried::Repeated(number)
}

// A field by its label, which alone decides whether it is required.
fn by_label(label: u32, shape: u32, number: u32) -> Carried
    ensures { result ≡ by_label label shape number }
{
    match label {
        2 => Carried::Required(number),
        3 => by_shape(shape, number),
        _ => Carried::Optional(number),
    }
}

// The regular field at place `j` of a message.
fn carried_at(file: &File, m: Flat, j: u32) -> Carried
    ensures { Some result ≡ carried_at (file_of file.now) m.0 (Some j) }
{
    let link = link_rows::message_link_row(file.links, m);
    let shape = shape_at(file, link[4], j);
    let field = field_index::field_in(file, m, j);
    by_label(field[3], shape, field[2])
}

// What a message carries under an own name.
pub fn carried_under(file: &File, m: Flat, name: &[u8]) -> Option<Carried>
    ensures { result ≡ carried_under (file_of file.now) m.0 name.now }
{
    let image = Image::read(file.image, file.pool);
    if image.rows.sections.messages.count <= m.0 {
        return None;
    }
    let row = link_rows::message_row(file.links, m);
    let j = fields::field_by_name(&image, row, name)?;
    Some(carried_at(file, m, j))
}

// Whether the completeness check can pass without the field that is carried.
pub fn passes_without(image: &[u32], c: Option<Carried>) -> bool
    ensures { result ≡ passes_without (says_alone image.now) c }
{
    match c {
        None => false,
        Some(Carried::Required(_)) => rows::trailer_word(image, 5) == 3,
        Some(_) => true,
    }
}
