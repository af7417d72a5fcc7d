// The record of a file that was accepted: its link rows, each with its name.
use crate::say;
use image::rows::{Flat, Kind, Row};
use image::schema::Image;
use image::shelf::Used;
use image::{full_name, links};

// The full name of a message or an enum: the messages, then the enums.
fn say_full_name(rt: &impl Print, image: &Image, links: &[u32], item: u32) {
    let mut name = [0u8; 512];
    match full_name::write_full_name(image, links, item, &mut name) {
        Some(n) => say::quoted(rt, tokens::front(&name, n)),
        None => {
            say::text(rt, b"a name of more than 512 bytes");
        }
    }
}

fn say_message(rt: &impl Print, image: &Image, links: &[u32], m: u32) {
    let row = links::message_link_row(links, Flat(m));
    say_full_name(rt, image, links, m);
    say::text(rt, b":");
    say::words(rt, &row);
    if row[8] == 1 {
        say::text(rt, b", always initialised");
    } else {
        say::text(rt, b", may be incomplete, distance ");
        say::number(rt, row[9]);
    }
}

// Where an enum stands among a file's messages and enums, or the greatest word where that is no word.
fn enum_item(image: &Image, e: u32) -> u32 {
    image.rows.sections.messages.count.saturating_add(e)
}

fn say_enum(rt: &impl Print, image: &Image, links: &[u32], e: u32) {
    let row = links::enum_link_row(image, links, Flat(e));
    say_full_name(rt, image, links, enum_item(image, e));
    say::text(rt, b":");
    say::words(rt, &row);
}

// A oneof's row has its message and its place there.
fn say_oneof(rt: &impl Print, image: &Image, links: &[u32], o: u32) {
    let row = links::oneof_link_row(image, links, Flat(o));
    let own = image
        .rows
        .oneofs_of(links::message_row(links, Flat(row[0])));
    let at = image.rows.sections.nth_at(Kind::Oneof, own, row[1]);
    say::quoted(rt, image.text_at(at));
    say::text(rt, b":");
    say::words(rt, &row);
}

fn say_if(rt: &impl Print, yes: bool, note: &[u8]) {
    if yes {
        say::text(rt, note);
    }
}

fn say_field(rt: &impl Print, image: &Image, links: &[u32], f: u32) {
    let row = links::field_link_row(image, links, Flat(f));
    say::quoted(rt, image.name_of(Kind::Field, Row(row[0])));
    say::text(rt, b":");
    say::words(rt, &row);
    say_if(rt, row[1] == 1, b", extension");
    say_if(rt, row[5] == 1, b", repeated");
    say_if(rt, row[5] == 2, b", map");
    say_if(rt, row[12] == 1, b", integer default");
    say_if(rt, row[12] == 3, b", text default");
    say_if(rt, row[12] == 4, b", enum default");
}

// The link row with that flat number.
fn say_row(rt: &impl Print, image: &Image, links: &[u32], kind: Kind, flat: u32) {
    match kind {
        Kind::Message => say_message(rt, image, links, flat),
        Kind::Enum => say_enum(rt, image, links, flat),
        Kind::Oneof => say_oneof(rt, image, links, flat),
        _ => say_field(rt, image, links, flat),
    }
}

// All link rows of a kind.
fn say_rows(rt: &impl Print, label: &[u8], image: &Image, links: &[u32], kind: Kind) {
    for i in 0..image.rows.sections.count_of(kind) {
        say::text(rt, label);
        say::number(rt, i);
        say::text(rt, b" ");
        say_row(rt, image, links, kind, i);
        say::text(rt, b"\n");
    }
}

// Says the record that reaches from the words used before to those used after. Behind the image stand the link rows, and 8 words.
pub fn say_record(
    rt: &impl Print,
    words: &[u32],
    image: &Image,
    used: Used,
    after: Used,
    whole: bool,
) {
    let record = tokens::between(words, used.words as usize, after.words as usize);
    let links = tokens::between(record, image.rows.words.len(), record.len());
    say_rows(rt, b"    message ", image, links, Kind::Message);
    say_rows(rt, b"    enum ", image, links, Kind::Enum);
    say_rows(rt, b"    oneof ", image, links, Kind::Oneof);
    say_rows(rt, b"    field ", image, links, Kind::Field);
    if whole {
        say::text(rt, b"    the whole record:");
        say::words(rt, record);
        say::text(rt, b"\n");
    }
}
