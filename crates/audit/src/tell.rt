// What the lines of the listing are made of.
use image::full_name;
use image::rows::Flat;
use image::schema::Image;
use image::shelf::File;
use link::audit::{Carried, Mark};
use shelf_io::say;
use tokens::front;

// The full name of a message; the answer is its length. On a well-formed shelf none is longer than 512 bytes.
pub fn tell_name(rt: &impl Print, file: &File, m: Flat) -> usize {
    let mut name = [0u8; 512];
    let image = Image::read(file.image, file.pool);
    match full_name::write_full_name(&image, file.links, m.0, &mut name) {
        Some(n) => say::text(rt, front(&name, n)),
        None => 0,
    }
}

fn tell_distance(rt: &impl Print, d: u32) -> usize {
    let n = say::text(rt, b"may be incomplete, distance ");
    n + say::number(rt, d as u64)
}

// A mark; the answer is the length of its text.
pub fn tell_mark(rt: &impl Print, mark: Mark) -> usize {
    match mark {
        Mark::AlwaysInitialised => say::text(rt, b"always initialised (skips the check)"),
        Mark::MayBeIncomplete(d) => tell_distance(rt, d),
    }
}

fn tell_field(rt: &impl Print, number: u32, label: &[u8]) {
    say::signed(rt, number);
    say::text(rt, b", ");
    say::text(rt, label);
}

// What is carried under a name.
pub fn tell_carried(rt: &impl Print, field: &[u8], c: Option<Carried>) {
    say::text(rt, field);
    say::text(rt, b": ");
    match c {
        None => {
            say::text(rt, b"nothing");
        }
        Some(Carried::Required(number)) => tell_field(rt, number, b"required"),
        Some(Carried::Optional(number)) => tell_field(rt, number, b"optional"),
        Some(Carried::Repeated(number)) => tell_field(rt, number, b"repeated"),
        Some(Carried::Map(number)) => tell_field(rt, number, b"map"),
    }
}
