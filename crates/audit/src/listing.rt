// The listing: each file, and each of its messages.
use crate::tally::Tally;
use crate::tell;
use image::rows::Flat;
use image::shelf::{File, Shelf};
use image::well_formed;
use link::audit;
use shelf_io::say;
use shelf_io::sentences::tell_file;

// What a message has under the name of the field that is asked for.
fn list_carried(rt: &impl Print, file: &File, m: Flat, field: &[u8], t: Tally) -> Tally {
    let c = audit::carried_under(file, m, field);
    tell::tell_carried(rt, field, c);
    t.carried(c, audit::passes_without(file.image, c))
}

fn list_message(rt: &impl Print, file: &File, m: Flat, field: Option<&[u8]>, t: Tally) -> Tally {
    let mark = audit::mark_of(file.links, m);
    say::text(rt, b"  ");
    say::spaces(rt, tell::tell_name(rt, file, m), 32);
    let n = tell::tell_mark(rt, mark);
    let counted = t.message(mark);
    let known = match field {
        None => counted,
        Some(field) => {
            say::spaces(rt, n, 40);
            list_carried(rt, file, m, field, counted)
        }
    };
    say::text(rt, b"\n");
    known
}

fn list_file(rt: &impl Print, shelf: &Shelf, f: u32, field: Option<&[u8]>, t: Tally) -> Tally {
    let file = shelf.file(f);
    tell_file(rt, f, well_formed::file_name(shelf, f));
    say::text(rt, b"\n");
    let mut counted = t;
    for m in 0..audit::message_count(file.image) {
        counted = list_message(rt, &file, Flat(m), field, counted);
    }
    counted
}

// Lists the first `n` files.
pub fn list_files(rt: &impl Print, shelf: &Shelf, n: u32, field: Option<&[u8]>) -> Tally {
    let mut t = Tally::default();
    for f in 0..n {
        t = list_file(rt, shelf, f, field, t);
    }
    t
}
