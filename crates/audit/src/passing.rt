// The messages that carry a field and can pass the completeness check without it.
use crate::tell;
use image::rows::Flat;
use image::shelf::Shelf;
use image::well_formed;
use link::audit;
use shelf_io::say;
use shelf_io::sentences::tell_file;

fn list_file(rt: &impl Print, shelf: &Shelf, f: u32, field: &[u8]) {
    let file = shelf.file(f);
    for m in 0..audit::message_count(file.image) {
        let c = audit::carried_under(&file, Flat(m), field);
        if audit::passes_without(file.image, c) {
            say::text(rt, b"  ");
            say::spaces(rt, tell::tell_name(rt, &file, Flat(m)), 32);
            tell::tell_carried(rt, field, c);
            say::text(rt, b"; in ");
            tell_file(rt, f, well_formed::file_name(shelf, f));
            say::text(rt, b"\n");
        }
    }
}

// Lists those of the first `n` files.
pub fn list_files(rt: &impl Print, shelf: &Shelf, n: u32, field: &[u8]) {
    say::text(rt, b"can pass the check without ");
    say::text(rt, field);
    say::text(rt, b":\n");
    for f in 0..n {
        list_file(rt, shelf, f, field);
    }
}
