// The search list, after `fds_extend_with_public` of fds.rs: direct imports in order, each file followed at once by its public imports, last
// one first, deeply; a file once.
ghost use Rattle.std.specs.Prelude.{◌≡◌, ◌++◌, reverse, ◌+◌, ◌≤◌, ◌<◌, length, take};
ghost use Rattle.image.specs.Schema.{schema};
ghost use Rattle.image.specs.Places.{shelf_files};
ghost use Rattle.link.specs.Search.{import_number, imports_of, publics_of, search_list, listed, Searchable};

use image::rows::Row;
use image::schema::Image;
use image::shelf::Shelf;
use image::{imports, well_formed};

// The files to be searched, in order: the first `count` of `files`; the rest are 0. There is no heap, and 32 files are the most.
#[derive(Clone, Copy)]
pub struct SearchList {
    pub files: [u32; 32],
    pub count: u32,
}

// The number of the file that an import row names among `n` files, or `n` where none has that name.
fn import_number(shelf: &Shelf, n: u32, image: &Image, row: Row) -> u32
    ensures { result ≡ import_number (shelf_files shelf.now n) (schema image.now) row.0 }
{
    well_formed::file_named(shelf, n, imports::import_name(image, row)).unwrap_or(n)
}

// Puts the public imports of file `f` on the stack, in the order of its import rows. Answers the stack's new top.
fn push_publics(shelf: &Shelf, n: u32, f: u32, stack: &mut [u32], top: usize) -> usize
    requires f_lt_n { f < n }
    requires f_in_bounds { top + length (publics_of (shelf_files shelf.now n) f) ≤ length stack.old }
    ensures value { result ≡ top + length (publics_of (shelf_files shelf.now n) f) }
    ensures stack_after { take result stack.new ≡ take top stack.old ++ publics_of (shelf_files shelf.now n) f }
{
    let image = Image::read(shelf.image(f), shelf.pool(f));
    let mut end = top;
    for i in 0..image.rows.sections.imports.count {
        if imports::import_public(&image, Row(i)) != 0 {
            stack[end] = import_number(shelf, n, &image, Row(i));
            end += 1;
        }
    }
    end
}

// Puts the files that an image imports on the empty stack, the last one first. Answers how many there are.
fn push_imports(shelf: &Shelf, n: u32, image: &Image, stack: &mut [u32]) -> usize
    requires { (schema image.now).imports ≤ length stack.old }
    ensures value { result ≡ (schema image.now).imports }
    ensures stack_after { take result stack.new ≡ reverse (imports_of (shelf_files shelf.now n) (schema image.now)) }
{
    let count = image.rows.sections.imports.count;
    for i in 0..count {
        stack[i as usize] = import_number(shelf, n, image, Row(count - 1 - i));
    }
    count as usize
}

// The search list of an image over a shelf of `n` files. The stack has room for the most that 33 files import.
pub(crate) fn search_list(shelf: &Shelf, n: u32, image: &Image) -> SearchList
    requires { Searchable (shelf_files shelf.now n) (schema image.now) }
    ensures { result ≡ listed (search_list (publics_of (shelf_files shelf.now n)) n (imports_of (shelf_files shelf.now n) (schema image.now))) }
{
    let mut stack = [0u32; 1056];
    let mut top = push_imports(shelf, n, image, &mut stack);
    let mut seen = [0u32; 32];
    let mut found = [0u32; 32];
    let mut count: u32 = 0;
    // The stack grows while it is worked off, so no range says how often.
    while 0 < top {
        top -= 1;
        let f = stack[top];
        if seen[f as usize] != 0 {
            continue;
        }
        seen[f as usize] = 1;
        top = push_publics(shelf, n, f, &mut stack, top);
        found[count as usize] = f;
        count += 1;
    }
    SearchList {
        files: found,
        count,
    }
}
