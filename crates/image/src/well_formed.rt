// Rule 2: whether two slices and three numbers are a well-formed shelf.
ghost use Rattle.std.specs.Prelude.{◌≡◌, true, ◌≤◌, ◌<◌, length, take};
ghost use Rattle.image.specs.Schema.{schema, schema_of};
ghost use Rattle.image.specs.Links.{links_of, link_words};
ghost use Rattle.image.specs.Record.{says};
ghost use Rattle.image.specs.Shelf.{clash_free, image_obeys, file_named, is_fresh, imports_named, file_fits, well_formed};
ghost use Rattle.image.specs.Places.{shelf_file, shelf_files, shelf_fits, read_shelf};

use crate::rows::{Row, Sections};
use crate::schema::Image;
use crate::shelf::{Places, Shelf, Used};
use crate::{fields, imports, judge, link_tests, links, shelf};

// Whether no regular field of any message clashes with an earlier one.
fn clash_free(image: &Image) -> bool
    ensures { result ≡ clash_free (schema image.now) }
{
    let n = image.rows.sections.messages.count;
    (0..n).all(|r| fields::first_clash(image, Row(r)).is_none())
}

// Whether an image obeys 3 to 5, 8 to 11 and 17. If it does, its link rows stand in front of `own`.
fn image_obeys(image: &[u32], pool: &[u8], own: &mut [u32]) -> bool
    requires { 4096 ≤ length own.old }
    ensures value { result ≡ image_obeys image.now pool.now }
    ensures own_after { result ≡ true → take (link_words (schema_of image.now pool.now)) own.new ≡ links_of (schema_of image.now pool.now) }
{
    let Ok(naming) = judge::judge_image(image, pool, false, own) else {
        return false;
    };
    if naming.is_err() {
        return false;
    }
    clash_free(&Image::read(image, pool))
}

// The name of file `f`.
pub fn file_name<'b>(shelf: &Shelf<'_, 'b>, f: u32) -> &'b [u8]
    ensures { result.now ≡ (says (shelf_file shelf.now f)).file_name }
{
    imports::file_name(&Image::read(shelf.image(f), shelf.pool(f)))
}

// The first of the first `n` files that has a name.
pub fn file_named(shelf: &Shelf, n: u32, name: &[u8]) -> Option<u32>
    ensures { result ≡ file_named (shelf_files shelf.now n) name.now }
{
    (0..n).find(|&f| file_name(shelf, f) == name)
}

// Whether the imports of file `f` name earlier files.
fn imports_named(shelf: &Shelf, f: u32) -> bool
    ensures { result ≡ imports_named (shelf_files shelf.now f) (shelf_file shelf.now f) }
{
    let image = Image::read(shelf.image(f), shelf.pool(f));
    let n = image.rows.sections.imports.count;
    (0..n).all(|i| file_named(shelf, f, imports::import_name(&image, Row(i))).is_some())
}

// Whether no earlier file has the name of file `f`.
fn is_fresh(shelf: &Shelf, f: u32) -> bool
    ensures { result ≡ is_fresh (shelf_files shelf.now f) (shelf_file shelf.now f) }
{
    file_named(shelf, f, file_name(shelf, f)).is_none()
}

// Whether file `f` is in order behind the files before it. `own` is room for the link rows that its image gives.
fn file_fits(shelf: &Shelf, f: u32, own: &mut [u32]) -> bool
    requires f_bound { f < 32 }
    requires in_bounds { 4096 ≤ length own.old }
    ensures { result ≡ file_fits (shelf_files shelf.now f) (shelf_file shelf.now f) }
{
    let image = shelf.image(f);
    if !image_obeys(image, shelf.pool(f), own) {
        return false;
    }
    if !is_fresh(shelf, f) {
        return false;
    }
    if !imports_named(shelf, f) {
        return false;
    }
    let n = links::link_words(Sections::read(image));
    link_tests::links_fit(shelf, f, &own[..n])
}

// Whether the first `n` files are in order. An empty shelf needs no room for link rows, which is fixed memory
// for the most that a file has.
fn files_fit(shelf: &Shelf, n: u32) -> bool
    requires { n ≤ 32 }
    ensures { result ≡ shelf_fits shelf.now n }
{
    if n == 0 {
        return true;
    }
    let mut own = [0u32; 4096];
    for f in 0..n {
        if !file_fits(shelf, f, &mut own) {
            return false;
        }
    }
    true
}

// Where the files of a shelf stand, if it is well formed.
pub fn read_shelf(words: &[u32], bytes: &[u8], used: Used) -> Option<Places>
    ensures { result ≡ read_shelf words.now bytes.now used }
{
    if 32 < used.files {
        return None;
    }
    if words.len() < used.words as usize {
        return None;
    }
    if bytes.len() < used.bytes as usize {
        return None;
    }
    let places = shelf::walk_back(words, bytes, used)?;
    let shelf = Shelf {
        words,
        bytes,
        places,
    };
    if !files_fit(&shelf, used.files) {
        return None;
    }
    Some(places)
}

// Whether two slices and three numbers are a well-formed shelf.
pub fn is_well_formed(words: &[u32], bytes: &[u8], used: Used) -> bool
    ensures { result ≡ well_formed words.now bytes.now used }
{
    read_shelf(words, bytes, used).is_some()
}
