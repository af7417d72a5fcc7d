// The refusals that look at lengths, at the file's name and at its imports.
ghost use Rattle.std.specs.Prelude.{◌≡◌};
ghost use Rattle.image.specs.Schema.{schema};
ghost use Rattle.image.specs.Places.{shelf_files};
ghost use Rattle.image.specs.Verdict.{first};
ghost use Rattle.link.specs.Phases.{call_of};
ghost use Rattle.link.specs.Refusals.{length_lines, name_lines, import_lines};

use image::rows::Row;
use image::schema::Image;
use image::shelf::{Shelf, Used};
use image::verdict::{Refusal, Verdict};
use image::{imports, well_formed};

// 1: a lent slice is longer than its limit.
pub(crate) fn judge_lengths(
    words: &[u32],
    bytes: &[u8],
    used: Used,
    image: &[u32],
    pool: &[u8],
) -> Verdict
    ensures { result ≡ first (length_lines (call_of words.now bytes.now used image.now pool.now)) }
{
    if words.len() <= 262144
        && bytes.len() <= 131072
        && image.len() <= 65536
        && pool.len() <= 32768
    {
        return Ok(());
    }
    Err(Refusal::TooLong.at(0))
}

// 6: the file name is on the shelf.
pub(crate) fn judge_name(shelf: &Shelf, n: u32, image: &Image) -> Verdict
    ensures { result ≡ first (name_lines (shelf_files shelf.now n) (schema image.now)) }
{
    if well_formed::file_named(shelf, n, imports::file_name(image)).is_some() {
        return Err(Refusal::NameTaken.at(0));
    }
    Ok(())
}

// 7: an import is not on the shelf; its place is the first such row.
pub(crate) fn judge_imports(shelf: &Shelf, n: u32, image: &Image) -> Verdict
    ensures { result ≡ first (import_lines (shelf_files shelf.now n) (schema image.now)) }
{
    for i in 0..image.rows.sections.imports.count {
        if well_formed::file_named(shelf, n, imports::import_name(image, Row(i))).is_none() {
            return Err(Refusal::ImportMissing.at(i));
        }
    }
    Ok(())
}
