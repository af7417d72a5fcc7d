// Lookups of an enum's values, by number or name. Where several have it, the last index wins, so the search goes from the end. The two lookups differ in their
// test alone; one function for both would have to be told what a test promises.
ghost use Rattle.std.specs.Prelude.{◌≡◌};
ghost use Rattle.image.specs.Schema.{schema};
ghost use Rattle.image.specs.Values.{value_by_number, value_by_name};

use crate::rows;
use crate::rows::{Kind, Row};
use crate::schema::Image;

pub fn value_by_number(image: &Image, row: Row, number: u32) -> Option<u32>
    ensures { result ≡ value_by_number (schema image.now) row.0 number }
{
    let g = image.rows.values_of(row);
    for k in (0..g.count).rev() {
        let at = image.rows.sections.nth_at(Kind::Value, g, k);
        if rows::word_at(image.rows.words, at + 2) == number {
            return Some(k);
        }
    }
    None
}

pub fn value_by_name(image: &Image, row: Row, text: &[u8]) -> Option<u32>
    ensures { result ≡ value_by_name (schema image.now) row.0 text.now }
{
    let g = image.rows.values_of(row);
    for k in (0..g.count).rev() {
        if image.text_at(image.rows.sections.nth_at(Kind::Value, g, k)) == text {
            return Some(k);
        }
    }
    None
}
