// Rules 9 to 11: what a message with the map-entry option must be.
ghost use Rattle.std.specs.Prelude.{◌≡◌};
ghost use Rattle.image.specs.Schema.{field_of, schema};
ghost use Rattle.image.specs.MapEntry.{is_bare, is_entry_field, is_pair, entry_lines};
ghost use Rattle.image.specs.Verdict.{first};

use crate::rows::{Flat, Kind, Row};
use crate::schema::Image;
use crate::verdict::{Refusal, Verdict};
use crate::{rows, texts};

// Whether a message has no extensions, extension ranges, nested messages or enums.
#[tactic(auto, unfolding(crate::specs::MapEntry::is_bare, crate::specs::Schema::schema_in))]
fn is_bare(image: &Image, row: Row) -> bool
    ensures { result ≡ is_bare (schema image.now) row.0 }
{
    image.rows.extensions_of(row).count == 0
        && image.rows.extension_ranges(row) == 0
        && image.rows.nested_messages(row).count == 0
        && image.rows.enums_of(row).count == 0
}

// Whether the field of a row has that number and name and is optional, which is label 1.
#[tactic(auto, using(crate::proofs::TextLaws::same_pointwise), unfolding(crate::specs::MapEntry::is_entry_field))]
fn is_entry_field(field: &[u32], pool: &[u8], number: u32, name: &[u8]) -> bool
    ensures { result ≡ is_entry_field (field_of field.now pool.now) number name.now }
{
    rows::word_at(field, 2) == number
        && texts::text_of(field, pool, 0) == name
        && rows::word_at(field, 3) == 1
}

// Whether a message's fields are exactly key = 1 and value = 2, in that order.
#[tactic(auto, unfolding(crate::specs::MapEntry::is_pair, crate::specs::Schema::schema_in))]
fn is_pair(image: &Image, row: Row) -> bool
    ensures { result ≡ is_pair (schema image.now) row.0 }
{
    let g = image.rows.fields_of(row);
    g.count == 2
        && is_entry_field(&image.rows.nth_field(g, 0), image.pool, 1, b"key")
        && is_entry_field(&image.rows.nth_field(g, 1), image.pool, 2, b"value")
}

// Rules 9 to 11 of the message on a row, whose flat number is m.
#[tactic(auto, unfolding(crate::specs::MapEntry::entry_lines, crate::specs::Verdict::first, crate::specs::Schema::schema_in))]
pub fn judge_map_entry(image: &Image, row: Row, m: Flat) -> Verdict
    ensures { result ≡ first (entry_lines (schema image.now) row.0 m.0) }
{
    if image.rows.map_entry(row) == 0 {
        return Ok(());
    }
    if !image.name_of(Kind::Message, row).ends_with(b"Entry") {
        return Err(Refusal::EntryName.at(m.0));
    }
    if !is_bare(image, row) {
        return Err(Refusal::EntryNotBare.at(m.0));
    }
    if !is_pair(image, row) {
        return Err(Refusal::EntryFields.at(m.0));
    }
    Ok(())
}
