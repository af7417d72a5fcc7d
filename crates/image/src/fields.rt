// Rule 17, and the lookups of a message's regular fields: by number, by own name, by own or JSON name.
ghost use Rattle.std.specs.Prelude.{◌≡◌, ◌<◌, length};
ghost use Rattle.names.specs.Json.{derived_json_name};
ghost use Rattle.image.specs.Schema.{field_of, schema};
ghost use Rattle.image.specs.Clash.{json_name_of, is_called, clash, clashes_earlier, first_clash, field_by_number, field_by_name, field_by_name_or_json};
ghost use Rattle.image.specs.Seen.{keys_of, any_seen, see_all};

use crate::rows::Row;
use crate::schema::Image;
use crate::{rows, seen, texts};
use names::{json_name, key};

// What the three marks of a field are made from: its number, and the keys of its own name and its JSON name.
#[derive(Clone, Copy)]
struct Keys {
    number: u32,
    name: u32,
    json: u32,
}

// Whether a text is the own name or the JSON name of the field whose row is lent.
#[tactic(auto, using(crate::proofs::TextLaws::length_empty, crate::proofs::TextLaws::same_pointwise), unfolding(crate::specs::Clash::is_called, crate::specs::Clash::json_name_of))]
fn is_called(row: &[u32], pool: &[u8], text: &[u8]) -> bool
    ensures { result ≡ is_called (field_of row.now pool.now) text.now }
{
    let name = texts::text_of(row, pool, 0);
    if name == text {
        return true;
    }
    let json = texts::text_of(row, pool, 9);
    if json.is_empty() {
        return json_name::is_json_name(name, text);
    }
    json == text
}

// The same of the JSON name that is derived from `name`, which is never built.
#[tactic(auto, using(crate::proofs::TextLaws::length_empty, crate::proofs::TextLaws::same_comm), unfolding(crate::specs::Clash::is_called, crate::specs::Clash::json_name_of))]
fn is_called_derived(row: &[u32], pool: &[u8], name: &[u8]) -> bool
    ensures { result ≡ is_called (field_of row.now pool.now) (derived_json_name name.now) }
{
    let own = texts::text_of(row, pool, 0);
    if json_name::is_json_name(name, own) {
        return true;
    }
    let json = texts::text_of(row, pool, 9);
    if json.is_empty() {
        return json_name::same_json_names(own, name);
    }
    json_name::is_json_name(name, json)
}

// The same of the JSON name of the field whose row is `other`.
#[tactic(auto, using(crate::proofs::TextLaws::length_empty), unfolding(crate::specs::Clash::json_name_of))]
fn is_called_json(row: &[u32], pool: &[u8], other: &[u32]) -> bool
    ensures { result ≡ is_called (field_of row.now pool.now) (json_name_of (field_of other.now pool.now)) }
{
    let json = texts::text_of(other, pool, 9);
    if json.is_empty() {
        return is_called_derived(row, pool, texts::text_of(other, pool, 0));
    }
    is_called(row, pool, json)
}

// Whether the fields of two rows clash. Numbers come first, since they cost the least.
#[tactic(auto, unfolding(crate::specs::Clash::clash))]
fn clash(row: &[u32], earlier: &[u32], pool: &[u8]) -> bool
    ensures { result ≡ clash (field_of row.now pool.now) (field_of earlier.now pool.now) }
{
    rows::word_at(row, 2) == rows::word_at(earlier, 2)
        || is_called(earlier, pool, texts::text_of(row, pool, 0))
        || is_called_json(earlier, pool, row)
}

// Whether regular field `j` of a message clashes with an earlier one.
fn clashes_earlier(image: &Image, row: Row, j: u32) -> bool
    ensures { result ≡ clashes_earlier (schema image.now) row.0 j }
{
    let g = image.rows.fields_of(row);
    let f = image.rows.nth_field(g, j);
    (0..j).any(|i| clash(&f, &image.rows.nth_field(g, i), image.pool))
}

// The keys of the field whose row is lent.
#[tactic(auto, using(crate::proofs::TextLaws::length_empty), unfolding(crate::specs::Seen::keys_of, crate::specs::Clash::json_name_of))]
fn keys_of(row: &[u32], pool: &[u8]) -> Keys
    ensures { result ≡ keys_of (field_of row.now pool.now) }
{
    let own = texts::text_of(row, pool, 0);
    let given = texts::text_of(row, pool, 9);
    let json = if given.is_empty() {
        key::json_key(own)
    } else {
        key::text_key(given)
    };
    Keys {
        number: rows::word_at(row, 2),
        name: key::text_key(own),
        json,
    }
}

// Whether one of a field's keys is seen.
#[tactic(auto, unfolding(crate::specs::Seen::any_seen))]
fn any_seen(seen: &[u8], k: Keys) -> bool
    requires { 0 < length seen.now }
    ensures { result ≡ any_seen seen.now k }
{
    seen::is_seen(seen, k.number) || seen::is_seen(seen, k.name) || seen::is_seen(seen, k.json)
}

// Leaves a field's marks.
#[tactic(auto, unfolding(crate::specs::Seen::see_all))]
fn see_all(seen: &mut [u8], k: Keys)
    requires { 0 < length seen.old }
    ensures { seen.new ≡ see_all seen.old k }
{
    seen::see(seen, k.number);
    seen::see(seen, k.name);
    seen::see(seen, k.json);
}

// The first regular field that clashes with an earlier one. `seen` is lent to write in: a field none of whose keys is seen clashes
// with no earlier one, so that only the others are compared. A mark that stands there from the beginning costs time and nothing else.
fn first_clash_seen(image: &Image, row: Row, seen: &mut [u8]) -> Option<u32>
    requires { 0 < length seen.old }
    ensures { result ≡ first_clash (schema image.now) row.0 }
{
    let g = image.rows.fields_of(row);
    for j in 0..g.count {
        let k = keys_of(&image.rows.nth_field(g, j), image.pool);
        if any_seen(seen, k) {
            if clashes_earlier(image, row, j) {
                return Some(j);
            }
        }
        see_all(seen, k);
    }
    None
}

// Rule 17 of one message: the first regular field that clashes with an earlier one. The table stands in fixed memory, and
// few fields need no large one.
pub fn first_clash(image: &Image, row: Row) -> Option<u32>
    ensures { result ≡ first_clash (schema image.now) row.0 }
{
    let g = image.rows.fields_of(row);
    if g.count <= 32 {
        let mut few = [0u8; 256];
        return first_clash_seen(image, row, &mut few);
    }
    let mut many = [0u8; 65536];
    first_clash_seen(image, row, &mut many)
}

pub fn field_by_number(image: &Image, row: Row, number: u32) -> Option<u32>
    ensures { result ≡ field_by_number (schema image.now) row.0 number }
{
    let g = image.rows.fields_of(row);
    (0..g.count).find(|&j| image.rows.nth_field(g, j)[2] == number)
}

pub fn field_by_name(image: &Image, row: Row, text: &[u8]) -> Option<u32>
    ensures { result ≡ field_by_name (schema image.now) row.0 text.now }
{
    let g = image.rows.fields_of(row);
    (0..g.count).find(|&j| texts::text_of(&image.rows.nth_field(g, j), image.pool, 0) == text)
}

pub fn field_by_name_or_json(image: &Image, row: Row, text: &[u8]) -> Option<u32>
    ensures { result ≡ field_by_name_or_json (schema image.now) row.0 text.now }
{
    let g = image.rows.fields_of(row);
    (0..g.count).find(|&j| is_called(&image.rows.nth_field(g, j), image.pool, text))
}
