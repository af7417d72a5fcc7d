// One field, after field/index.rs: its default, its extendee, its type, and its link row. A field's row is lent as sixteen words together with
// the pool that its texts stand in, since the key and the value of a map may stand in another file. Types and labels are tested as the words that
// rows have.
ghost use Rattle.std.specs.Prelude.{◌≡◌, [], ◌∷◌, true, cond, ◌&&◌, Ok};
ghost use Rattle.image.specs.Schema.{schema, field_of};
ghost use Rattle.image.specs.Verdict.{judged, first};
ghost use Rattle.image.specs.LinkTests.{file_by};
ghost use Rattle.image.specs.Places.{file_of};
ghost use Rattle.link.specs.Scope.{seen};
ghost use Rattle.link.specs.Sight.{in_sight, InReach};
ghost use Rattle.link.specs.Search.{list_of};
ghost use Rattle.link.specs.Resolve.{is_message_type};
ghost use Rattle.link.specs.Field.{default_read, first_value, value_in, value_default, enum_default, default_lines, default_part, extendee_lines, extendee_part, element_lines, element_target, entry_in, field_in, map_lines, map_part, missing_refusal, type_lines, type_part, has_extendee, field_lines, field_words};

use crate::building;
use crate::building::{Target, Wanted};
use crate::sight::Scope;
use image::rows::{Flat, Kind, Row};
use image::schema::Image;
use image::shelf::File;
use image::verdict::{Refusal, Refused};
use image::{links as link_rows, rows, texts as image_texts};
use names::runtime_type_box;
use names::runtime_type_box::{DefaultRefused, ReadDefault};

// What the default text of a field row says for its type.
fn read_default(row: &[u32], texts: &[u8]) -> Result<ReadDefault, DefaultRefused>
    ensures { result ≡ default_read (field_of row.now texts.now) }
{
    let t = runtime_type_box::type_of(rows::word_at(row, 4)).ok_or(DefaultRefused::Unreadable)?;
    let text = image_texts::text_of(row, texts, 12);
    let start = rows::word_at(row, 12);
    runtime_type_box::parse_proto_default_value(runtime_type_box::from_proto_type(t), text, start)
}

// The place in an enum of its first value of that name.
fn first_value(image: &Image, row: Row, text: &[u8]) -> Option<u32>
    ensures { result ≡ first_value (schema image.now) row.0 text.now }
{
    let g = image.rows.values_of(row);
    (0..g.count).find(|&k| image.text_at(image.rows.sections.nth_at(Kind::Value, g, k)) == text)
}

// The same for the enum with flat number `e` of a file.
fn value_in(file: &File, e: Flat, text: &[u8]) -> Option<u32>
    ensures { result ≡ value_in (file_of file.now) e.0 text.now }
{
    let image = Image::read(file.image, file.pool);
    first_value(&image, link_rows::enum_row(&image, file.links, e), text)
}

// The default of a field whose enum is found: the first value of that name, or 12.
fn named_default(
    scope: &Scope,
    word: u32,
    e: Flat,
    text: &[u8],
    at: u32,
) -> Result<[u32; 3], Refused>
    requires { InReach scope.now.n word }
    ensures { result ≡ value_default (value_in (file_by (in_sight (seen scope.now)) word) e.0 text.now) at }
{
    match value_in(&scope.file_by(word), e, text) {
        Some(k) => Ok([4, k, 0]),
        None => Err(Refusal::DefaultWrong.at(at)),
    }
}

// The default of a field of type 14: its enum is sought first, and not finding it is 16.
fn enum_default(scope: &Scope, row: &[u32], texts: &[u8], at: u32) -> Result<[u32; 3], Refused>
    ensures { result ≡ enum_default (seen scope.now) (list_of scope.now.list) (field_of row.now texts.now) at }
{
    let name = image_texts::text_of(row, texts, 5);
    match building::resolve(scope, Wanted::Enum, name) {
        Some(target) => {
            let text = image_texts::text_of(row, texts, 12);
            named_default(scope, target.file, Flat(target.index), text, at)
        }
        None => Err(Refusal::EnumMissing.at(at)),
    }
}

// The default of a field, if one is given: its kind and its two words.
fn index_default(scope: &Scope, row: &[u32], texts: &[u8], at: u32) -> Result<[u32; 3], Refused>
    ensures { result ≡ judged (first (default_lines (seen scope.now) (list_of scope.now.list) (field_of row.now texts.now) at)) (default_part (seen scope.now) (list_of scope.now.list) (field_of row.now texts.now)) }
{
    if rows::word_at(row, 11) == 0 {
        return Ok([0, 0, 0]);
    }
    match read_default(row, texts) {
        Ok(ReadDefault::Integer(w)) => Ok([1, w.low, w.high]),
        Ok(ReadDefault::Text(w)) => Ok([3, w.low, w.high]),
        Ok(ReadDefault::ValueName) => enum_default(scope, row, texts, at),
        Err(DefaultRefused::Unreadable) => Err(Refusal::DefaultWrong.at(at)),
        Err(DefaultRefused::Unsupported) => Err(Refusal::DefaultBarred.at(at)),
    }
}

// The extendee of a field, a file word and an index: 14 where a file extension has none, 15 where it is not found.
fn index_extendee(
    scope: &Scope,
    row: &[u32],
    texts: &[u8],
    file: bool,
    at: u32,
) -> Result<[u32; 2], Refused>
    ensures { result ≡ judged (first (extendee_lines (seen scope.now) (list_of scope.now.list) (field_of row.now texts.now) file at)) (extendee_part (seen scope.now) (list_of scope.now.list) (field_of row.now texts.now)) }
{
    let name = image_texts::text_of(row, texts, 7);
    if name.is_empty() {
        if file {
            return Err(Refusal::ExtendeeAbsent.at(at));
        }
        return Ok([0, 0]);
    }
    match building::resolve(scope, Wanted::Message, name) {
        Some(target) => Ok([target.file, target.index]),
        None => Err(Refusal::MessageMissing.at(at)),
    }
}

// The refusal of a type whose name leads nowhere.
fn missing(t: u32) -> Refusal
    ensures { result ≡ missing_refusal t }
{
    if t == 14 {
        return Refusal::EnumMissing;
    }
    Refusal::MessageMissing
}

// The target of the type of a field, or of a map's key or value.
fn index_element(scope: &Scope, row: &[u32], texts: &[u8], at: u32) -> Result<Target, Refused>
    ensures { result ≡ judged (first (element_lines (seen scope.now) (list_of scope.now.list) (field_of row.now texts.now) at)) (element_target (seen scope.now) (list_of scope.now.list) (field_of row.now texts.now)) }
{
    let t = rows::word_at(row, 4);
    let name = image_texts::text_of(row, texts, 5);
    building::resolve_type(scope, t, name).ok_or_else(|| missing(t).at(at))
}

// Whether the message with flat number `m` of a file is a map entry.
fn entry_in(file: &File, m: Flat) -> bool
    ensures { result ≡ entry_in (file_of file.now) m.0 }
{
    let image = Image::read(file.image, file.pool);
    image.rows.map_entry(link_rows::message_row(file.links, m)) != 0
}

// Field `j` of the message with flat number `m` of a file, as sixteen words.
pub(crate) fn field_in(file: &File, m: Flat, j: u32) -> [u32; 16]
    ensures { field_of result file.now.pool.now ≡ field_in (file_of file.now) m.0 j }
{
    let image = Image::read(file.image, file.pool);
    let g = image.rows.fields_of(link_rows::message_row(file.links, m));
    image.rows.nth_field(g, j)
}

// A map whose key and value are the lent rows, with texts in the pool `texts`: their types, resolved from the file that is linked.
fn index_pair(
    scope: &Scope,
    key: &[u32],
    value: &[u32],
    texts: &[u8],
    at: u32,
) -> Result<[u32; 7], Refused>
    ensures { result ≡ judged (first (map_lines (seen scope.now) (list_of scope.now.list) (field_of key.now texts.now) (field_of value.now texts.now) at)) (map_part (seen scope.now) (list_of scope.now.list) (field_of key.now texts.now) (field_of value.now texts.now)) }
{
    let k = index_element(scope, key, texts, at)?;
    let v = index_element(scope, value, texts, at)?;
    Ok([
        2,
        rows::word_at(key, 4),
        k.file,
        k.index,
        rows::word_at(value, 4),
        v.file,
        v.index,
    ])
}

// A map whose entry is the message that a file word and a flat number name.
fn index_map(scope: &Scope, word: u32, m: Flat, at: u32) -> Result<[u32; 7], Refused>
    requires { InReach scope.now.n word }
    ensures { result ≡ judged (first (map_lines (seen scope.now) (list_of scope.now.list) (field_in (file_by (in_sight (seen scope.now)) word) m.0 0) (field_in (file_by (in_sight (seen scope.now)) word) m.0 1) at)) (map_part (seen scope.now) (list_of scope.now.list) (field_in (file_by (in_sight (seen scope.now)) word) m.0 0) (field_in (file_by (in_sight (seen scope.now)) word) m.0 1)) }
{
    let file = scope.file_by(word);
    let key = field_in(&file, m, 0);
    let value = field_in(&file, m, 1);
    index_pair(scope, &key, &value, file.pool, at)
}

// The type of a repeated field whose own target is found: a map, if that is a map entry.
fn index_repeated(scope: &Scope, t: u32, own: Target, at: u32) -> Result<[u32; 7], Refused>
    requires { is_message_type t ≡ true → InReach scope.now.n own.file }
    ensures { result ≡ judged (first (cond (is_message_type t && entry_in (file_by (in_sight (seen scope.now)) own.file) own.index) (map_lines (seen scope.now) (list_of scope.now.list) (field_in (file_by (in_sight (seen scope.now)) own.file) own.index 0) (field_in (file_by (in_sight (seen scope.now)) own.file) own.index 1) at) [])) (cond (is_message_type t && entry_in (file_by (in_sight (seen scope.now)) own.file) own.index) (map_part (seen scope.now) (list_of scope.now.list) (field_in (file_by (in_sight (seen scope.now)) own.file) own.index 0) (field_in (file_by (in_sight (seen scope.now)) own.file) own.index 1)) (1 ∷ t ∷ own.file ∷ own.index ∷ 0 ∷ 0 ∷ 0 ∷ [])) }
{
    if !building::is_message_type(t) {
        return Ok([1, t, own.file, own.index, 0, 0, 0]);
    }
    if !entry_in(&scope.file_by(own.file), Flat(own.index)) {
        return Ok([1, t, own.file, own.index, 0, 0, 0]);
    }
    index_map(scope, own.file, Flat(own.index), at)
}

// The type of a field: shape; type, file and index; the same three for a map's value.
fn index_type(scope: &Scope, row: &[u32], texts: &[u8], at: u32) -> Result<[u32; 7], Refused>
    ensures { result ≡ judged (first (type_lines (seen scope.now) (list_of scope.now.list) (field_of row.now texts.now) at)) (type_part (seen scope.now) (list_of scope.now.list) (field_of row.now texts.now)) }
{
    let own = index_element(scope, row, texts, at)?;
    let t = rows::word_at(row, 4);
    if rows::word_at(row, 3) != 3 {
        return Ok([0, t, own.file, own.index, 0, 0, 0]);
    }
    index_repeated(scope, t, own, at)
}

// The kind of a field: 1 with an extendee, 0 without.
fn kind_of(row: &[u32], texts: &[u8]) -> u32
    ensures { result ≡ cond (has_extendee (field_of row.now texts.now)) 1 0 }
{
    u32::from(!image_texts::text_of(row, texts, 7).is_empty())
}

// The link row of a field on image row `home`, in the message that the word `container` stands for: default, extendee, type, in that order.
pub(crate) fn index_field(
    scope: &Scope,
    row: &[u32],
    home: u32,
    container: u32,
    file: bool,
    at: u32,
) -> Result<[u32; 16], Refused>
    ensures { result ≡ judged (first (field_lines (seen scope.now) (list_of scope.now.list) (field_of row.now scope.now.own.pool.now) file at)) (field_words (seen scope.now) (list_of scope.now.list) (field_of row.now scope.now.own.pool.now) home container) }
{
    let pool = scope.own.pool;
    let d = index_default(scope, row, pool, at)?;
    let e = index_extendee(scope, row, pool, file, at)?;
    let t = index_type(scope, row, pool, at)?;
    Ok([
        home,
        kind_of(row, pool),
        container,
        e[0],
        e[1],
        t[0],
        t[1],
        t[2],
        t[3],
        t[4],
        t[5],
        t[6],
        d[0],
        d[1],
        d[2],
        0,
    ])
}
