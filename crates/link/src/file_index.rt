// The fields of a file, after file/index.rs: message by message the regular fields, 17, and the extensions; the file's extensions last. Link
// rows are written into scratch words, row by row.
ghost use Rattle.std.specs.Prelude.{◌≡◌, ◌+◌, ◌*◌, ◌≤◌, ◌<◌, length, Ok};
ghost use Rattle.lists.specs.Splice.{splice};
ghost use Rattle.lists.specs.Lists.{concat_map, span};
ghost use Rattle.image.specs.Schema.{schema_of};
ghost use Rattle.image.specs.Flat.{rows_of, row_of, field_rows, first_field};
ghost use Rattle.image.specs.Laid.{Sound};
ghost use Rattle.image.specs.Links.{links_of};
ghost use Rattle.image.specs.Verdict.{first, in_order};
ghost use Rattle.link.specs.Scope.{seen};
ghost use Rattle.link.specs.Search.{list_of};
ghost use Rattle.link.specs.Rows.{field_links_in, field_links};
ghost use Rattle.link.specs.Refusals.{fields_lines, clash_at, message_lines, all_field_lines};

use crate::sight::Scope;
use crate::{field_index, put};
use image::rows::{Flat, Range, Row, Rows};
use image::schema::Image;
use image::verdict::{Refusal, Verdict};
use image::{fields, links as link_rows, rows};

// Writes sixteen words at row `k` of the scratch.
fn put_row(rows: &mut [u32], k: u32, row: [u32; 16])
    requires { k * 16 + 16 ≤ length rows.old }
    ensures { rows.new ≡ splice rows.old (k * 16) row }
{
    put::put(rows, k as usize * link_rows::FIELD_LINK, &row);
}

// A range of fields whose flat numbers start at `at`.
fn index_fields(
    scope: &Scope,
    g: Range,
    container: u32,
    file: bool,
    at: u32,
    rows: &mut [u32],
) -> Verdict
    requires rows_bound { g.first + g.count ≤ 2048 }
    requires numbers_bound { at + g.count ≤ 2048 }
    requires numbers_in_bounds { (at + g.count) * 16 ≤ length rows.old }
    ensures value { result ≡ first (fields_lines (seen scope.now) (list_of scope.now.list) file g.first g.count at) }
    ensures rows_after { result ≡ Ok tt → rows.new ≡ splice rows.old (at * 16) (field_links_in (seen scope.now) (list_of scope.now.list) container (rows_of g)) }
{
    let image = Rows::read(scope.own.image);
    for j in 0..g.count {
        let row = image.nth_field(g, j);
        let link = field_index::index_field(scope, &row, g.first + j, container, file, at + j)?;
        put_row(rows, at + j, link);
    }
    Ok(())
}

// 17 for the message on image row `row`, at the later field; `at` is the message's first field.
fn judge_clash(image: &[u32], pool: &[u8], row: Row, at: u32) -> Verdict
    requires at_bound { at ≤ 2048 }
    requires fields_bound { ((schema_of image.now pool.now).fields_in row.0).count ≤ 2048 }
    ensures { result ≡ first (clash_at (schema_of image.now pool.now) row.0 at) }
{
    match fields::first_clash(&Image::read(image, pool), row) {
        Some(j) => Err(Refusal::FieldClash.at(at + j)),
        None => Ok(()),
    }
}

// Flat message `m`: its regular fields, 17, its extensions.
fn index_message(scope: &Scope, m: Flat, rows: &mut [u32]) -> Verdict
    requires sound { Sound (schema_of scope.now.own.image.now scope.now.own.pool.now) }
    requires links_value { scope.now.own.links.now ≡ links_of (schema_of scope.now.own.image.now scope.now.own.pool.now) }
    requires fields_in_bounds { (schema_of scope.now.own.image.now scope.now.own.pool.now).fields * 16 ≤ length rows.old }
    requires m_bound { m.0 < (schema_of scope.now.own.image.now scope.now.own.pool.now).messages }
    ensures value { result ≡ first (message_lines (seen scope.now) (list_of scope.now.list) m.0) }
    ensures rows_after { result ≡ Ok tt → rows.new ≡ splice rows.old (first_field (schema_of scope.now.own.image.now scope.now.own.pool.now) m.0 * 16) (field_links_in (seen scope.now) (list_of scope.now.list) (m.0 + 1) (field_rows (schema_of scope.now.own.image.now scope.now.own.pool.now) (row_of (schema_of scope.now.own.image.now scope.now.own.pool.now) m.0))) }
{
    let image = Rows::read(scope.own.image);
    let link = link_rows::message_link_row(scope.own.links, m);
    let row = Row(link[0]);
    let at = link[4];
    let regular = image.fields_of(row);
    index_fields(scope, regular, m.0 + 1, false, at, rows)?;
    judge_clash(scope.own.image, scope.own.pool, row, at)?;
    let extensions = image.extensions_of(row);
    index_fields(scope, extensions, m.0 + 1, false, at + regular.count, rows)
}

// All messages in flat order.
fn index_messages(scope: &Scope, rows: &mut [u32]) -> Verdict
    requires sound { Sound (schema_of scope.now.own.image.now scope.now.own.pool.now) }
    requires links_value { scope.now.own.links.now ≡ links_of (schema_of scope.now.own.image.now scope.now.own.pool.now) }
    requires fields_in_bounds { (schema_of scope.now.own.image.now scope.now.own.pool.now).fields * 16 ≤ length rows.old }
    ensures value { result ≡ first (in_order (schema_of scope.now.own.image.now scope.now.own.pool.now).messages (message_lines (seen scope.now) (list_of scope.now.list))) }
    ensures rows_after { result ≡ Ok tt → rows.new ≡ splice rows.old 0 (concat_map (λ m. field_links_in (seen scope.now) (list_of scope.now.list) (m + 1) (field_rows (schema_of scope.now.own.image.now scope.now.own.pool.now) (row_of (schema_of scope.now.own.image.now scope.now.own.pool.now) m))) (span 0 (schema_of scope.now.own.image.now scope.now.own.pool.now).messages)) }
{
    for m in 0..Rows::read(scope.own.image).sections.messages.count {
        index_message(scope, Flat(m), rows)?;
    }
    Ok(())
}

// All fields of the file: message by message, the file's extensions last.
pub(crate) fn index_file(scope: &Scope, rows: &mut [u32]) -> Verdict
    requires sound { Sound (schema_of scope.now.own.image.now scope.now.own.pool.now) }
    requires links_value { scope.now.own.links.now ≡ links_of (schema_of scope.now.own.image.now scope.now.own.pool.now) }
    requires fields_in_bounds { (schema_of scope.now.own.image.now scope.now.own.pool.now).fields * 16 ≤ length rows.old }
    ensures value { result ≡ first (all_field_lines (seen scope.now) (list_of scope.now.list)) }
    ensures rows_after { result ≡ Ok tt → rows.new ≡ splice rows.old 0 (field_links (seen scope.now) (list_of scope.now.list)) }
{
    index_messages(scope, rows)?;
    let extensions = rows::file_extensions(scope.own.image);
    let fields = Rows::read(scope.own.image).sections.fields.count;
    index_fields(scope, extensions, 0, true, fields - extensions.count, rows)
}
