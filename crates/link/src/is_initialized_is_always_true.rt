// Which messages may be incomplete, and how far the nearest cause is, after is_initialized_is_always_true.rs. References between the messages
// of the file are pairs of words, causes are words that are not 0, all in fixed memory for the most that a file has. Types and shapes are tested as
// the words that rows have.
ghost use Rattle.std.specs.Prelude.{◌≡◌, ◌&&◌, ℕ, ◌+◌, ◌*◌, ◌<◌, ◌≤◌, eqb, length, get_or, Some, None};
ghost use Rattle.lists.specs.Below.{bit, any_below};
ghost use Rattle.image.specs.Schema.{schema, schema_of};
ghost use Rattle.image.specs.Members.{regular};
ghost use Rattle.image.specs.Laid.{Sound};
ghost use Rattle.image.specs.Links.{links_of};
ghost use Rattle.image.specs.Walk.{Indexed};
ghost use Rattle.image.specs.Record.{field_link_of};
ghost use Rattle.image.specs.Places.{shelf_files};
ghost use Rattle.link.specs.Sight.{seen_with};
ghost use Rattle.link.specs.Resolve.{is_message_type};
ghost use Rattle.link.specs.Chain.{distance};
ghost use Rattle.link.specs.Marks.{is_marked, refers_to, own_cause, graph_of};
ghost use Rattle.link.specs.Edges.{seeded, stepped, InFile, distance_table, rows_refer, has_cause, is_in, refers_below, Pushed};

use crate::building::is_message_type;
use image::rows::{Flat, Row, Sections};
use image::schema::Image;
use image::shelf::{File, Shelf};
use image::{links, rows};

// Distance 0 for each of the n messages with a cause of its own, and no other word.
fn seed(cause: &[u32; 256], n: usize) -> [u32; 256]
    requires { n ≤ 256 }
    ensures { (i : ℕ) → i < 256 → get_or result i 0 ≡ seeded cause.now n i }
{
    let mut d = [u32::MAX; 256];
    for i in 0..n {
        if cause[i] != 0 {
            d[i] = 0;
        }
    }
    d
}

// Gives the distance k + 1 to each message that has none and refers to one of distance k; nothing where there is none such.
fn turn(edges: &[u32], m: usize, k: u32, old: [u32; 256]) -> Option<[u32; 256]>
    requires { (2 * m ≤ length edges.now) × (k < 256) × InFile edges.now m 256 }
    ensures words { (d : _) → result ≡ Some d → (i : ℕ) → i < 256 → get_or d i 0 ≡ stepped edges.now old k m i }
    ensures same { result ≡ None → (i : ℕ) → i < 256 → stepped edges.now old k m i ≡ get_or old i 0 }
{
    let mut d = old;
    let mut changed = false;
    for e in 0..m {
        let i = edges[2 * e] as usize;
        let j = edges[2 * e + 1] as usize;
        if old[j] == k {
            if old[i] == u32::MAX {
                d[i] = k + 1;
                changed = true;
            }
        }
    }
    if changed { Some(d) } else { None }
}

// The distance of each of n messages.
pub(crate) fn distances(edges: &[u32], m: usize, cause: &[u32; 256], n: usize) -> [u32; 256]
    requires { (n ≤ 256) × (2 * m ≤ length edges.now) × InFile edges.now m n }
    ensures { result ≡ distance_table edges.now m cause.now n }
{
    let mut d = seed(cause, n);
    for k in 1..n {
        let Some(next) = turn(edges, m, k as u32 - 1, d) else {
            break;
        };
        d = next;
    }
    d
}

// Whether a message of one of n shelved files is marked.
fn is_marked(shelf: &Shelf, n: u32, word: u32, index: u32) -> bool
    ensures { result ≡ is_marked (shelf_files shelf.now n) word index }
{
    if word == 0 {
        return false;
    }
    if n < word {
        return false;
    }
    let links = shelf.links(word - 1);
    rows::word_at(links, index as usize * links::MESSAGE_LINK + 8) == 0
}

// Whether a type is such a message.
fn is_marked_type(shelf: &Shelf, n: u32, t: u32, word: u32, index: u32) -> bool
    ensures { result ≡ is_message_type t && is_marked (shelf_files shelf.now n) word index }
{
    is_message_type(t) && is_marked(shelf, n, word, index)
}

// Whether a field's link row refers to such a message.
fn refers_marked(shelf: &Shelf, n: u32, row: &[u32]) -> bool
    ensures { result ≡ refers_to (field_link_of row.now) (is_marked (shelf_files shelf.now n)) }
{
    let t = rows::word_at(row, 6);
    let word = rows::word_at(row, 7);
    if is_marked_type(shelf, n, t, word, rows::word_at(row, 8)) {
        return true;
    }
    if rows::word_at(row, 5) != 2 {
        return false;
    }
    let value = rows::word_at(row, 9);
    let file = rows::word_at(row, 10);
    is_marked_type(shelf, n, value, file, rows::word_at(row, 11))
}

// Whether one of `count` link rows of fields, from number `first` on, does.
fn rows_refer_marked(shelf: &Shelf, n: u32, fields: &[u32], first: u32, count: u32) -> bool
    ensures { result ≡ rows_refer fields.now first count (is_marked (shelf_files shelf.now n)) }
{
    (0..count).any(|k| {
        let at = (first as usize + k as usize) * links::FIELD_LINK;
        refers_marked(shelf, n, &rows::field_row_at(fields, at))
    })
}

// Whether a message has a required field.
fn has_required(image: &Image, row: Row) -> bool
    ensures { result ≡ any_below ((schema image.now).fields_in row.0).count (λ k. eqb (regular (schema image.now) row.0 k).label 2) }
{
    let g = image.rows.fields_of(row);
    (0..g.count).any(|k| image.rows.nth_field(g, k)[3] == 2)
}

// Whether a message has a cause of its own: outside proto3 an extension range or a required field.
fn has_own_cause(image: &Image, row: Row) -> bool
    ensures { result ≡ own_cause (schema image.now) row.0 }
{
    if rows::trailer_word(image.rows.words, 5) == 3 {
        return false;
    }
    if image.rows.extension_ranges(row) != 0 {
        return true;
    }
    has_required(image, row)
}

// Whether a message has a cause: its own, or a marked message of a shelved file that it refers to.
fn has_cause(shelf: &Shelf, n: u32, image: &Image, links: &[u32], fields: &[u32], m: Flat) -> bool
    requires indexed { Indexed (schema image.now) links.now }
    requires m_bound { m.0 < (schema image.now).messages }
    ensures { result ≡ has_cause (schema image.now) (shelf_files shelf.now n) fields.now m.0 }
{
    let link = links::message_link_row(links, m);
    if has_own_cause(image, Row(link[0])) {
        return true;
    }
    rows_refer_marked(shelf, n, fields, link[4], link[5])
}

// A word for each message, 1 where it has a cause.
fn collect_causes(shelf: &Shelf, n: u32, image: &Image, links: &[u32], fields: &[u32]) -> [u32; 256]
    requires indexed { Indexed (schema image.now) links.now }
    requires messages_bound { (schema image.now).messages ≤ 256 }
    ensures { (i : ℕ) → i < (schema image.now).messages → get_or result i 0 ≡ bit (has_cause (schema image.now) (shelf_files shelf.now n) fields.now i) }
{
    let mut d = [0u32; 256];
    for m in 0..image.rows.sections.messages.count {
        if has_cause(shelf, n, image, links, fields, Flat(m)) {
            d[m as usize] = 1;
        }
    }
    d
}

// Puts a reference from message `home` behind the first m, where a type is one of the n messages of the file with word `own`, and answers how
// many there are.
fn push_reference(
    edges: &mut [u32],
    m: usize,
    home: u32,
    n: u32,
    own: u32,
    t: u32,
    word: u32,
    index: u32,
) -> usize
    requires m_in_bounds { 2 * m + 2 ≤ length edges.old }
    requires home_lt_n { home < n }
    ensures { Pushed edges.old m edges.new result n 1 (λ i j. eqb home i && (is_message_type t && is_in own j word index)) }
{
    if !is_message_type(t) || word != own || n <= index {
        return m;
    }
    edges[2 * m] = home;
    edges[2 * m + 1] = index;
    m + 1
}

// Puts the references of a field's link row.
fn push_row(edges: &mut [u32], m: usize, home: u32, n: u32, own: u32, row: &[u32]) -> usize
    requires m_in_bounds { 2 * m + 4 ≤ length edges.old }
    requires home_lt_n { home < n }
    ensures { Pushed edges.old m edges.new result n 2 (λ i j. eqb home i && refers_to (field_link_of row.now) (is_in own j)) }
{
    let t = rows::word_at(row, 6);
    let word = rows::word_at(row, 7);
    let index = rows::word_at(row, 8);
    let k = push_reference(edges, m, home, n, own, t, word, index);
    if rows::word_at(row, 5) != 2 {
        return k;
    }
    let value = rows::word_at(row, 9);
    let file = rows::word_at(row, 10);
    let at = rows::word_at(row, 11);
    push_reference(edges, k, home, n, own, value, file, at)
}

// Puts those of `count` link rows of fields, from number `first` on.
fn push_rows(
    edges: &mut [u32],
    m: usize,
    home: u32,
    n: u32,
    own: u32,
    fields: &[u32],
    first: u32,
    count: u32,
) -> usize
    requires count_in_bounds { 2 * m + 4 * count ≤ length edges.old }
    requires home_lt_n { home < n }
    ensures { Pushed edges.old m edges.new result n (2 * count) (λ i j. eqb home i && rows_refer fields.now first count (is_in own j)) }
{
    let mut to = m;
    for k in 0..count {
        let row = rows::field_row_at(fields, (first as usize + k as usize) * links::FIELD_LINK);
        to = push_row(edges, to, home, n, own, &row);
    }
    to
}

// Puts the references between all messages of the file with word `own`, and answers how many there are.
fn collect_references(
    image: &Image,
    links: &[u32],
    fields: &[u32],
    own: u32,
    edges: &mut [u32],
) -> usize
    requires sound { Sound (schema image.now) }
    requires indexed { Indexed (schema image.now) links.now }
    requires fields_in_bounds { (schema image.now).fields * 4 ≤ length edges.old }
    ensures { Pushed edges.old 0 edges.new result (schema image.now).messages ((schema image.now).fields * 2) (refers_below (schema image.now) fields.now own (schema image.now).messages) }
{
    let n = image.rows.sections.messages.count;
    let mut to: usize = 0;
    for m in 0..n {
        let link = links::message_link_row(links, Flat(m));
        to = push_rows(edges, to, m, n, own, fields, link[4], link[5]);
    }
    to
}

// The distance of each message of the file that is linked, whose link rows of fields are `fields`. `edges` is scratch.
fn marks_in(shelf: &Shelf, n: u32, own: &File, fields: &[u32], edges: &mut [u32]) -> [u32; 256]
    requires n_bound { n ≤ 32 }
    requires sound { Sound (schema_of own.now.image.now own.now.pool.now) }
    requires links_value { own.now.links.now ≡ links_of (schema_of own.now.image.now own.now.pool.now) }
    requires fields_in_bounds { (schema_of own.now.image.now own.now.pool.now).fields * 4 ≤ length edges.old }
    ensures { (i : ℕ) → i < (schema_of own.now.image.now own.now.pool.now).messages → get_or result i 0 ≡ distance (graph_of (seen_with shelf.now n own.now) fields.now) i }
{
    let image = Image::read(own.image, own.pool);
    let cause = collect_causes(shelf, n, &image, own.links, fields);
    let m = collect_references(&image, own.links, fields, n + 1, edges);
    distances(
        edges,
        m,
        &cause,
        image.rows.sections.messages.count as usize,
    )
}

// The same, with scratch by the number of fields: each has two references at most.
pub(crate) fn compute_marks(shelf: &Shelf, n: u32, own: &File, fields: &[u32]) -> [u32; 256]
    requires n_bound { n ≤ 32 }
    requires sound { Sound (schema_of own.now.image.now own.now.pool.now) }
    requires links_value { own.now.links.now ≡ links_of (schema_of own.now.image.now own.now.pool.now) }
    ensures { (i : ℕ) → i < (schema_of own.now.image.now own.now.pool.now).messages → get_or result i 0 ≡ distance (graph_of (seen_with shelf.now n own.now) fields.now) i }
{
    if Sections::read(own.image).fields.count <= 128 {
        let mut few = [0u32; 512];
        return marks_in(shelf, n, own, fields, &mut few);
    }
    let mut edges = [0u32; 8192];
    marks_in(shelf, n, own, fields, &mut edges)
}
