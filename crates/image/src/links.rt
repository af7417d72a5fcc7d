// Link rows: the words that an image gives for a message, an enum or a oneof, built by value, and their way into lent words and out of them.
ghost use Rattle.std.specs.Prelude.{◌≡◌, ◌+◌, ◌*◌, ◌≤◌, ◌<◌, ◌^◌, length};
ghost use Rattle.lists.specs.Lists.{span, concat_map};
ghost use Rattle.lists.specs.Splice.{splice, fronted};
ghost use Rattle.image.specs.Schema.{schema};
ghost use Rattle.image.specs.Flat.{rows_of};
ghost use Rattle.image.specs.Links.{message_link_width, enum_link_width, oneof_link_width, enum_link, message_row, message_up, enum_row, enum_up};
ghost use Rattle.image.specs.Record.{field_link_width, link_row, message_link_at, enum_link_at, oneof_link_at, field_link_at};
ghost use Rattle.image.specs.Walk.{link_at, oneof_row, counted_row};

use crate::flat::Tally;
use crate::rows::{Flat, Range, Row, Sections};
use crate::schema::Image;
use crate::{oneofs, rows};

// How many words the link row of a message, an enum, a oneof and a field has.
pub const MESSAGE_LINK: usize = 10;

pub const ENUM_LINK: usize = 2;

pub const ONEOF_LINK: usize = 4;

pub const FIELD_LINK: usize = 16;

// How many words the link rows of messages, enums and oneofs have.
pub fn link_words(s: Sections) -> usize
    ensures { result ≡ s.messages.count * message_link_width + (s.enums.count * enum_link_width + s.oneofs.count * oneof_link_width) }
{
    s.messages.count as usize * MESSAGE_LINK
        + (s.enums.count as usize * ENUM_LINK + s.oneofs.count as usize * ONEOF_LINK)
}

// How many words all link rows have.
pub(crate) fn link_row_words(s: Sections) -> usize
    ensures { result ≡ s.messages.count * message_link_width + (s.enums.count * enum_link_width + s.oneofs.count * oneof_link_width) + s.fields.count * field_link_width }
{
    link_words(s) + s.fields.count as usize * FIELD_LINK
}

// Writes all of `src` into `words` from word `at` on.
pub(crate) fn put_words(words: &mut [u32], at: usize, src: &[u32])
    requires { at + length src.now ≤ length words.old }
    ensures { words.new ≡ splice words.old at src.now }
{
    for j in 0..src.len() {
        words[at + j] = src[j];
    }
}

// Writes all of `src` into the front of `words`, or nothing where there is no room.
pub fn put_front(words: &mut [u32], src: &[u32])
    ensures { words.new ≡ fronted words.old src.now }
{
    if src.len() <= words.len() {
        put_words(words, 0, src);
    }
}

// The link row of a message that stands at the tally `t`, without its mark. `outside` is its enclosing word.
pub(crate) fn message_link(image: &Image, row: Row, outside: u32, t: Tally) -> [u32; 10]
    ensures { result ≡ link_at (schema image.now) row.0 outside t }
{
    let fields = image.rows.fields_of(row);
    let extensions = image.rows.extensions_of(row);
    let entry = image.rows.map_entry(row);
    [
        row.0,
        outside,
        t.enums,
        t.oneofs,
        t.fields,
        fields.count,
        extensions.count,
        entry,
        0,
        0,
    ]
}

// The image row of a message.
pub fn message_row(links: &[u32], m: Flat) -> Row
    ensures { result.0 ≡ message_row links.now m.0 }
{
    Row(rows::word_at(links, m.0 as usize * MESSAGE_LINK))
}

// The enclosing word of a message.
pub fn message_up(links: &[u32], m: Flat) -> u32
    ensures { result ≡ message_up links.now m.0 }
{
    rows::word_at(links, m.0 as usize * MESSAGE_LINK + 1)
}

// The image row of an enum.
pub fn enum_row(image: &Image, links: &[u32], e: Flat) -> Row
    ensures { result.0 ≡ enum_row (schema image.now) links.now e.0 }
{
    let first = image.rows.sections.messages.count as usize * MESSAGE_LINK;
    Row(rows::word_at(links, first + e.0 as usize * ENUM_LINK))
}

// The enclosing word of an enum.
pub fn enum_up(image: &Image, links: &[u32], e: Flat) -> u32
    ensures { result ≡ enum_up (schema image.now) links.now e.0 }
{
    let first = image.rows.sections.messages.count as usize * MESSAGE_LINK;
    rows::word_at(links, first + e.0 as usize * ENUM_LINK + 1)
}

// The link row of a message, an enum, a oneof or a field, among the link rows of a file.
pub fn message_link_row(links: &[u32], m: Flat) -> [u32; 10]
    ensures { result ≡ link_row links.now (message_link_at m.0) message_link_width }
{
    rows::words_at(links, m.0 as usize * MESSAGE_LINK)
}

pub fn enum_link_row(image: &Image, links: &[u32], e: Flat) -> [u32; 2]
    ensures { result ≡ link_row links.now (enum_link_at (schema image.now) e.0) enum_link_width }
{
    let s = &image.rows.sections;
    rows::words_at(
        links,
        s.messages.count as usize * MESSAGE_LINK + e.0 as usize * ENUM_LINK,
    )
}

pub fn oneof_link_row(image: &Image, links: &[u32], o: Flat) -> [u32; 4]
    ensures { result ≡ link_row links.now (oneof_link_at (schema image.now) o.0) oneof_link_width }
{
    let s = &image.rows.sections;
    rows::words_at(
        links,
        s.messages.count as usize * MESSAGE_LINK
            + (s.enums.count as usize * ENUM_LINK + o.0 as usize * ONEOF_LINK),
    )
}

pub fn field_link_row(image: &Image, links: &[u32], k: Flat) -> [u32; 16]
    ensures { result ≡ link_row links.now (field_link_at (schema image.now) k.0) field_link_width }
{
    // The sum of link_words, written out: a number behind a reference is known to fit its type only where it is read.
    let s = &image.rows.sections;
    rows::words_at(
        links,
        s.messages.count as usize * MESSAGE_LINK
            + (s.enums.count as usize * ENUM_LINK + s.oneofs.count as usize * ONEOF_LINK)
            + k.0 as usize * FIELD_LINK,
    )
}

// Writes the link rows of a range of enums, with their enclosing word, into `links` from word `at` on.
pub(crate) fn put_enum_links(links: &mut [u32], at: usize, g: Range, outside: u32)
    requires count_bound { g.first + g.count < 2 ^ 32 }
    requires enum_link_width_in_bounds { at + g.count * enum_link_width ≤ length links.old }
    ensures { links.new ≡ splice links.old at (concat_map (enum_link outside) (rows_of g)) }
{
    for k in 0..g.count {
        let link = [g.first + k, outside];
        put_words(links, at + k as usize * ENUM_LINK, &link);
    }
}

// The link row of the oneof at place `k` of a message, of which `members` and `optionals` are counted at that place.
fn oneof_link(m: Flat, k: u32, members: &[u32], optionals: &[u32]) -> [u32; 4]
    ensures { result ≡ counted_row m.0 members.now optionals.now k }
{
    let count = rows::word_at(members, k as usize);
    let mark = oneofs::synthetic_mark(count, rows::word_at(optionals, k as usize));
    [m.0, k, mark, count]
}

// Writes the link rows of n oneofs of a message, whose members are counted, into `links` from word `at` on.
fn put_counted(m: Flat, n: u32, members: &[u32], optionals: &[u32], at: usize, links: &mut [u32])
    requires { at + n * oneof_link_width ≤ length links.old }
    ensures { links.new ≡ splice links.old at (concat_map (counted_row m.0 members.now optionals.now) (span 0 n)) }
{
    for k in 0..n {
        let link = oneof_link(m, k, members, optionals);
        put_words(links, at + k as usize * ONEOF_LINK, &link);
    }
}

// Writes the link rows of the oneofs of a message into `links` from word `at` on. Members are counted in one pass over its fields,
// in arrays for the 256 oneofs that a file has at most.
pub(crate) fn put_oneof_links(image: &Image, m: Flat, row: Row, at: usize, links: &mut [u32])
    requires row_bound { ((schema image.now).oneofs_in row.0).count ≤ 256 }
    requires oneof_link_width_in_bounds { at + ((schema image.now).oneofs_in row.0).count * oneof_link_width ≤ length links.old }
    ensures { links.new ≡ splice links.old at (concat_map (oneof_row (schema image.now) m.0 row.0) (span 0 ((schema image.now).oneofs_in row.0).count)) }
{
    let g = image.rows.oneofs_of(row);
    if g.count == 0 {
        return;
    }
    let mut members = [0u32; 256];
    let mut optionals = [0u32; 256];
    oneofs::count_members(image, row, &mut members, &mut optionals);
    put_counted(m, g.count, &members, &optionals, at, links);
}
