// The flat order: a walk over nested rows that numbers each message before its nested ones, and the link rows that it gives.
ghost use Rattle.std.specs.Prelude.{◌≡◌, ◌+◌, ◌*◌, ◌≤◌, ◌<◌, ◌^◌, length};
ghost use Rattle.lists.specs.Lists.{span, all, concat_map};
ghost use Rattle.lists.specs.Splice.{splice};
ghost use Rattle.image.specs.Schema.{schema};
ghost use Rattle.image.specs.Flat.{rows_of, flat_fields, first_field, walked, tally_at, within, shallow};
ghost use Rattle.image.specs.Record.{repeated, containers_in, containers};
ghost use Rattle.image.specs.Laid.{LaidOut};
ghost use Rattle.image.specs.Links.{message_link_width, enum_link_width, message_links, enum_links, oneof_links, links_of, link_words};
ghost use Rattle.image.specs.Walk.{tallied, InWords, Entering, Indexed, enum_part, field_part, enum_links_at, oneof_links_at};

use crate::rows::{Flat, Range, Row};
use crate::schema::{Image, Laid};
use crate::{links, rows};

// The next free flat numbers, which each step of the walk takes and hands on.
#[derive(Clone, Copy)]
pub struct Tally {
    pub messages: u32,
    pub enums: u32,
    pub oneofs: u32,
    pub fields: u32,
}

impl Tally {
    // A message takes the next number.
    fn take_message(self) -> Tally
        requires { self.messages + 1 < 2 ^ 32 }
        ensures { result ≡ record { messages = self.messages + 1; enums = self.enums; oneofs = self.oneofs; fields = self.fields } }
    {
        Tally {
            messages: self.messages + 1,
            ..self
        }
    }

    // The enums of a message take the next `n` numbers.
    fn take_enums(self, n: u32) -> Tally
        requires { self.enums + n < 2 ^ 32 }
        ensures { result ≡ record { messages = self.messages; enums = self.enums + n; oneofs = self.oneofs; fields = self.fields } }
    {
        Tally {
            enums: self.enums + n,
            ..self
        }
    }

    // Its oneofs take the next `n` numbers.
    fn take_oneofs(self, n: u32) -> Tally
        requires { self.oneofs + n < 2 ^ 32 }
        ensures { result ≡ record { messages = self.messages; enums = self.enums; oneofs = self.oneofs + n; fields = self.fields } }
    {
        Tally {
            oneofs: self.oneofs + n,
            ..self
        }
    }

    // Its fields, regular or extensions, take the next `n` numbers.
    fn take_fields(self, n: u32) -> Tally
        requires { self.fields + n < 2 ^ 32 }
        ensures { result ≡ record { messages = self.messages; enums = self.enums; oneofs = self.oneofs; fields = self.fields + n } }
    {
        Tally {
            fields: self.fields + n,
            ..self
        }
    }
}

// The tally behind a message and what it owns.
fn tally_behind(image: &Image, row: Row, t: Tally) -> Tally
    requires { InWords (tallied (schema image.now) t row.0) }
    ensures { result ≡ tallied (schema image.now) t row.0 }
{
    let enums = image.rows.enums_of(row);
    let oneofs = image.rows.oneofs_of(row);
    let fields = image.rows.fields_of(row);
    let extensions = image.rows.extensions_of(row);
    let u = t
        .take_message()
        .take_enums(enums.count)
        .take_oneofs(oneofs.count);
    u.take_fields(fields.count).take_fields(extensions.count)
}

// Numbers the messages of a range and all below them, each before its nested ones, and writes the link row of each at its number.
// `outside` is the enclosing word of the range, and `depth` says how many levels are left.
fn index_messages_and_inners(
    image: &Image,
    g: Range,
    outside: u32,
    depth: u32,
    links: &mut [u32],
    t: Tally,
) -> Tally
    requires entering { Entering (schema image.now) g.first g.count outside depth t }
    requires message_link_width_in_bounds { (schema image.now).messages * message_link_width ≤ length links.old }
    ensures value { result ≡ tally_at (schema image.now) (t.messages + length (walked depth (schema image.now) (span g.first g.count))) }
    ensures links_after { links.new ≡ splice links.old (t.messages * message_link_width) (message_links (schema image.now) t.messages (length (walked depth (schema image.now) (span g.first g.count)))) }
{
    let mut u = t;
    for k in 0..g.count {
        let row = Row(g.first + k);
        let me = Flat(u.messages);
        let link = links::message_link(image, row, outside, u);
        links::put_words(links, me.0 as usize * links::MESSAGE_LINK, &link);
        let v = tally_behind(image, row, u);
        let inner = image.rows.nested_messages(row);
        u = index_messages_and_inners(image, inner, me.0 + 1, depth - 1, links, v);
    }
    u
}

// The link rows of all messages, in flat order, at the front of `links`.
fn index_messages(laid: &Laid, links: &mut [u32])
    requires message_link_width_in_bounds { (schema laid.now.image).messages * message_link_width ≤ length links.old }
    ensures { links.new ≡ splice links.old 0 (message_links (schema laid.now.image) 0 (schema laid.now.image).messages) }
{
    let image = &laid.image;
    let count = rows::trailer_word(image.rows.words, 18);
    let enums = rows::trailer_word(image.rows.words, 19);
    let t = Tally {
        messages: 0,
        enums,
        oneofs: 0,
        fields: 0,
    };
    index_messages_and_inners(image, Range { first: 0, count }, 0, 16, links, t);
}

// The link rows of the enums of all messages, in flat order, from word `at` on, behind those of the file's own enums.
fn link_inner_enums(laid: &Laid, at: usize, links: &mut [u32])
    requires indexed { Indexed (schema laid.now.image) links.old }
    requires at_value { at ≡ enum_links_at (schema laid.now.image) 0 }
    requires pool_in_bounds { enum_links_at (schema laid.now.image) (schema laid.now.image).messages ≤ length links.old }
    ensures { links.new ≡ splice links.old at (concat_map (enum_part (schema laid.now.image)) (span 0 (schema laid.now.image).messages)) }
{
    let image = &laid.image;
    let mut to = at;
    for m in 0..image.rows.sections.messages.count {
        let g = image.rows.enums_of(links::message_row(links, Flat(m)));
        links::put_enum_links(links, to, g, m + 1);
        to += g.count as usize * links::ENUM_LINK;
    }
}

// The link rows of all enums, in flat order, behind those of the messages.
fn link_enums(laid: &Laid, links: &mut [u32])
    requires indexed { Indexed (schema laid.now.image) links.old }
    requires enum_link_width_in_bounds { (schema laid.now.image).messages * message_link_width + (schema laid.now.image).enums * enum_link_width ≤ length links.old }
    ensures { links.new ≡ splice links.old ((schema laid.now.image).messages * message_link_width) (enum_links (schema laid.now.image) (schema laid.now.image).messages) }
{
    let image = &laid.image;
    let at = image.rows.sections.messages.count as usize * links::MESSAGE_LINK;
    let count = rows::trailer_word(image.rows.words, 19);
    links::put_enum_links(links, at, Range { first: 0, count }, 0);
    link_inner_enums(laid, at + count as usize * links::ENUM_LINK, links);
}

// The link rows of all oneofs, in flat order, behind those of the enums.
fn link_oneofs(laid: &Laid, links: &mut [u32])
    requires indexed { Indexed (schema laid.now.image) links.old }
    requires pool_in_bounds { link_words (schema laid.now.image) ≤ length links.old }
    ensures { links.new ≡ splice links.old (oneof_links_at (schema laid.now.image) 0) (oneof_links (schema laid.now.image) (schema laid.now.image).messages) }
{
    let image = &laid.image;
    let n = image.rows.sections.messages.count;
    let e = image.rows.sections.enums.count;
    let mut to = n as usize * links::MESSAGE_LINK + e as usize * links::ENUM_LINK;
    for m in 0..n {
        let row = links::message_row(links, Flat(m));
        let g = image.rows.oneofs_of(row);
        links::put_oneof_links(image, Flat(m), row, to, links);
        to += g.count as usize * links::ONEOF_LINK;
    }
}

// The link rows that an image gives, at the front of `links`: messages, enums, oneofs.
pub(crate) fn number(laid: &Laid, links: &mut [u32])
    requires pool_in_bounds { link_words (schema laid.now.image) ≤ length links.old }
    ensures { links.new ≡ splice links.old 0 (links_of (schema laid.now.image)) }
{
    index_messages(laid, links);
    link_enums(laid, links);
    link_oneofs(laid, links);
}

// Whether the messages of a range, with all below them, are at most `depth` levels deep.
fn levels_within(image: &Image, g: Range, depth: u32) -> bool
    requires laid_out { LaidOut (schema image.now) }
    requires count_bound { g.first + g.count ≤ image.now.rows.sections.messages.count }
    ensures { result ≡ all (within depth (schema image.now)) (span g.first g.count) }
{
    if depth == 0 {
        return g.count == 0;
    }
    // Read because a number behind a reference is known to fit its type only once it is read, and the range ends below this one.
    let _messages = image.rows.sections.messages.count;
    for k in 0..g.count {
        let inner = image.rows.nested_messages(Row(g.first + k));
        if !levels_within(image, inner, depth - 1) {
            return false;
        }
    }
    true
}

// Whether no message is nested more than 16 levels deep, where the top level is 1. In an image that is laid out each row is seen once.
pub(crate) fn is_shallow(image: &Image) -> bool
    requires { LaidOut (schema image.now) }
    ensures { result ≡ shallow (schema image.now) }
{
    let count = rows::trailer_word(image.rows.words, 18);
    levels_within(image, Range { first: 0, count }, 16)
}

// Lists a range of fields from place `at` on: their image rows, and for each the same containing word.
fn put_fields(homes: &mut [u32], holders: &mut [u32], at: usize, g: Range, container: u32)
    requires count_bound { g.first + g.count < 2 ^ 32 }
    requires count_in_bounds { at + g.count ≤ length homes.old }
    requires count_in_bounds_2 { at + g.count ≤ length holders.old }
    ensures homes_after { homes.new ≡ splice homes.old at (rows_of g) }
    ensures holders_after { holders.new ≡ splice holders.old at (repeated g.count container) }
{
    for k in 0..g.count {
        homes[at + k as usize] = g.first + k;
        holders[at + k as usize] = container;
    }
}

// Lists the fields of all messages in flat order, and answers how many there are. `links` are the file's link rows.
fn list_message_fields(laid: &Laid, links: &[u32], homes: &mut [u32], holders: &mut [u32]) -> usize
    requires indexed { Indexed (schema laid.now.image) links.now }
    requires pool_in_bounds { (schema laid.now.image).fields ≤ length homes.old }
    requires pool_in_bounds_2 { (schema laid.now.image).fields ≤ length holders.old }
    ensures value { result ≡ first_field (schema laid.now.image) (schema laid.now.image).messages }
    ensures homes_after { homes.new ≡ splice homes.old 0 (concat_map (field_part (schema laid.now.image)) (span 0 (schema laid.now.image).messages)) }
    ensures holders_after { holders.new ≡ splice holders.old 0 (concat_map (containers_in (schema laid.now.image)) (span 0 (schema laid.now.image).messages)) }
{
    let image = &laid.image;
    let mut to: usize = 0;
    for m in 0..image.rows.sections.messages.count {
        let row = links::message_row(links, Flat(m));
        let fields = image.rows.fields_of(row);
        let extensions = image.rows.extensions_of(row);
        put_fields(homes, holders, to, fields, m + 1);
        put_fields(
            homes,
            holders,
            to + fields.count as usize,
            extensions,
            m + 1,
        );
        to += fields.count as usize + extensions.count as usize;
    }
    to
}

// Lists all fields in flat order: the image row of each in `homes`, its containing word in `holders`.
pub(crate) fn list_fields(laid: &Laid, links: &[u32], homes: &mut [u32], holders: &mut [u32])
    requires links_value { links.now ≡ links_of (schema laid.now.image) }
    requires pool_in_bounds { (schema laid.now.image).fields ≤ length homes.old }
    requires pool_in_bounds_2 { (schema laid.now.image).fields ≤ length holders.old }
    ensures homes_after { homes.new ≡ splice homes.old 0 (flat_fields (schema laid.now.image)) }
    ensures holders_after { holders.new ≡ splice holders.old 0 (containers (schema laid.now.image)) }
{
    let image = &laid.image;
    let at = list_message_fields(laid, links, homes, holders);
    let own = rows::file_extensions(image.rows.words);
    put_fields(homes, holders, at, own, 0);
}
