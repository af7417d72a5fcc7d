// Full names: the names up the enclosing chain, behind the package. Messages and enums are given by their flat numbers, and `links` are
// the words of the file's link rows. A name is compared up the chain, its last segment first, and is built only to be written.
ghost use Rattle.std.specs.Prelude.{◌≡◌, ◌∷◌, ◌+◌, ◌≤◌, ◌<◌, ◌^◌, leb, length};
ghost use Rattle.lists.specs.Lists.{same};
ghost use Rattle.lists.specs.Splice.{fronted};
ghost use Rattle.names.specs.Answers.{front_answer};
ghost use Rattle.names.specs.Bytes.{dot};
ghost use Rattle.names.specs.Package.{concat_paths};
ghost use Rattle.image.specs.Schema.{schema};
ghost use Rattle.image.specs.Links.{message_up, enum_row};
ghost use Rattle.image.specs.FullName.{message_path, enum_path, path_beneath, item_name, item_up, full_name, full_names_short, full_name_limit};
ghost use Rattle.image.specs.Climb.{name_of, message_above, named_up, may_end_in, joined_length, lead};
ghost use Rattle.image.specs.Lookup.{message_by_path, enum_by_path};
ghost use Rattle.image.specs.MapEntry.{ends_with};

use crate::rows::{Flat, Kind};
use crate::schema::Image;
use crate::{links, rows};
use names::name::{concat_paths, put_front};

// The name of a message, as a part of the pool.
#[tactic(auto, unfolding(crate::specs::Schema::schema_in))]
pub fn message_name<'p>(image: &Image<'_, 'p>, links: &[u32], m: Flat) -> &'p [u8]
    ensures { result.now ≡ name_of (schema image.now) links.now m.0 }
{
    let row = links::message_row(links, m);
    image.name_of(Kind::Message, row)
}

// The name of an enum, as a part of the pool.
#[tactic(auto, unfolding(crate::specs::Schema::schema_in))]
pub fn enum_name<'p>(image: &Image<'_, 'p>, links: &[u32], e: Flat) -> &'p [u8]
    ensures { result.now ≡ (schema image.now).enum_name (enum_row (schema image.now) links.now e.0) }
{
    let row = links::enum_row(image, links, e);
    image.name_of(Kind::Enum, row)
}

// The name of an item: the messages, then the enums.
#[tactic(auto, unfolding(crate::specs::FullName::item_name, crate::specs::Schema::schema_in))]
pub fn item_name<'p>(image: &Image<'_, 'p>, links: &[u32], i: u32) -> &'p [u8]
    ensures { result.now ≡ item_name (schema image.now) links.now i }
{
    let n = image.rows.sections.messages.count;
    if i < n {
        return message_name(image, links, Flat(i));
    }
    enum_name(image, links, Flat(i - n))
}

// The enclosing word of an item.
#[tactic(auto, unfolding(crate::specs::FullName::item_up, crate::specs::Schema::schema_in))]
pub fn item_up(image: &Image, links: &[u32], i: u32) -> u32
    ensures { result ≡ item_up (schema image.now) links.now i }
{
    let n = image.rows.sections.messages.count;
    if i < n {
        return links::message_up(links, Flat(i));
    }
    links::enum_up(image, links, Flat(i - n))
}

// An enclosing word, or 0 where nothing stands in front of a name: no more levels are looked at, or the name stands at top level, or the
// message that encloses it has no name and so an empty path.
fn named_up(image: &Image, links: &[u32], up: u32, levels: u32) -> u32
    ensures { result ≡ named_up (name_of (schema image.now) links.now) (message_up links.now) levels up }
{
    if levels == 0 || up == 0 || message_name(image, links, Flat(up - 1)).is_empty() {
        return 0;
    }
    up
}

// Whether `text` ends in a dot and then `name`.
fn ends_in(text: &[u8], name: &[u8]) -> bool
    ensures { result ≡ ends_with text.now (dot ∷ name.now) }
{
    if text.len() <= name.len() {
        return false;
    }
    let start = text.len() - name.len();
    text[start - 1] == b'.' && &text[start..] == name
}

// Whether `text` may end in `name`, by its length and last byte. Many names are told apart so, before the enclosing word is read.
#[tactic(auto, unfolding(crate::specs::Climb::may_end_in))]
fn may_end_in(text: &[u8], name: &[u8]) -> bool
    ensures { result ≡ may_end_in text.now name.now }
{
    name.is_empty() || (name.len() <= text.len() && text[text.len() - 1] == name[name.len() - 1])
}

// Whether `wanted` is the path of what is called `name` and stands where the enclosing word `up` says, in which so many levels are looked
// at: the name must be its last segment, and what stands in front of the dot the path of the message that encloses it.
fn is_path_beneath(
    image: &Image,
    links: &[u32],
    wanted: &[u8],
    up: u32,
    name: &[u8],
    levels: u32,
) -> bool
    ensures { result ≡ same wanted.now (concat_paths (message_above (schema image.now) links.now levels up) name.now) }
{
    if name.is_empty() {
        return wanted.is_empty();
    }
    let above = named_up(image, links, up, levels);
    if above == 0 {
        return wanted == name;
    }
    if !ends_in(wanted, name) {
        return false;
    }
    let front = wanted.len() - name.len() - 1;
    let m = Flat(above - 1);
    let outer = message_name(image, links, m);
    let over = links::message_up(links, m);
    is_path_beneath(image, links, &wanted[..front], over, outer, levels - 1)
}

// Whether `wanted` is the path of a message, in which so many enclosing messages (`depth`) are looked at.
pub fn is_message_path(image: &Image, links: &[u32], wanted: &[u8], m: Flat, depth: u32) -> bool
    ensures { result ≡ same wanted.now (message_path (schema image.now) links.now depth m.0) }
{
    let name = message_name(image, links, m);
    may_end_in(wanted, name)
        && is_path_beneath(
            image,
            links,
            wanted,
            links::message_up(links, m),
            name,
            depth,
        )
}

// Whether `wanted` is the path of an enum.
pub fn is_enum_path(image: &Image, links: &[u32], wanted: &[u8], e: Flat) -> bool
    ensures { result ≡ same wanted.now (enum_path (schema image.now) links.now e.0) }
{
    let name = enum_name(image, links, e);
    may_end_in(wanted, name)
        && is_path_beneath(
            image,
            links,
            wanted,
            links::enum_up(image, links, e),
            name,
            16,
        )
}

// The first message whose path is `wanted`.
pub fn find_message(image: &Image, links: &[u32], wanted: &[u8]) -> Option<Flat>
    ensures { result ≡ message_by_path (schema image.now) links.now wanted.now }
{
    let n = image.rows.sections.messages.count;
    (0..n)
        .find(|&m| is_message_path(image, links, wanted, Flat(m), 16))
        .map(Flat)
}

// The first enum whose path is `wanted`.
pub fn find_enum(image: &Image, links: &[u32], wanted: &[u8]) -> Option<Flat>
    ensures { result ≡ enum_by_path (schema image.now) links.now wanted.now }
{
    let n = image.rows.sections.enums.count;
    (0..n)
        .find(|&e| is_enum_path(image, links, wanted, Flat(e)))
        .map(Flat)
}

// The package, as a part of the pool.
#[tactic(auto, unfolding(crate::specs::Schema::schema_in, crate::specs::Words::trailer_at))]
pub fn package_name<'p>(image: &Image<'_, 'p>) -> &'p [u8]
    ensures { result.now ≡ (schema image.now).«package» }
{
    image.text_at(rows::trailer_at(image.rows.words) + 3)
}

// How long two joined names are.
fn joined_length(first: usize, second: usize) -> usize
    requires { first + second < 2 ^ 63 }
    ensures { result ≡ joined_length first second }
{
    if second == 0 {
        return 0;
    }
    if first == 0 {
        return second;
    }
    first + 1 + second
}

// How long that is which stands in front of a name. Names are shorter than 4 GB, so the lengths of 16 levels can be added.
fn length_above(image: &Image, links: &[u32], up: u32, levels: u32) -> usize
    requires { levels ≤ 16 }
    ensures { result ≡ length (message_above (schema image.now) links.now levels up) }
{
    let above = named_up(image, links, up, levels);
    if above == 0 {
        return 0;
    }
    // Called because a word behind a reference is known to fit its type only once it is handed over.
    let held = image.rows.held();
    let _first = rows::word_at(held, 0);
    let m = Flat(above - 1);
    let name = message_name(image, links, m);
    let over = links::message_up(links, m);
    let outer = length_above(image, links, over, levels - 1);
    joined_length(outer, name.len())
}

// How long the full name is of what is called `name` and stands where the enclosing word `up` says.
fn full_length(image: &Image, links: &[u32], up: u32, name: &[u8]) -> usize
    requires { length name.now < 2 ^ 32 }
    ensures { result ≡ length (concat_paths (schema image.now).«package» (path_beneath (schema image.now) links.now up name.now)) }
{
    // Called because a word behind a reference is known to fit its type only once it is handed over.
    let held = image.rows.held();
    let _first = rows::word_at(held, 0);
    let outer = length_above(image, links, up, 16);
    let n = joined_length(outer, name.len());
    let package = package_name(image);
    joined_length(package.len(), n)
}

// Whether the full name of an item is short enough.
fn is_full_name_short(image: &Image, links: &[u32], i: u32) -> bool
    ensures { result ≡ leb (length (full_name (schema image.now) links.now i)) full_name_limit }
{
    // Called because a word behind a reference is known to fit its type only once it is handed over.
    let held = image.rows.held();
    let _first = rows::word_at(held, 0);
    let name = item_name(image, links, i);
    let up = item_up(image, links, i);
    full_length(image, links, up, name) <= 512
}

// The same of an enum.
fn is_enum_name_short(image: &Image, links: &[u32], e: Flat) -> bool
    ensures { result ≡ leb (length (full_name (schema image.now) links.now ((schema image.now).messages + e.0))) full_name_limit }
{
    let held = image.rows.held();
    let _first = rows::word_at(held, 0);
    let name = enum_name(image, links, e);
    let up = links::enum_up(image, links, e);
    full_length(image, links, up, name) <= 512
}

// Rule 4, of full names: whether those of all messages and enums are short enough.
pub fn are_full_names_short(image: &Image, links: &[u32]) -> bool
    ensures { result ≡ full_names_short (schema image.now) links.now }
{
    let s = &image.rows.sections;
    (0..s.messages.count).all(|m| is_full_name_short(image, links, m))
        && (0..s.enums.count).all(|e| is_enum_name_short(image, links, Flat(e)))
}

// Writes the package, and behind it what stands in front of a name, to the front of `out`, which has room for it.
fn write_lead(image: &Image, links: &[u32], up: u32, levels: u32, out: &mut [u8]) -> Option<usize>
    requires { length (lead (schema image.now).«package» (message_above (schema image.now) links.now levels up)) ≤ length out.old }
    ensures value { result ≡ front_answer out.old (lead (schema image.now).«package» (message_above (schema image.now) links.now levels up)) }
    ensures out_after { out.new ≡ fronted out.old (lead (schema image.now).«package» (message_above (schema image.now) links.now levels up)) }
{
    let above = named_up(image, links, up, levels);
    if above == 0 {
        let package = package_name(image);
        return put_front(out, package);
    }
    let m = Flat(above - 1);
    let over = links::message_up(links, m);
    let n = write_lead(image, links, over, levels - 1, out).unwrap_or(0);
    let name = message_name(image, links, m);
    concat_paths(out, n, name)
}

// Writes the full name of an item to the front of `out`, or nothing where it has no room: the length is known before anything is written.
pub fn write_full_name(image: &Image, links: &[u32], i: u32, out: &mut [u8]) -> Option<usize>
    ensures value { result ≡ front_answer out.old (full_name (schema image.now) links.now i) }
    ensures out_after { out.new ≡ fronted out.old (full_name (schema image.now) links.now i) }
{
    // Called because a word behind a reference is known to fit its type only once it is handed over.
    let held = image.rows.held();
    let _first = rows::word_at(held, 0);
    let name = item_name(image, links, i);
    let up = item_up(image, links, i);
    if out.len() < full_length(image, links, up, name) {
        return None;
    }
    if name.is_empty() {
        return Some(0);
    }
    let n = write_lead(image, links, up, 16, out).unwrap_or(0);
    concat_paths(out, n, name)
}
