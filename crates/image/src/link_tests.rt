// What the link words of a shelved file must meet. Kinds, shapes, types and labels are tested as numbers: a shelved row may hold any word, and its
// numbers are those of the layout.
ghost use Rattle.std.specs.Prelude.{◌≡◌, ℕ, ◌+◌, ◌<◌, ◌≤◌, length, get_or};
ghost use Rattle.lists.specs.Lists.{same, part};
ghost use Rattle.image.specs.Schema.{schema};
ghost use Rattle.image.specs.Flat.{flat_fields};
ghost use Rattle.image.specs.Laid.{Sound};
ghost use Rattle.image.specs.Links.{links_of};
ghost use Rattle.image.specs.Record.{says, field_link_of, containers, value_count};
ghost use Rattle.image.specs.LinkTests.{file_by, message_exists, enum_exists, is_absent, target_fits, extendee_fits, value_fits, enum_default_fits, default_fits, field_link_fits, field_links_fit, mark_fits, marks_fit, messages_given, others_given, links_fit};
ghost use Rattle.image.specs.Places.{file_of, shelf_file, shelf_files};

use crate::rows::Flat;
use crate::schema::{Image, Laid};
use crate::shelf::{File, Shelf};
use crate::{flat, links, rows};

// The file that a file word names, of the first `n`; one without rows where it names none.
fn file_by<'w, 'b>(shelf: &Shelf<'w, 'b>, n: u32, word: u32) -> File<'w, 'b>
    ensures { file_of result ≡ file_by (shelf_files shelf.now n) word }
{
    if word == 0 || n < word {
        return File {
            image: &shelf.words[..0],
            pool: &shelf.bytes[..0],
            links: &shelf.words[..0],
        };
    }
    shelf.file(word - 1)
}

// Its image alone, for the tests below, of which each type of a shelf asks one.
fn image_by<'w>(shelf: &Shelf<'w, '_>, n: u32, word: u32) -> &'w [u32]
    ensures { result.now ≡ (file_by (shelf_files shelf.now n) word).image }
{
    if word == 0 || n < word {
        return &shelf.words[..0];
    }
    shelf.image(word - 1)
}

fn message_exists(shelf: &Shelf, n: u32, word: u32, index: u32) -> bool
    ensures { result ≡ message_exists (shelf_files shelf.now n) word index }
{
    index < rows::trailer_word(image_by(shelf, n, word), 9)
}

fn enum_exists(shelf: &Shelf, n: u32, word: u32, index: u32) -> bool
    ensures { result ≡ enum_exists (shelf_files shelf.now n) word index }
{
    index < rows::trailer_word(image_by(shelf, n, word), 11)
}

// How many values an enum has.
fn value_count(shelf: &Shelf, n: u32, word: u32, e: Flat) -> u32
    ensures { result ≡ value_count (file_by (shelf_files shelf.now n) word) e.0 }
{
    let file = file_by(shelf, n, word);
    let image = Image::read(file.image, file.pool);
    let g = image.rows.values_of(links::enum_row(&image, file.links, e));
    g.count
}

fn is_absent(word: u32, index: u32) -> bool
    ensures { result ≡ is_absent word index }
{
    word == 0 && index == 0
}

// The target of a type.
#[tactic(auto, unfolding(crate::specs::LinkTests::target_fits))]
fn target_fits(shelf: &Shelf, n: u32, t: u32, word: u32, index: u32) -> bool
    ensures { result ≡ target_fits (shelf_files shelf.now n) t word index }
{
    match t {
        10 | 11 => message_exists(shelf, n, word, index),
        14 => enum_exists(shelf, n, word, index),
        _ => is_absent(word, index),
    }
}

// The extendee of a field's link row.
#[tactic(auto, unfolding(crate::specs::LinkTests::extendee_fits))]
fn extendee_fits(shelf: &Shelf, n: u32, row: &[u32]) -> bool
    ensures { result ≡ extendee_fits (shelf_files shelf.now n) (field_link_of row.now) }
{
    let word = rows::word_at(row, 3);
    let index = rows::word_at(row, 4);
    if rows::word_at(row, 1) == 1 {
        return message_exists(shelf, n, word, index);
    }
    is_absent(word, index)
}

// The target of a map's value.
#[tactic(auto, unfolding(crate::specs::LinkTests::value_fits))]
fn value_fits(shelf: &Shelf, n: u32, row: &[u32]) -> bool
    ensures { result ≡ value_fits (shelf_files shelf.now n) (field_link_of row.now) }
{
    let word = rows::word_at(row, 10);
    let index = rows::word_at(row, 11);
    if rows::word_at(row, 5) == 2 {
        return target_fits(shelf, n, rows::word_at(row, 9), word, index);
    }
    is_absent(word, index)
}

// An enum default: a place among the values of the type's enum.
#[tactic(auto, unfolding(crate::specs::LinkTests::enum_default_fits))]
fn default_value_fits(shelf: &Shelf, n: u32, row: &[u32]) -> bool
    ensures { result ≡ enum_default_fits (shelf_files shelf.now n) (field_link_of row.now) }
{
    if rows::word_at(row, 6) != 14 {
        return false;
    }
    let e = Flat(rows::word_at(row, 8));
    rows::word_at(row, 13) < value_count(shelf, n, rows::word_at(row, 7), e)
}

// A default, where `pool` is the length of the file's pool.
#[tactic(auto, unfolding(crate::specs::LinkTests::default_fits))]
fn default_fits(shelf: &Shelf, n: u32, pool: usize, row: &[u32]) -> bool
    ensures { result ≡ default_fits (shelf_files shelf.now n) pool (field_link_of row.now) }
{
    let kind = rows::word_at(row, 12);
    if kind == 3 {
        return rows::word_at(row, 13) as usize + rows::word_at(row, 14) as usize <= pool;
    }
    if kind == 4 {
        return default_value_fits(shelf, n, row);
    }
    kind <= 1
}

// The link row of the field on image row `home`, in the message that the word `container` stands for.
#[tactic(auto, unfolding(crate::specs::LinkTests::field_link_fits))]
fn field_link_fits(
    shelf: &Shelf,
    n: u32,
    pool: usize,
    home: u32,
    container: u32,
    row: &[u32],
) -> bool
    ensures { result ≡ field_link_fits (shelf_files shelf.now n) pool home container (field_link_of row.now) }
{
    let t = rows::word_at(row, 6);
    let word = rows::word_at(row, 7);
    let index = rows::word_at(row, 8);
    rows::word_at(row, 0) == home
        && rows::word_at(row, 2) == container
        && rows::word_at(row, 1) <= 1
        && rows::word_at(row, 5) <= 2
        && extendee_fits(shelf, n, row)
        && target_fits(shelf, n, t, word, index)
        && value_fits(shelf, n, row)
        && default_fits(shelf, n, pool, row)
}

// The link row of every field of file `f`, whose image rows and containing words are listed in flat order.
fn field_links_fit(shelf: &Shelf, f: u32, homes: &[u32], holders: &[u32]) -> bool
    requires f_bound { f < 32 }
    requires by_index { (k : ℕ) → k < (says (shelf_file shelf.now f)).fields → get_or homes.now k 0 ≡ get_or (flat_fields (says (shelf_file shelf.now f))) k 0 }
    requires by_index_2 { (k : ℕ) → k < (says (shelf_file shelf.now f)).fields → get_or holders.now k 0 ≡ get_or (containers (says (shelf_file shelf.now f))) k 0 }
    ensures { result ≡ field_links_fit (shelf_files shelf.now (f + 1)) (shelf_file shelf.now f) }
{
    let file = shelf.file(f);
    let image = Image::read(file.image, file.pool);
    for k in 0..image.rows.sections.fields.count {
        let row = links::field_link_row(&image, file.links, Flat(k));
        let home = rows::word_at(homes, k as usize);
        let container = rows::word_at(holders, k as usize);
        if !field_link_fits(shelf, f + 1, file.pool.len(), home, container, &row) {
            return false;
        }
    }
    true
}

// A message's mark: always initialised or a distance below the file's messages.
#[tactic(auto, unfolding(crate::specs::LinkTests::mark_fits))]
fn mark_fits(messages: u32, always: u32, distance: u32) -> bool
    ensures { result ≡ mark_fits messages always distance }
{
    match always {
        0 => distance < messages,
        1 => distance == u32::MAX,
        _ => false,
    }
}

// The marks of all messages.
fn marks_fit(image: &Image, links: &[u32]) -> bool
    ensures { result ≡ marks_fit (schema image.now) links.now }
{
    let n = image.rows.sections.messages.count;
    (0..n).all(|m| {
        let at = m as usize * links::MESSAGE_LINK;
        mark_fits(
            n,
            rows::word_at(links, at + 8),
            rows::word_at(links, at + 9),
        )
    })
}

// Whether `n` words from word `at` on are the same in both.
fn same_part(a: &[u32], b: &[u32], at: usize, n: usize) -> bool
    ensures { result ≡ same (part at n a.now) (part at n b.now) }
{
    rows::part(a, at, n) == rows::part(b, at, n)
}

// Whether the link rows of all messages are those that the image gives, `own`, their marks aside.
fn messages_given(image: &Image, links: &[u32], own: &[u32]) -> bool
    requires { own.now ≡ links_of (schema image.now) }
    ensures { result ≡ messages_given (schema image.now) links.now }
{
    (0..image.rows.sections.messages.count).all(|m| same_part(
        links,
        own,
        m as usize * links::MESSAGE_LINK,
        8,
    ))
}

// Whether those of enums and oneofs are.
fn others_given(image: &Image, links: &[u32], own: &[u32]) -> bool
    requires { own.now ≡ links_of (schema image.now) }
    ensures { result ≡ others_given (schema image.now) links.now }
{
    let s = &image.rows.sections;
    same_part(
        links,
        own,
        s.messages.count as usize * links::MESSAGE_LINK,
        s.enums.count as usize * links::ENUM_LINK + s.oneofs.count as usize * links::ONEOF_LINK,
    )
}

// The fields of file `f`: their image rows are listed in `homes` first, and their containing words in `holders`.
fn listed_links_fit(
    shelf: &Shelf,
    f: u32,
    own: &[u32],
    homes: &mut [u32],
    holders: &mut [u32],
) -> bool
    requires f_bound { f < 32 }
    requires sound { Sound (says (shelf_file shelf.now f)) }
    requires own_value { own.now ≡ links_of (says (shelf_file shelf.now f)) }
    requires homes_in_bounds { (says (shelf_file shelf.now f)).fields ≤ length homes.old }
    requires holders_in_bounds { (says (shelf_file shelf.now f)).fields ≤ length holders.old }
    ensures { result ≡ field_links_fit (shelf_files shelf.now (f + 1)) (shelf_file shelf.now f) }
{
    let image = Image::read(shelf.image(f), shelf.pool(f));
    flat::list_fields(&Laid { image }, own, homes, holders);
    field_links_fit(shelf, f, homes, holders)
}

// The same, with room for the two lists in fixed memory. Arrays are cleared when they are made, so a file of few fields gets small ones.
fn all_field_links_fit(shelf: &Shelf, f: u32, own: &[u32]) -> bool
    requires f_bound { f < 32 }
    requires sound { Sound (says (shelf_file shelf.now f)) }
    requires own_value { own.now ≡ links_of (says (shelf_file shelf.now f)) }
    ensures { result ≡ field_links_fit (shelf_files shelf.now (f + 1)) (shelf_file shelf.now f) }
{
    if rows::Sections::read(shelf.image(f)).fields.count <= 128 {
        let mut homes = [0u32; 128];
        let mut holders = [0u32; 128];
        return listed_links_fit(shelf, f, own, &mut homes, &mut holders);
    }
    let mut homes = [0u32; 2048];
    let mut holders = [0u32; 2048];
    listed_links_fit(shelf, f, own, &mut homes, &mut holders)
}

// All link words of file `f`, whose image gives the link rows `own`.
#[tactic(auto, unfolding(crate::specs::LinkTests::links_fit))]
pub(crate) fn links_fit(shelf: &Shelf, f: u32, own: &[u32]) -> bool
    requires f_bound { f < 32 }
    requires sound { Sound (says (shelf_file shelf.now f)) }
    requires own_value { own.now ≡ links_of (says (shelf_file shelf.now f)) }
    ensures { result ≡ links_fit (shelf_files shelf.now (f + 1)) (shelf_file shelf.now f) }
{
    let file = shelf.file(f);
    let image = Image::read(file.image, file.pool);
    messages_given(&image, file.links, own)
        && others_given(&image, file.links, own)
        && marks_fit(&image, file.links)
        && all_field_links_fit(shelf, f, own)
}
