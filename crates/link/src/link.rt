// Linking one file onto a shelf: the refusals in their order, each phase a function, and the record. Only `write` touches lent words and bytes.
ghost use Rattle.std.specs.Prelude.{◌≡◌, [], ◌∷◌, ◌++◌, ◌&&◌, ◌+◌, ◌*◌, ◌≤◌, ◌<◌, leb, eqb, length, take, Ok};
ghost use Rattle.lists.specs.Below.{bit};
ghost use Rattle.lists.specs.Splice.{splice};
ghost use Rattle.image.specs.Schema.{schema_of};
ghost use Rattle.image.specs.Laid.{Sound};
ghost use Rattle.image.specs.Links.{link_words, links_of, message_link_width, enum_link_width, oneof_link_width};
ghost use Rattle.image.specs.Record.{field_link_width, end_words, record_words};
ghost use Rattle.image.specs.Shelf.{file_limit, used_with};
ghost use Rattle.image.specs.Verdict.{first};
ghost use Rattle.image.specs.Judge.{naming_lines, opening};
ghost use Rattle.link.specs.Chain.{no_chain};
ghost use Rattle.link.specs.Refusals.{shelved_files, length_lines, import_lines, new_file, new_record, room_lines};
ghost use Rattle.link.specs.Link.{outcome, linked};
ghost use Rattle.link.specs.Phases.{call_of, call_to, from_fields, from_name, from_opening, Standing, RoomForLinks, new_fields, marked_to};

use crate::is_initialized_is_always_true::compute_marks;
use crate::sight::Scope;
use crate::{fds, file_index, judge, put};
use image::rows::Sections;
use image::schema::Image;
use image::shelf::{File, Places, Shelf, Used};
use image::verdict::{Refusal, Refused, Verdict};
use image::{judge as image_judge, links as link_rows, well_formed};

// The three numbers behind the new record; or a refusal with its place.
pub type Linked = Result<Used, Refused>;

// What is to be linked: an image and its pool, behind so much that is used.
#[derive(Clone, Copy)]
struct New<'a> {
    used: Used,
    image: &'a [u32],
    pool: &'a [u8],
}

// The two words of a mark, by a message's distance.
fn mark_words(distance: u32) -> [u32; 2]
    ensures { result ≡ bit (eqb distance no_chain) ∷ distance ∷ [] }
{
    [u32::from(distance == u32::MAX), distance]
}

// Writes the marks of the first `n` messages into their link rows.
fn put_marks(links: &mut [u32], n: u32, d: [u32; 256])
    requires n_bound { n ≤ 256 }
    requires n_in_bounds { n * 10 ≤ length links.old }
    ensures { links.new ≡ marked_to d n links.old }
{
    for m in 0..n {
        let mark = mark_words(d[m as usize]);
        put::put(links, m as usize * link_rows::MESSAGE_LINK + 8, &mark);
    }
}

// The last words of a record.
fn end_words(used: Used, image: &[u32], pool: &[u8]) -> [u32; 8]
    requires image_len_bound { length image.now ≤ 65536 }
    requires pool_len_bound { length pool.now ≤ 32768 }
    ensures { result ≡ end_words (record { image = image.now; pool = pool.now; links = [] }) used.words used.bytes }
{
    let s = Sections::read(image);
    [
        used.words,
        image.len() as u32,
        used.bytes,
        pool.len() as u32,
        s.messages.count,
        s.enums.count,
        s.oneofs.count,
        s.fields.count,
    ]
}

// Writes the record behind the used words and the pool behind the used bytes. Only here is lent memory written.
fn write(
    words: &mut [u32],
    bytes: &mut [u8],
    used: Used,
    image: &[u32],
    pool: &[u8],
    front: &[u32],
    fields: &[u32],
)
    requires image_len_bound { length image.now ≤ 65536 }
    requires pool_len_bound { length pool.now ≤ 32768 }
    requires fields_in_bounds { used.words + (length image.now + (length front.now + (length fields.now + 8))) ≤ length words.old }
    requires pool_in_bounds { used.bytes + length pool.now ≤ length bytes.old }
    ensures words_after { words.new ≡ splice words.old used.words (record_words (record { image = image.now; pool = pool.now; links = front.now ++ fields.now }) used.words used.bytes) }
    ensures bytes_after { bytes.new ≡ splice bytes.old used.bytes pool.now }
{
    let end = end_words(used, image, pool);
    let w = used.words as usize;
    let f = w + image.len();
    let k = f + front.len();
    let e = k + fields.len();
    put::put(words, w, image);
    put::put(words, f, front);
    put::put(words, k, fields);
    put::put(words, e, &end);
    put::put(bytes, used.bytes as usize, pool);
}

// How many words the link rows of fields have.
fn field_words(s: &Sections) -> usize
    ensures { result ≡ s.now.fields.count * field_link_width }
{
    s.fields.count as usize * link_rows::FIELD_LINK
}

// 18: no room for the record or the pool.
fn judge_room(shelf: &Shelf, new: &New) -> Verdict
    requires lengths { first (length_lines (call_to shelf.now.words.now shelf.now.bytes.now new.now)) ≡ Ok tt }
    requires sound { Sound (schema_of new.now.image.now new.now.pool.now) }
    ensures { result ≡ first (room_lines (call_to shelf.now.words.now shelf.now.bytes.now new.now)) }
{
    let s = Sections::read(new.image);
    let n = link_rows::link_words(s);
    let k = field_words(&s);
    if shelf.words.len() < new.used.words as usize + (new.image.len() + (n + (k + 8))) {
        return Err(Refusal::NoRoom.at(0));
    }
    if shelf.bytes.len() < new.used.bytes as usize + new.pool.len() {
        return Err(Refusal::NoRoom.at(0));
    }
    Ok(())
}

// 12 to 18. The link rows of fields go into the front of `rows`.
fn judge_fields(shelf: &Shelf, new: &New, links: &[u32], rows: &mut [u32]) -> Verdict
    requires standing { Standing (call_to shelf.now.words.now shelf.now.bytes.now new.now) shelf.now.places }
    requires opening { opening new.now.image.now new.now.pool.now (leb file_limit new.now.used.files) ≡ Ok tt }
    requires imports { first (import_lines (shelved_files (call_to shelf.now.words.now shelf.now.bytes.now new.now)) (schema_of new.now.image.now new.now.pool.now)) ≡ Ok tt }
    requires links_value { links.now ≡ links_of (schema_of new.now.image.now new.now.pool.now) }
    requires fields_in_bounds { (schema_of new.now.image.now new.now.pool.now).fields * field_link_width ≤ length rows.old }
    ensures value { result ≡ first (from_fields (call_to shelf.now.words.now shelf.now.bytes.now new.now)) }
    ensures rows_after { result ≡ Ok tt → rows.new ≡ splice rows.old 0 (new_fields (call_to shelf.now.words.now shelf.now.bytes.now new.now)) }
{
    let n = new.used.files;
    let scope = Scope {
        shelf: *shelf,
        n,
        own: File {
            image: new.image,
            pool: new.pool,
            links,
        },
        list: fds::search_list(shelf, n, &Image::read(new.image, new.pool)),
    };
    file_index::index_file(&scope, rows)?;
    judge_room(shelf, new)
}

// 6 to 18, of an image whose verdict of 8 to 11 is known.
fn judge_seen(shelf: &Shelf, new: &New, naming: Verdict, links: &[u32], rows: &mut [u32]) -> Verdict
    requires standing { Standing (call_to shelf.now.words.now shelf.now.bytes.now new.now) shelf.now.places }
    requires opening { opening new.now.image.now new.now.pool.now (leb file_limit new.now.used.files) ≡ Ok tt }
    requires naming_value { naming ≡ first (naming_lines (schema_of new.now.image.now new.now.pool.now) (links_of (schema_of new.now.image.now new.now.pool.now))) }
    requires links_value { links.now ≡ links_of (schema_of new.now.image.now new.now.pool.now) }
    requires fields_in_bounds { (schema_of new.now.image.now new.now.pool.now).fields * field_link_width ≤ length rows.old }
    ensures value { result ≡ first (from_name (call_to shelf.now.words.now shelf.now.bytes.now new.now)) }
    ensures rows_after { result ≡ Ok tt → rows.new ≡ splice rows.old 0 (new_fields (call_to shelf.now.words.now shelf.now.bytes.now new.now)) }
{
    let image = Image::read(new.image, new.pool);
    judge::judge_name(shelf, new.used.files, &image)?;
    judge::judge_imports(shelf, new.used.files, &image)?;
    naming?;
    judge_fields(shelf, new, links, rows)
}

// 3 to 18. The image's own link rows go into the front of `links`, those of fields into that of `rows`.
fn judge_opened(shelf: &Shelf, new: &New, links: &mut [u32], rows: &mut [u32]) -> Verdict
    requires standing { Standing (call_to shelf.now.words.now shelf.now.bytes.now new.now) shelf.now.places }
    requires room_for_links { RoomForLinks (call_to shelf.now.words.now shelf.now.bytes.now new.now) (length links.old) (length rows.old) }
    ensures value { result ≡ first (from_opening (call_to shelf.now.words.now shelf.now.bytes.now new.now)) }
    ensures links_after { result ≡ Ok tt → take (link_words (schema_of new.now.image.now new.now.pool.now)) links.new ≡ links_of (schema_of new.now.image.now new.now.pool.now) }
    ensures rows_after { result ≡ Ok tt → rows.new ≡ splice rows.old 0 (new_fields (call_to shelf.now.words.now shelf.now.bytes.now new.now)) }
{
    let naming = image_judge::judge_image(new.image, new.pool, 32 <= new.used.files, links)?;
    let n = link_rows::link_words(Sections::read(new.image));
    judge_seen(shelf, new, naming, &links[..n], rows)
}

// The three numbers behind a record with so many link words.
fn used_after(used: Used, image: &[u32], pool: &[u8], links: usize) -> Used
    requires words_bound { used.words + (length image.now + (links + 8)) ≤ 262144 }
    requires bytes_bound { used.bytes + length pool.now ≤ 131072 }
    requires files_bound { used.files < 32 }
    ensures { result ≡ record { words = used.words + (length image.now + (links + 8)); bytes = used.bytes + length pool.now; files = used.files + 1 } }
{
    let size = image.len() + (links + 8);
    Used {
        words: used.words + size as u32,
        bytes: used.bytes + pool.len() as u32,
        files: used.files + 1,
    }
}

// Writes the record of a file that draws no refusal: `links` and `rows` begin with its link rows, but for the marks.
fn accept(
    words: &mut [u32],
    bytes: &mut [u8],
    places: Places,
    new: &New,
    links: &mut [u32],
    rows: &[u32],
) -> Used
    requires standing { Standing (call_to words.old bytes.old new.now) places }
    requires passed { first (from_opening (call_to words.old bytes.old new.now)) ≡ Ok tt }
    requires room_for_links { RoomForLinks (call_to words.old bytes.old new.now) (length links.old) (length rows.now) }
    requires links_value { take (link_words (schema_of new.now.image.now new.now.pool.now)) links.old ≡ links_of (schema_of new.now.image.now new.now.pool.now) }
    requires rows_value { take ((schema_of new.now.image.now new.now.pool.now).fields * field_link_width) rows.now ≡ new_fields (call_to words.old bytes.old new.now) }
    ensures value { result ≡ used_with new.now.used (new_file (call_to words.old bytes.old new.now)) }
    ensures words_after { words.new ≡ splice words.old new.now.used.words (new_record (call_to words.old bytes.old new.now)) }
    ensures bytes_after { bytes.new ≡ splice bytes.old new.now.used.bytes new.now.pool.now }
{
    let s = Sections::read(new.image);
    let n = link_rows::link_words(s);
    let k = field_words(&s);
    let shelf = Shelf {
        words,
        bytes,
        places,
    };
    let own = File {
        image: new.image,
        pool: new.pool,
        links: &links[..n],
    };
    let d = compute_marks(&shelf, new.used.files, &own, &rows[..k]);
    put_marks(links, s.messages.count, d);
    write(
        words,
        bytes,
        new.used,
        new.image,
        new.pool,
        &links[..n],
        &rows[..k],
    );
    used_after(new.used, new.image, new.pool, n + k)
}

// Links onto a shelf that is well formed. `links` and `rows` are scratch.
fn link_in(
    words: &mut [u32],
    bytes: &mut [u8],
    places: Places,
    new: &New,
    links: &mut [u32],
    rows: &mut [u32],
) -> Linked
    requires standing { Standing (call_to words.old bytes.old new.now) places }
    requires room_for_links { RoomForLinks (call_to words.old bytes.old new.now) (length links.old) (length rows.old) }
    ensures { record { answer = result; words = words.new; bytes = bytes.new } ≡ outcome (call_to words.old bytes.old new.now) (first (from_opening (call_to words.old bytes.old new.now))) }
{
    let shelf = Shelf {
        words,
        bytes,
        places,
    };
    judge_opened(&shelf, new, links, rows)?;
    Ok(accept(words, bytes, places, new, links, rows))
}

// Whether the link rows of an image are few: at most 512 words, and at most 128 rows of fields.
fn has_few_links(s: &Sections) -> bool
    ensures { result ≡ leb (s.now.messages.count * message_link_width + (s.now.enums.count * enum_link_width + s.now.oneofs.count * oneof_link_width)) 512 && leb s.now.fields.count 128 }
{
    link_rows::link_words(*s) <= 512 && s.fields.count <= 128
}

// Links onto a shelf that is well formed. Scratch is fixed memory and cleared before it is used, so a file with few rows gets little of it.
fn link_shelved(words: &mut [u32], bytes: &mut [u8], places: Places, new: &New) -> Linked
    requires { Standing (call_to words.old bytes.old new.now) places }
    ensures { record { answer = result; words = words.new; bytes = bytes.new } ≡ outcome (call_to words.old bytes.old new.now) (first (from_opening (call_to words.old bytes.old new.now))) }
{
    if has_few_links(&Sections::read(new.image)) {
        let mut links = [0u32; 512];
        let mut rows = [0u32; 2048];
        return link_in(words, bytes, places, new, &mut links, &mut rows);
    }
    let mut links = [0u32; 4096];
    let mut rows = [0u32; 32768];
    link_in(words, bytes, places, new, &mut links, &mut rows)
}

// Links a file onto a shelf.
pub fn link(words: &mut [u32], bytes: &mut [u8], used: Used, image: &[u32], pool: &[u8]) -> Linked
    ensures { record { answer = result; words = words.new; bytes = bytes.new } ≡ linked (call_of words.old bytes.old used image.now pool.now) }
{
    judge::judge_lengths(words, bytes, used, image, pool)?;
    let Some(places) = well_formed::read_shelf(words, bytes, used) else {
        return Err(Refusal::ShelfBroken.at(0));
    };
    let new = New { used, image, pool };
    link_shelved(words, bytes, places, &new)
}
