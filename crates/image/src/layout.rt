// Rule 3: whether an image is laid out as it should be.
ghost use Rattle.std.specs.Prelude.{◌≡◌, ◌||◌, ◌+◌, ◌<◌, ◌^◌, eqb, leb, ltb, length};
ghost use Rattle.lists.specs.Below.{all_of};
ghost use Rattle.lists.specs.Lists.{between};
ghost use Rattle.image.specs.Words.{word_at};
ghost use Rattle.image.specs.Layout.{text_fits, range_fits, trailer_fits, follows, sections_follow, file_ranges_fit, frame_fits, import_tests, message_tests, enum_tests, field_tests, row_fits, rows_fit, all_rows_fit, all_owned, parents_lower, laid_out_within_limit};
ghost use Rattle.image.specs.Marks.{Ranged, Roomy, rows_within};

use crate::rows::{Kind, Range, Row, Rows, Sections, Start};
use crate::{owners, rows};

// Whether a + b is at most `limit`, whatever the two are.
fn sum_within(a: u32, b: u32, limit: usize) -> bool
    ensures { result ≡ leb (a + b) limit }
{
    a as usize + b as usize <= limit
}

// Whether the text whose start and length stand at word `at` lies in the pool.
fn text_fits(image: &[u32], pool: usize, at: usize) -> bool
    ensures { result ≡ text_fits image.now pool at }
{
    let t = rows::range_at(image, at);
    sum_within(t.first, t.count, pool)
}

// Whether a range lies in a section of `count` rows, and has first row 0 where it is empty.
fn range_fits(count: u32, g: Range) -> bool
    ensures { result ≡ range_fits count g }
{
    sum_within(g.first, g.count, count as usize) && (g.count != 0 || g.first == 0)
}

// Whether word `at` is one from `lo` to `hi`.
fn is_between(image: &[u32], at: usize, lo: u32, hi: u32) -> bool
    ensures { result ≡ between lo hi (word_at image.now at) }
{
    (lo..=hi).contains(&rows::word_at(image, at))
}

// Whether a row stands before a range of rows, or the range is empty.
fn stands_lower(row: u32, g: Range) -> bool
    ensures { result ≡ eqb g.count 0 || ltb row g.first }
{
    g.count == 0 || row < g.first
}

// Whether the trailer that starts at word `at` meets its conditions.
#[tactic(auto, unfolding(crate::specs::Layout::trailer_fits))]
fn trailer_fits(image: &[u32], pool: usize, at: Start) -> bool
    ensures { result ≡ trailer_fits image.now pool at.first }
{
    rows::word_at(image, at.first) == 1
        && is_between(image, at.word(5), 2, 3)
        && rows::word_at(image, at.word(22)) as usize == pool
        && rows::word_at(image, at.word(23)) as usize == at.first
        && text_fits(image, pool, at.word(1))
        && text_fits(image, pool, at.word(3))
}

// Whether the section of a kind starts where that of another ends.
#[tactic(auto, unfolding(crate::specs::Layout::follows))]
fn follows(s: &Sections, before: Kind, after: Kind) -> bool
    ensures { result ≡ follows s.now before after }
{
    s.start_of(after) as usize == s.section_end(before)
}

// Sections follow without gap from word 0 up to the trailer.
#[tactic(auto, unfolding(crate::specs::Layout::sections_follow))]
fn sections_follow(image: &Rows) -> bool
    ensures { result ≡ sections_follow image.now.words.now image.now.sections }
{
    let s = &image.sections;
    s.start_of(Kind::Import) == 0
        && follows(s, Kind::Import, Kind::Message)
        && follows(s, Kind::Message, Kind::Enum)
        && follows(s, Kind::Enum, Kind::Value)
        && follows(s, Kind::Value, Kind::Oneof)
        && follows(s, Kind::Oneof, Kind::Field)
        && rows::trailer_at(image.words) == s.section_end(Kind::Field)
}

// The ranges of rows that the file owns itself.
#[tactic(auto, unfolding(crate::specs::Layout::file_ranges_fit))]
fn file_ranges_fit(image: &Rows) -> bool
    ensures { result ≡ file_ranges_fit image.now.words.now image.now.sections }
{
    rows::trailer_word(image.words, 18) <= image.sections.messages.count
        && rows::trailer_word(image.words, 19) <= image.sections.enums.count
        && range_fits(
            image.sections.fields.count,
            rows::file_extensions(image.words),
        )
}

fn import_fits(image: &[u32], pool: usize, at: Start) -> bool
    ensures { result ≡ all_of (import_tests image.now pool at.first) }
{
    text_fits(image, pool, at.first) && is_between(image, at.word(2), 0, 1)
}

fn message_fits(image: &Rows, pool: usize, at: Start) -> bool
    ensures { result ≡ all_of (message_tests image.now.words.now image.now.sections pool at.first) }
{
    let s = &image.sections;
    text_fits(image.words, pool, at.first)
        && range_fits(s.messages.count, rows::range_at(image.words, at.word(2)))
        && range_fits(s.enums.count, rows::range_at(image.words, at.word(4)))
        && range_fits(s.fields.count, rows::range_at(image.words, at.word(6)))
        && range_fits(s.fields.count, rows::range_at(image.words, at.word(8)))
        && range_fits(s.oneofs.count, rows::range_at(image.words, at.word(10)))
        && is_between(image.words, at.word(13), 0, 1)
}

fn enum_fits(image: &Rows, pool: usize, at: Start) -> bool
    ensures { result ≡ all_of (enum_tests image.now.words.now image.now.sections pool at.first) }
{
    text_fits(image.words, pool, at.first)
        && range_fits(
            image.sections.values.count,
            rows::range_at(image.words, at.word(2)),
        )
}

fn field_fits(image: &[u32], pool: usize, at: Start) -> bool
    ensures { result ≡ all_of (field_tests image.now pool at.first) }
{
    text_fits(image, pool, at.first)
        && is_between(image, at.word(3), 1, 3)
        && is_between(image, at.word(4), 1, 18)
        && text_fits(image, pool, at.word(5))
        && text_fits(image, pool, at.word(7))
        && text_fits(image, pool, at.word(9))
        && is_between(image, at.word(11), 0, 1)
        && text_fits(image, pool, at.word(12))
        && is_between(image, at.word(15), 0, 1)
}

// Whether the row of a kind that starts at word `at` meets its conditions.
#[tactic(auto, unfolding(crate::specs::Layout::row_fits))]
fn row_fits(image: &Rows, pool: usize, kind: Kind, at: Start) -> bool
    ensures { result ≡ row_fits image.now.words.now image.now.sections pool kind at.first }
{
    match kind {
        Kind::Import => import_fits(image.words, pool, at),
        Kind::Message => message_fits(image, pool, at),
        Kind::Enum => enum_fits(image, pool, at),
        Kind::Value | Kind::Oneof => text_fits(image.words, pool, at.first),
        Kind::Field => field_fits(image.words, pool, at),
    }
}

// Whether every row of a kind meets its conditions.
fn rows_fit(image: &Rows, pool: usize, kind: Kind) -> bool
    ensures { result ≡ rows_fit image.now.words.now image.now.sections pool kind }
{
    let n = image.sections.count_of(kind);
    (0..n).all(|r| {
        let at = Start {
            first: image.sections.row_at(kind, Row(r)),
        };
        row_fits(image, pool, kind, at)
    })
}

// Whether nested messages stand on higher rows than their parent.
fn parents_lower(image: &Rows) -> bool
    ensures { result ≡ parents_lower image.now.words.now image.now.sections }
{
    let n = image.sections.messages.count;
    (0..n).all(|r| stands_lower(r, image.nested_messages(Row(r))))
}

// Whether every row meets its conditions.
#[tactic(auto, unfolding(crate::specs::Layout::all_rows_fit))]
fn all_rows_fit(image: &Rows, pool: usize) -> bool
    ensures { result ≡ all_rows_fit image.now.words.now pool image.now.sections }
{
    rows_fit(image, pool, Kind::Import)
        && rows_fit(image, pool, Kind::Message)
        && rows_fit(image, pool, Kind::Enum)
        && rows_fit(image, pool, Kind::Value)
        && rows_fit(image, pool, Kind::Oneof)
        && rows_fit(image, pool, Kind::Field)
}

// Whether every row but an import has exactly one owner, and parents stand lower than what is nested in them.
#[tactic(auto, unfolding(crate::specs::Layout::all_owned))]
fn all_owned(image: &Rows, pool: usize, marks: &mut [u8]) -> bool
    requires ranged { Ranged image.now.words.now image.now.sections pool }
    requires roomy { Roomy image.now.sections (length marks.old) }
    ensures { result ≡ all_owned image.now.words.now image.now.sections }
{
    owners::owned_once(image, Kind::Message, pool, marks)
        && owners::owned_once(image, Kind::Enum, pool, marks)
        && owners::owned_once(image, Kind::Value, pool, marks)
        && owners::owned_once(image, Kind::Oneof, pool, marks)
        && owners::owned_once(image, Kind::Field, pool, marks)
        && parents_lower(image)
}

// Whether the trailer and the sections that it tells of are in order.
#[tactic(auto, unfolding(crate::specs::Layout::frame_fits, crate::specs::Words::trailer_at))]
fn frame_fits(image: &Rows, pool: usize) -> bool
    ensures { result ≡ frame_fits image.now.words.now pool image.now.sections }
{
    let at = Start {
        first: rows::trailer_at(image.words),
    };
    24 <= image.words.len()
        && trailer_fits(image.words, pool, at)
        && sections_follow(image)
        && file_ranges_fit(image)
}

// Whether no section has more than `limit` rows.
#[tactic(auto, unfolding(crate::specs::Marks::rows_within))]
fn rows_within(s: &Sections, limit: u32) -> bool
    ensures { result ≡ rows_within s.now limit }
{
    s.imports.count <= limit
        && s.messages.count <= limit
        && s.enums.count <= limit
        && s.values.count <= limit
        && s.oneofs.count <= limit
        && s.fields.count <= limit
}

// Rule 3: whether an image, within its limit of words, is laid out as it should be. `pool` is the length of the pool that is lent with it.
// Marks stand in fixed memory and are cleared when they are made, so an image of few rows gets few of them.
pub fn is_laid_out(image: &[u32], pool: usize) -> bool
    ensures { result ≡ laid_out_within_limit image.now pool }
{
    if 65536 < image.len() {
        return false;
    }
    let rows = Rows::read(image);
    if !frame_fits(&rows, pool) {
        return false;
    }
    if !all_rows_fit(&rows, pool) {
        return false;
    }
    if rows_within(&rows.sections, 512) {
        let mut few = [0u8; 512];
        return all_owned(&rows, pool, &mut few);
    }
    let mut marks = [0u8; 32768];
    all_owned(&rows, pool, &mut marks)
}
