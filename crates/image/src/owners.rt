// Rule 3, owners: every row but an import has exactly one. A byte for each row of a section counts the owners seen so far, so that
// the work is linear in the rows, whatever the image says.
ghost use Rattle.std.specs.Prelude.{◌≡◌, ◌+◌, ◌≤◌, eqb, length, get_or};
ghost use Rattle.lists.specs.Below.{bit, all_below, count_below};
ghost use Rattle.image.specs.Words.{range_at, section_of, row_at, fields_of, extensions_of, top_level};
ghost use Rattle.image.specs.Layout.{covers, holders, owned_once};
ghost use Rattle.image.specs.Marks.{Marked, Held, Ranged, Roomy};
ghost use Rattle.image.specs.declared.rows.Kind.TheVariants.{Message};

use crate::rows;
use crate::rows::{Kind, Range, Row, Rows};

// Marks the rows of a range, and stops at one that was marked before.
fn mark_range(marks: &mut [u8], g: Range) -> bool
    requires { g.first + g.count ≤ length marks.old }
    ensures { Marked result marks.old marks.new (λ j. bit (covers g j)) }
{
    let first = g.first as usize;
    for k in 0..g.count as usize {
        if marks[first + k] != 0 {
            return false;
        }
        marks[first + k] = 1;
    }
    true
}

// Marks the rows of the range that stands at an offset of each row of a kind.
fn mark_held(image: &Rows, kind: Kind, offset: u8, marks: &mut [u8]) -> bool
    requires { Held image.now.words.now image.now.sections kind offset (length marks.old) }
    ensures { Marked result marks.old marks.new (λ j. count_below (section_of image.now.sections kind).count (λ p. covers (range_at image.now.words.now (row_at image.now.sections kind p + offset)) j)) }
{
    for p in 0..image.sections.count_of(kind) {
        let at = image.sections.row_at(kind, Row(p)) + offset as usize;
        if !mark_range(marks, rows::range_at(image.words, at)) {
            return false;
        }
    }
    true
}

// Whether each row has one mark.
fn all_marked(marks: &[u8]) -> bool
    ensures { result ≡ all_below (length marks.now) (λ j. eqb (get_or marks.now j 0) 1) }
{
    marks.iter().all(|&mark| mark == 1)
}

// The first `count` rows.
fn from_first(count: u32) -> Range
    ensures { result ≡ top_level count }
{
    Range { first: 0, count }
}

// Whether each row has one owner: the file, which owns the range `own`, or a row of a kind, which owns the range at an offset of it.
fn owned(image: &Rows, own: Range, kind: Kind, offset: u8, marks: &mut [u8]) -> bool
    requires count_in_bounds { own.first + own.count ≤ length marks.old }
    requires held { Held image.now.words.now image.now.sections kind offset (length marks.old) }
    ensures { result ≡ all_below (length marks.old) (λ j. eqb (bit (covers own j) + count_below (section_of image.now.sections kind).count (λ p. covers (range_at image.now.words.now (row_at image.now.sections kind p + offset)) j)) 1) }
{
    marks.fill(0);
    mark_range(marks, own) && mark_held(image, kind, offset, marks) && all_marked(marks)
}

// The same of fields, of which a message owns two ranges: its fields and its extensions.
fn fields_owned(image: &Rows, own: Range, marks: &mut [u8]) -> bool
    requires count_in_bounds { own.first + own.count ≤ length marks.old }
    requires held { Held image.now.words.now image.now.sections Message 6 (length marks.old) }
    requires held_2 { Held image.now.words.now image.now.sections Message 8 (length marks.old) }
    ensures { result ≡ all_below (length marks.old) (λ j. eqb (bit (covers own j) + holders image.now.sections (fields_of image.now.words.now image.now.sections) j + holders image.now.sections (extensions_of image.now.words.now image.now.sections) j) 1) }
{
    marks.fill(0);
    mark_range(marks, own)
        && mark_held(image, Kind::Message, 6, marks)
        && mark_held(image, Kind::Message, 8, marks)
        && all_marked(marks)
}

// Whether every row of a kind has exactly one owner; imports have none. `pool` is the length of the pool that the image was judged with; `marks` is
// lent to write in.
pub(crate) fn owned_once(image: &Rows, kind: Kind, pool: usize, marks: &mut [u8]) -> bool
    requires ranged { Ranged image.now.words.now image.now.sections pool }
    requires roomy { Roomy image.now.sections (length marks.old) }
    ensures { result ≡ owned_once image.now.words.now image.now.sections kind }
{
    let n = image.sections.count_of(kind) as usize;
    match kind {
        Kind::Import => n == 0,
        Kind::Message => {
            let top = from_first(rows::trailer_word(image.words, 18));
            owned(image, top, Kind::Message, 2, &mut marks[..n])
        }
        Kind::Enum => {
            let top = from_first(rows::trailer_word(image.words, 19));
            owned(image, top, Kind::Message, 4, &mut marks[..n])
        }
        Kind::Value => owned(image, from_first(0), Kind::Enum, 2, &mut marks[..n]),
        Kind::Oneof => owned(image, from_first(0), Kind::Message, 10, &mut marks[..n]),
        Kind::Field => {
            let own = rows::file_extensions(image.words);
            fields_owned(image, own, &mut marks[..n])
        }
    }
}
