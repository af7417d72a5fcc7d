// Rule 4: how many rows of each kind an image has, and how long its texts are.
ghost use Rattle.std.specs.Prelude.{◌≡◌, ◌<◌, ◌^◌};
ghost use Rattle.lists.specs.Below.{all_of};
ghost use Rattle.image.specs.Limits.{counts_within, text_short, type_name_short, default_short, field_lengths, row_texts_short, kind_texts_short, texts_short};

use crate::rows::{Kind, Row, Sections, Start};
use crate::schema::Image;
use crate::{rows, texts};

// Whether there are at most so many rows of each kind.
#[tactic(auto, unfolding(crate::specs::Limits::counts_within))]
pub fn counts_within(s: Sections) -> bool
    ensures { result ≡ counts_within s }
{
    s.imports.count <= 32
        && s.messages.count <= 256
        && s.enums.count <= 256
        && s.values.count <= 4096
        && s.oneofs.count <= 256
        && s.fields.count <= 2048
}

// Whether the text whose start and length stand at word `at` has at most `limit` bytes.
fn text_short(image: &Image, limit: usize, at: usize) -> bool
    ensures { result ≡ text_short image.now.rows.words.now image.now.pool.now limit at }
{
    image.text_at(at).len() <= limit
}

#[tactic(auto, unfolding(crate::specs::Limits::type_name_short))]
fn type_name_short(image: &Image, at: Start) -> bool
    ensures { result ≡ type_name_short image.now.rows.words.now image.now.pool.now at.first }
{
    !texts::needs_type_name(rows::word_at(image.rows.words, at.word(4)))
        || text_short(image, 512, at.word(5))
}

#[tactic(auto, unfolding(crate::specs::Limits::default_short))]
fn default_short(image: &Image, at: Start) -> bool
    ensures { result ≡ default_short image.now.rows.words.now image.now.pool.now at.first }
{
    rows::word_at(image.rows.words, at.word(11)) == 0 || text_short(image, 256, at.word(12))
}

fn field_texts_short(image: &Image, at: Start) -> bool
    ensures { result ≡ all_of (field_lengths image.now.rows.words.now image.now.pool.now at.first) }
{
    text_short(image, 64, at.first)
        && type_name_short(image, at)
        && text_short(image, 512, at.word(7))
        && text_short(image, 64, at.word(9))
        && default_short(image, at)
}

// The texts of the row of a kind that starts at word `at`.
#[tactic(auto, unfolding(crate::specs::Limits::row_texts_short))]
fn row_texts_short(image: &Image, kind: Kind, at: Start) -> bool
    ensures { result ≡ row_texts_short image.now.rows.words.now image.now.pool.now kind at.first }
{
    match kind {
        Kind::Import => text_short(image, 128, at.first),
        Kind::Message | Kind::Enum | Kind::Value | Kind::Oneof => text_short(image, 64, at.first),
        Kind::Field => field_texts_short(image, at),
    }
}

// The texts of every row of a kind.
fn kind_texts_short(image: &Image, kind: Kind) -> bool
    ensures { result ≡ kind_texts_short image.now.rows.words.now image.now.rows.sections image.now.pool.now kind }
{
    let n = image.rows.sections.count_of(kind);
    (0..n).all(|r| {
        let at = Start {
            first: image.rows.sections.row_at(kind, Row(r)),
        };
        row_texts_short(image, kind, at)
    })
}

// Whether every text of an image is as short as it must be.
#[tactic(auto, unfolding(crate::specs::Limits::texts_short, crate::specs::Words::trailer_at))]
pub fn texts_short(image: &Image) -> bool
    ensures { result ≡ texts_short image.now.rows.words.now image.now.rows.sections image.now.pool.now }
{
    let at = rows::trailer_at(image.rows.words);
    text_short(image, 128, at + 1)
        && text_short(image, 128, at + 3)
        && kind_texts_short(image, Kind::Import)
        && kind_texts_short(image, Kind::Message)
        && kind_texts_short(image, Kind::Enum)
        && kind_texts_short(image, Kind::Value)
        && kind_texts_short(image, Kind::Oneof)
        && kind_texts_short(image, Kind::Field)
}
