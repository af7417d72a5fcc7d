// Rule 5: every text of an image by its byte rule.
ghost use Rattle.std.specs.Prelude.{◌≡◌, ◌<◌, ◌^◌};
ghost use Rattle.lists.specs.Below.{all_of};
ghost use Rattle.image.specs.Texts.{text_of, needs_type_name, type_name_right, extendee_right, default_right, field_texts, row_texts_right, kind_texts_right, file_text_tests, rows_text_tests, texts_right};

use crate::rows;
use crate::rows::{Kind, Row, Start};
use crate::schema::Image;
use names::bytes;

// The text whose start and length stand at word `at`, as far as the pool goes.
#[tactic(auto, unfolding(crate::specs::Texts::text_of))]
pub fn text_of<'a>(image: &[u32], pool: &'a [u8], at: usize) -> &'a [u8]
    ensures { result.now ≡ text_of image.now pool.now at }
{
    let t = rows::range_at(image, at);
    rows::part(pool, t.first as usize, t.count as usize)
}

// Whether a field of that type must have a type name.
pub fn needs_type_name(t: u32) -> bool
    ensures { result ≡ needs_type_name t }
{
    matches!(t, 10 | 11 | 14)
}

#[tactic(auto, unfolding(crate::specs::Texts::type_name_right))]
fn type_name_right(image: &Image, at: Start) -> bool
    ensures { result ≡ type_name_right image.now.rows.words.now image.now.pool.now at.first }
{
    !needs_type_name(rows::word_at(image.rows.words, at.word(4)))
        || bytes::is_type_name(image.text_at(at.word(5)))
}

#[tactic(auto, using(crate::proofs::TextLaws::length_empty), unfolding(crate::specs::Texts::extendee_right))]
fn extendee_right(image: &Image, at: Start) -> bool
    ensures { result ≡ extendee_right image.now.rows.words.now image.now.pool.now at.first }
{
    let t = image.text_at(at.word(7));
    t.is_empty() || bytes::is_type_name(t)
}

#[tactic(auto, unfolding(crate::specs::Texts::default_right))]
fn default_right(image: &Image, at: Start) -> bool
    ensures { result ≡ default_right image.now.rows.words.now image.now.pool.now at.first }
{
    rows::word_at(image.rows.words, at.word(11)) == 0
        || bytes::is_printable(image.text_at(at.word(12)))
}

fn field_texts_right(image: &Image, at: Start) -> bool
    ensures { result ≡ all_of (field_texts image.now.rows.words.now image.now.pool.now at.first) }
{
    bytes::is_identifier(image.text_at(at.first))
        && type_name_right(image, at)
        && extendee_right(image, at)
        && bytes::is_printable(image.text_at(at.word(9)))
        && default_right(image, at)
}

// The texts of the row of a kind that starts at word `at`.
#[tactic(auto, unfolding(crate::specs::Texts::row_texts_right))]
fn row_texts_right(image: &Image, kind: Kind, at: Start) -> bool
    ensures { result ≡ row_texts_right image.now.rows.words.now image.now.pool.now kind at.first }
{
    match kind {
        Kind::Import => bytes::is_file_name(image.text_at(at.first)),
        Kind::Message | Kind::Enum | Kind::Value | Kind::Oneof => bytes::is_identifier(
            image.text_at(at.first),
        ),
        Kind::Field => field_texts_right(image, at),
    }
}

// The texts of every row of a kind.
fn kind_texts_right(image: &Image, kind: Kind) -> bool
    ensures { result ≡ kind_texts_right image.now.rows.words.now image.now.rows.sections image.now.pool.now kind }
{
    let n = image.rows.sections.count_of(kind);
    (0..n).all(|r| {
        let at = Start {
            first: image.rows.sections.row_at(kind, Row(r)),
        };
        row_texts_right(image, kind, at)
    })
}

// The file name and the package.
#[tactic(auto, unfolding(crate::specs::Words::trailer_at))]
fn file_texts_right(image: &Image) -> bool
    ensures { result ≡ all_of (file_text_tests image.now.rows.words.now image.now.pool.now) }
{
    let at = rows::trailer_at(image.rows.words);
    bytes::is_file_name(image.text_at(at + 1)) && bytes::is_package(image.text_at(at + 3))
}

// The texts of every row.
fn rows_texts_right(image: &Image) -> bool
    ensures { result ≡ all_of (rows_text_tests image.now.rows.words.now image.now.rows.sections image.now.pool.now) }
{
    kind_texts_right(image, Kind::Import)
        && kind_texts_right(image, Kind::Message)
        && kind_texts_right(image, Kind::Enum)
        && kind_texts_right(image, Kind::Value)
        && kind_texts_right(image, Kind::Oneof)
        && kind_texts_right(image, Kind::Field)
}

// Rule 5: whether every text of an image meets its byte rule.
#[tactic(auto, unfolding(crate::specs::Texts::texts_right))]
pub fn are_texts_right(image: &[u32], pool: &[u8]) -> bool
    ensures { result ≡ texts_right image.now pool.now }
{
    let image = Image::read(image, pool);
    file_texts_right(&image) && rows_texts_right(&image)
}
