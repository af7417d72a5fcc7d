// An image with the pool of its texts: what the rules of names, fields, enums and oneofs read. Words and pool are lent each for its own time, and a
// name is a part of the pool alone.
ghost use Rattle.std.specs.Prelude.{◌≡◌};
ghost use Rattle.image.specs.Words.{row_at, sections_of};
ghost use Rattle.image.specs.Texts.{text_of};
ghost use Rattle.image.specs.Schema.{schema};
ghost use Rattle.image.specs.Laid.{Sound};

use crate::rows::{Kind, Row, Rows};
use crate::texts;

#[derive(Clone, Copy)]
pub struct Image<'w, 'p> {
    pub rows: Rows<'w>,
    pub pool: &'p [u8],
}

impl<'w, 'p> Image<'w, 'p> {
    // The words of an image with the sections that its trailer tells, and its pool.
    pub fn read(words: &'w [u32], pool: &'p [u8]) -> Image<'w, 'p>
        ensures { result ≡ record { rows = record { words = words.entry; sections = sections_of words.now }; pool = pool.entry } }
    {
        Image {
            rows: Rows::read(words),
            pool,
        }
    }

    // The text whose start and length stand at word `at`, as far as the pool goes.
    pub fn text_at(&self, at: usize) -> &'p [u8]
        ensures { result.now ≡ text_of self.now.rows.words.now self.now.pool.now at }
    {
        texts::text_of(self.rows.words, self.pool, at)
    }

    // The text that a row of a kind starts with: its name, or an import's file name.
    pub fn name_of(&self, kind: Kind, row: Row) -> &'p [u8]
        ensures { result.now ≡ text_of self.now.rows.words.now self.now.pool.now (row_at self.now.rows.sections kind row.0) }
    {
        self.text_at(self.rows.sections.row_at(kind, row))
    }
}

// An image that can be numbered: it is laid out, and its counts and nesting are within their limits.
#[derive(Clone, Copy)]
pub(crate) struct Laid<'w, 'p> {
    pub(crate) image: Image<'w, 'p>,
    ghost sound: { Sound (schema image) },
}
