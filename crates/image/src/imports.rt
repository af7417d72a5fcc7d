// The name of a file, and the names of the files that it imports.
ghost use Rattle.std.specs.Prelude.{◌≡◌};
ghost use Rattle.image.specs.Schema.{schema};

use crate::rows;
use crate::rows::{Kind, Row};
use crate::schema::Image;

// The file's own name.
#[tactic(auto, unfolding(crate::specs::Schema::schema_in, crate::specs::Words::trailer_at))]
pub fn file_name<'p>(image: &Image<'_, 'p>) -> &'p [u8]
    ensures { result.now ≡ (schema image.now).file_name }
{
    image.text_at(rows::trailer_at(image.rows.words) + 1)
}

// The name of the file that an import row imports.
#[tactic(auto, unfolding(crate::specs::Schema::schema_in))]
pub fn import_name<'p>(image: &Image<'_, 'p>, row: Row) -> &'p [u8]
    ensures { result.now ≡ (schema image.now).import_name row.0 }
{
    image.name_of(Kind::Import, row)
}

// Whether an import row is public: its word 2, 0 or 1 in an image that is laid out.
#[tactic(auto, unfolding(crate::specs::Schema::schema_in))]
pub fn import_public(image: &Image, row: Row) -> u32
    ensures { result ≡ (schema image.now).import_public row.0 }
{
    rows::word_at(
        image.rows.words,
        image.rows.sections.row_at(Kind::Import, row) + 2,
    )
}
