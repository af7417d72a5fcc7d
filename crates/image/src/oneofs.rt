// Oneofs: how many members each oneof of a message has, and which are synthetic. One pass over the regular fields counts for all of them.
ghost use Rattle.std.specs.Prelude.{◌≡◌, cond, ◌&&◌, eqb, length};
ghost use Rattle.lists.specs.Below.{bit};
ghost use Rattle.lists.specs.Lists.{table};
ghost use Rattle.image.specs.Words.{word_at};
ghost use Rattle.image.specs.Schema.{schema};
ghost use Rattle.image.specs.Members.{member_count, optional_members};
ghost use Rattle.image.specs.Counts.{Growable, Joined};

use crate::rows;
use crate::rows::Row;
use crate::schema::Image;

// Counts a field whose oneof word is `oneof`. The word is an index + 1, or 0 for none, and an index beyond the counts joins none.
fn join(counts: &mut [u32], oneof: u32)
    requires { Growable counts.old }
    ensures { Joined counts.old counts.new oneof }
{
    if oneof == 0 {
        return;
    }
    let k = (oneof - 1) as usize;
    if counts.len() <= k {
        return;
    }
    counts[k] += 1;
}

// The oneof word of a field row that is proto3_optional; 0, as for a field of no oneof, where it is not.
fn optional_oneof(field: &[u32]) -> u32
    ensures { result ≡ cond (eqb (word_at field.now 15) 1) (word_at field.now 14) 0 }
{
    if rows::word_at(field, 15) != 1 {
        return 0;
    }
    rows::word_at(field, 14)
}

// How many members each oneof of a message has, and how many of these are proto3_optional. The slices have a place for each oneof.
pub fn count_members(image: &Image, row: Row, members: &mut [u32], optionals: &mut [u32])
    ensures members_after { members.new ≡ table (length members.old) (member_count (schema image.now) row.0) }
    ensures optionals_after { optionals.new ≡ table (length optionals.old) (optional_members (schema image.now) row.0) }
{
    members.fill(0);
    optionals.fill(0);
    let g = image.rows.fields_of(row);
    for j in 0..g.count {
        let f = image.rows.nth_field(g, j);
        join(members, f[14]);
        join(optionals, optional_oneof(&f));
    }
}

// The synthetic mark of a oneof with so many members, of which so many are proto3_optional.
pub fn synthetic_mark(members: u32, optionals: u32) -> u32
    ensures { result ≡ bit (eqb members 1 && eqb optionals 1) }
{
    u32::from(members == 1 && optionals == 1)
}
