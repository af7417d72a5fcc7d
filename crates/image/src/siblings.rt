// Rule 8: whether two messages or enums share a full name. Names have no dots, and enclosing words lead up to the top level, so two that
// share a full name have a pair above them, or are one themselves, that stands in the same place with the same own name: it is enough
// to compare siblings. Marks are looked at before that, so that few are compared at all.
ghost use Rattle.std.specs.Prelude.{◌≡◌, ◌&&◌, ◌<◌, eqb, length};
ghost use Rattle.lists.specs.Below.{any_below};
ghost use Rattle.lists.specs.Lists.{same};
ghost use Rattle.image.specs.Schema.{schema};
ghost use Rattle.image.specs.FullName.{item_name, item_up, shares_name};
ghost use Rattle.image.specs.Chained.{Chained, Named, siblings};
ghost use Rattle.image.specs.Seen.{item_key};

use crate::schema::Image;
use crate::{full_name, seen};
use names::key;

// Whether item j stands where the enclosing word `up` says and is called `name`. The word is compared first, since it costs less than the name.
#[tactic(auto, using(crate::proofs::TextLaws::same_pointwise))]
fn is_sibling(image: &Image, links: &[u32], up: u32, name: &[u8], j: u32) -> bool
    ensures { result ≡ eqb up (item_up (schema image.now) links.now j) && same name.now (item_name (schema image.now) links.now j) }
{
    up == full_name::item_up(image, links, j) && name == full_name::item_name(image, links, j)
}

// Whether an item before item i is a sibling of it with the same own name.
fn has_twin(image: &Image, links: &[u32], i: u32) -> bool
    ensures { result ≡ any_below i (siblings (schema image.now) links.now i) }
{
    let up = full_name::item_up(image, links, i);
    let name = full_name::item_name(image, links, i);
    (0..i).any(|j| is_sibling(image, links, up, name, j))
}

// An item's key: that of its own name, begun with its enclosing word.
#[tactic(auto, unfolding(crate::specs::Seen::item_key))]
fn item_key(image: &Image, links: &[u32], i: u32) -> u32
    ensures { result ≡ item_key (schema image.now) links.now i }
{
    let up = full_name::item_up(image, links, i);
    let name = full_name::item_name(image, links, i);
    key::key_from(up, name)
}

// Whether some item has the full name of an earlier one. `seen` is lent to write in: an item whose key is not seen has no twin before it, so
// that only the others are compared. A mark that stands there from the beginning costs time and nothing else.
fn shares_name_seen(image: &Image, links: &[u32], seen: &mut [u8]) -> bool
    requires chained { Chained (schema image.now) links.now }
    requires named { Named (schema image.now) links.now }
    requires seen_nonzero { 0 < length seen.old }
    ensures { result ≡ shares_name (schema image.now) links.now }
{
    let n = image.rows.sections.messages.count + image.rows.sections.enums.count;
    for i in 0..n {
        let k = item_key(image, links, i);
        if seen::is_seen(seen, k) {
            if has_twin(image, links, i) {
                return true;
            }
        }
        seen::see(seen, k);
    }
    false
}

// Rule 8: whether some item has the full name of an earlier one. At most 512 items leave their marks in 1,024 bytes of fixed memory, so that
// few fall together.
pub(crate) fn shares_name(image: &Image, links: &[u32]) -> bool
    requires chained { Chained (schema image.now) links.now }
    requires named { Named (schema image.now) links.now }
    ensures { result ≡ shares_name (schema image.now) links.now }
{
    let mut seen = [0u8; 1024];
    shares_name_seen(image, links, &mut seen)
}
