// Names resolved, after building.rs: this file first, then the search list.
ghost use Rattle.std.specs.Prelude.{◌≡◌};
ghost use Rattle.image.specs.Places.{shelf_file};
ghost use Rattle.link.specs.Scope.{seen};
ghost use Rattle.link.specs.Search.{list_of, Below};
ghost use Rattle.link.specs.Resolve.{item_in, first_in, target, is_message_type, type_target};

use crate::find_message_or_enum::find_item;
use crate::sight::Scope;
use image::shelf::Shelf;

// What is sought by a name.
#[derive(Clone, Copy, Debug, PartialEq, Eq)]
pub enum Wanted {
    Message,
    Enum,
}

// What a name or a type leads to: a file word (shelf number + 1) and a flat number, both 0 for a type that leads nowhere.
#[derive(Clone, Copy, Debug, PartialEq, Eq)]
pub struct Target {
    pub file: u32,
    pub index: u32,
}

// In the files of a list, one after the other.
fn find_listed(shelf: &Shelf, list: &[u32], wanted: Wanted, full: &[u8]) -> Option<Target>
    requires { Below 32 list.now }
    ensures { result ≡ first_in (λ f. item_in wanted (shelf_file shelf.now f) full.now) list.now }
{
    for &f in list {
        if let Some(m) = find_item(&shelf.file(f), wanted, full) {
            return Some(Target {
                file: f + 1,
                index: m.0,
            });
        }
    }
    None
}

// A message or an enum by its name.
pub(crate) fn resolve(scope: &Scope, wanted: Wanted, full: &[u8]) -> Option<Target>
    ensures { result ≡ target wanted (seen scope.now) (list_of scope.now.list) full.now }
{
    if let Some(m) = find_item(&scope.own, wanted, full) {
        return Some(Target {
            file: scope.n + 1,
            index: m.0,
        });
    }
    let list = &scope.list;
    find_listed(
        &scope.shelf,
        &list.files[..list.count as usize],
        wanted,
        full,
    )
}

// Whether a field of that type refers to a message.
pub(crate) fn is_message_type(t: u32) -> bool
    ensures { result ≡ is_message_type t }
{
    matches!(t, 10 | 11)
}

// The target of a type: messages for types 10 and 11, enums for 14, none for others.
#[tactic(auto, unfolding(crate::specs::Resolve::type_target))]
pub(crate) fn resolve_type(scope: &Scope, t: u32, full: &[u8]) -> Option<Target>
    ensures { result ≡ type_target (seen scope.now) (list_of scope.now.list) t full.now }
{
    match t {
        10 | 11 => resolve(scope, Wanted::Message, full),
        14 => resolve(scope, Wanted::Enum, full),
        _ => Some(Target { file: 0, index: 0 }),
    }
}
