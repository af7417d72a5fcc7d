// A table of marks, by which things are told apart whose keys differ: messages and enums for rule 8, fields for rule 17.
ghost use Rattle.std.specs.Prelude.{◌≡◌, ◌<◌, length};
ghost use Rattle.image.specs.Seen.{mark_of, is_seen, mark_behind, see};

// The mark that a key leaves at its place, of n: from 1 to 254, since 0 says that none was left there and 255 that several were. It is made from
// the part of the key that does not say its place, so that keys of one place mostly differ in it.
fn mark_of(key: u32, n: usize) -> u8
    requires { 0 < n }
    ensures { result ≡ mark_of n key }
{
    (key as usize / n % 254 + 1) as u8
}

// Whether a key's place has its mark, or several.
#[tactic(auto, unfolding(crate::specs::Seen::is_seen, crate::specs::Seen::is_marked))]
pub(crate) fn is_seen(seen: &[u8], key: u32) -> bool
    requires { 0 < length seen.now }
    ensures { result ≡ is_seen seen.now key }
{
    let n = seen.len();
    let old = seen[key as usize % n];
    if old == 255 {
        return true;
    }
    old == mark_of(key, n)
}

// What stands at a place once a mark more is left there: the mark, or 255 where another stood there.
#[tactic(auto, unfolding(crate::specs::Seen::mark_behind))]
fn mark_behind(old: u8, mark: u8) -> u8
    ensures { result ≡ mark_behind old mark }
{
    if old == 0 {
        return mark;
    }
    if old == mark {
        return mark;
    }
    255
}

// Leaves a key's mark.
#[tactic(auto, unfolding(crate::specs::Seen::see))]
pub(crate) fn see(seen: &mut [u8], key: u32)
    requires { 0 < length seen.old }
    ensures { seen.new ≡ see seen.old key }
{
    let n = seen.len();
    let at = key as usize % n;
    seen[at] = mark_behind(seen[at], mark_of(key, n));
}
