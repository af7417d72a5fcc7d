// Counting.
ghost use Rattle.std.specs.Prelude.{◌≡◌, ◌+◌, min};

// One more, as far as there are numbers.
pub fn one_more(n: u64) -> u64
    ensures { result ≡ min (n + 1) 18446744073709551615 }
{
    n.saturating_add(1)
}
