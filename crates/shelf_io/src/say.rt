// What a line for people is made of. Each function hands its text to standard output and answers how many bytes it has, so that what follows
// can be lined up.
ghost use Rattle.std.specs.Prelude.{◌≡◌, ◌-◌, ◌≤◌, min, max, length};
ghost use Rattle.io.specs.Digits.{IsDigitCount};
ghost use Rattle.shelf_io.specs.Counts.{SignedLength};

use tokens::front;

// A text as it is. What cannot be written is passed over.
pub fn text(rt: &impl Print, s: &[u8]) -> usize
    ensures { result ≡ length s.now }
{
    let _ = rt.write_all(s);
    s.len()
}

// A number, in decimal.
pub fn number(rt: &impl Print, n: u64) -> usize
    ensures digit_count { IsDigitCount 10 1 n result }
    ensures upper_bound { result ≤ 20 }
{
    let mut digits = [0u8; 20];
    let k = io::decimal(n, &mut digits);
    text(rt, &digits[..k])
}

// A word as a signed number, in decimal.
pub fn signed(rt: &impl Print, word: u32) -> usize
    ensures { SignedLength word result }
{
    if word < 2147483648 {
        return number(rt, word as u64);
    }
    let sign = text(rt, b"-");
    sign + number(rt, 4294967296 - word as u64)
}

// Spaces from column `at` up to `column`: one at least, 64 at most.
pub fn spaces(rt: &impl Print, at: usize, column: usize) -> usize
    ensures { result ≡ min (max 1 (column - at)) 64 }
{
    let blank = [32u8; 64];
    text(rt, front(&blank, column.saturating_sub(at).max(1)))
}
