// The words that a program is started with.
ghost use Rattle.std.specs.Prelude.{◌≤◌, length};

use std::env::FillError;
use std::rt::Env;

// How many words there are, the program's own name among them.
pub fn count_words(rt: &impl Env) -> usize {
    let mut first = [0u8; 1];
    for i in 0..usize::MAX {
        if let Err(FillError::NotPresent) = rt.arg(i, &mut first) {
            return i;
        }
    }
    usize::MAX
}

// Reads word `i` to the front of `out`, as much of it as fits, and answers how many bytes that are; 0 where there is no such word. Word 0
// is the program's own name.
pub fn read_word(rt: &impl Env, i: usize, out: &mut [u8]) -> usize
    ensures { result ≤ length out.new }
{
    match rt.arg(i, out) {
        Ok(n) => n,
        Err(FillError::TooLong) => out.len(),
        Err(FillError::NotPresent) => 0,
    }
}
