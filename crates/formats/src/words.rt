// Words in bytes, four to a word, the lowest first.
ghost use Rattle.std.specs.Prelude.{◌≡◌, ◌+◌, ◌*◌, ◌≤◌, length};
ghost use Rattle.lists.specs.Splice.{splice};
ghost use Rattle.formats.specs.Words.{in_bytes, word_at, words_at};

// The word in the four bytes from byte `at` on.
pub(crate) fn word_at(file: &[u8], at: usize) -> u32
    requires { at + 4 ≤ length file.now }
    ensures { result ≡ word_at file.now at }
{
    u32::from_le_bytes([file[at], file[at + 1], file[at + 2], file[at + 3]])
}

// Reads `n` words from byte `at` on, to the front of `words`.
pub(crate) fn read_words(file: &[u8], at: usize, n: usize, words: &mut [u32])
    requires n_in_bounds { at + n * 4 ≤ length file.now }
    requires n_in_bounds_2 { n ≤ length words.old }
    ensures { words.new ≡ splice words.old 0 (words_at file.now at n) }
{
    for i in 0..n {
        words[i] = word_at(file, at + i * 4);
    }
}

// Writes `words` into `out` from byte `at` on.
pub(crate) fn put_words(out: &mut [u8], at: usize, words: &[u32])
    requires { at + length words.now * 4 ≤ length out.old }
    ensures { out.new ≡ splice out.old at (in_bytes words.now) }
{
    for (i, word) in words.iter().enumerate() {
        let from = at + i * 4;
        out[from..from + 4].copy_from_slice(&word.to_le_bytes());
    }
}
