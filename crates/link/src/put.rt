// Writing into the middle of words or bytes, where there is room.
ghost use Rattle.std.specs.Prelude.{◌≡◌, ◌+◌, ◌≤◌, length};
ghost use Rattle.lists.specs.Splice.{splice};

// Writes all of `src` into `all` from element `at` on.
pub(crate) fn put<T: Copy>(all: &mut [T], at: usize, src: &[T])
    requires { at + length src.now ≤ length all.old }
    ensures { all.new ≡ splice all.old at src.now }
{
    for j in 0..src.len() {
        all[at + j] = src[j];
    }
}
