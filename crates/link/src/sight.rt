// What a file sees that is being linked: the shelved files, itself, and the files in which the names are sought that it does not have.
ghost use Rattle.std.specs.Prelude.{◌≡◌, ℕ, ◌≤◌, ◌<◌, length, get_or};
ghost use Rattle.image.specs.LinkTests.{file_by};
ghost use Rattle.image.specs.Places.{file_of};
ghost use Rattle.link.specs.Sight.{in_sight, seen_with, InReach};
ghost use Rattle.link.specs.Search.{list_of};

use crate::fds::SearchList;
use image::shelf::{File, Shelf};

// The first `n` files of a shelf, the file that is linked, whose shelf number is n, and its search list.
#[derive(Clone, Copy)]
pub struct Scope<'a> {
    pub shelf: Shelf<'a, 'a>,
    pub n: u32,
    pub own: File<'a, 'a>,
    pub list: SearchList,
    ghost n_bound: { n ≤ 32 },
    ghost count_bound: { list.count ≤ 32 },
    ghost below: { (k : ℕ) → k < length (list_of list) → get_or (list_of list) k 0 < n },
}

impl<'a> Scope<'a> {
    // The file that a file word names.
    pub(crate) fn file_by(&self, word: u32) -> File<'a, 'a>
        requires { InReach self.now.n word }
        ensures { file_of result ≡ file_by (in_sight (seen_with self.now.shelf self.now.n self.now.own)) word }
    {
        if word == self.n + 1 {
            return self.own;
        }
        self.shelf.file(word - 1)
    }
}
