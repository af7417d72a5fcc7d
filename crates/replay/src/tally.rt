// How many cases and files there were, and what became of each file.
use crate::judge::Judged;
use crate::say;

// Every file is counted in one of `equal`, `expected`, `failed`, `outside`, `alone` and `differ`. `errors` counts those of `expected` on
// which the crate fails with an error that stands for the same number.
#[derive(Clone, Copy, Default)]
pub struct Tally {
    pub cases: u32,
    pub files: u32,
    pub equal: u32,
    pub words: u32,
    pub undecided: u32,
    pub expected: u32,
    pub errors: u32,
    pub failed: u32,
    pub outside: u32,
    pub alone: u32,
    pub differ: u32,
}

impl Tally {
    // A case more.
    pub fn with_case(mut self) -> Tally {
        self.cases = self.cases.saturating_add(1);
        self
    }

    // The words of a file more.
    pub fn with_words(mut self, equal: u32, undecided: u32) -> Tally {
        self.words = self.words.saturating_add(equal);
        self.undecided = self.undecided.saturating_add(undecided);
        self
    }

    // A file more, by how its answer was judged. Where words were compared, `Words` says that all of them are equal.
    pub fn with_file(mut self, judged: Judged) -> Tally {
        self.files = self.files.saturating_add(1);
        match judged {
            Judged::Words => self.equal = self.equal.saturating_add(1),
            Judged::Expected => self.expected = self.expected.saturating_add(1),
            Judged::ExpectedError => {
                self.expected = self.expected.saturating_add(1);
                self.errors = self.errors.saturating_add(1);
            }
            Judged::Failed => self.failed = self.failed.saturating_add(1),
            Judged::Outside => self.outside = self.outside.saturating_add(1),
            Judged::OutsideAccepted => self.alone = self.alone.saturating_add(1),
            _ => self.differ = self.differ.saturating_add(1),
        }
        self
    }

    pub fn say(self, rt: &impl Print) {
        say::count(rt, self.cases, b" cases, ");
        say::count(rt, self.files, b" files:\n  ");
        say::count(rt, self.equal, b" accepted, as by the crate, with ");
        say::count(rt, self.words, b" words equal (");
        say::count(rt, self.undecided, b" more the crate does not decide)\n  ");
        say::count(rt, self.expected, b" refused as the case expects (on ");
        say::count(
            rt,
            self.errors,
            b" of them the crate fails with an error for that number)\n  ",
        );
        say::count(
            rt,
            self.failed,
            b" refused with the number that the crate's error stands for\n  ",
        );
        say::count(
            rt,
            self.outside,
            b" refused outside the domain, as the rules allow\n  ",
        );
        say::count(
            rt,
            self.alone,
            b" accepted here alone, where the crate panics over an enum's default or lacks such a file\n  ",
        );
        say::count(rt, self.differ, b" different\n");
    }
}
