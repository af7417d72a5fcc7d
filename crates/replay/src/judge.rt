// What must agree: the table of oracle/FORMAT.md.
use crate::answers::Theirs;
use crate::state::Shelves;
use image::verdict::{Refusal, Verdict};
use tokens::heads;
use tokens::heads::Expect;

// The number of the refusal, and 0 where the file is accepted.
fn number_of(ours: Verdict) -> u32 {
    match ours {
        Ok(()) => 0,
        Err(refused) => refused.refusal.number(),
    }
}

// No difference: both accept, and the words decide; refused as expected, and where the crate fails with an error for that number;
// refused with the number of the crate's error, with nothing expected; or outside the domain, where no more is asked. All others are
// differences.
#[derive(Clone, Copy, PartialEq, Eq)]
pub enum Judged {
    Words,
    Expected,
    ExpectedError,
    Failed,
    Outside,
    OutsideAccepted,
    Unmet,
    Layout,
    CrateAccepts,
    CrateFails,
    CratePanics,
    NotAsked,
    Unknown,
    OtherWords,
}

fn is_refusal(expect: Expect) -> bool {
    matches!(expect, Expect::Refused(_) | Expect::RefusedAt(_, _))
}

// Whether a file in the domain may not be answered so.
fn is_inside(ours: Verdict) -> bool {
    !heads::is_outside(number_of(ours))
}

// A refusal is expected and given, or the file is outside the domain.
fn agreed(expect: Expect, ours: Verdict) -> Judged {
    if is_refusal(expect) {
        return Judged::Expected;
    }
    if ours.is_ok() {
        return Judged::OutsideAccepted;
    }
    Judged::Outside
}

// The crate is not asked for the layout's sake exactly where the image breaks a layout rule. Only 1 and 2 come before that.
fn layout_agrees(theirs: Theirs, ours: Verdict) -> bool {
    match theirs {
        Theirs::Skipped(Refusal::LayoutBroken) => matches!(number_of(ours), 1..=3),
        _ => number_of(ours) != Refusal::LayoutBroken.number(),
    }
}

fn crate_accepts(expect: Expect, ours: Verdict) -> Judged {
    if ours.is_ok() {
        return Judged::Words;
    }
    if is_inside(ours) {
        return Judged::CrateAccepts;
    }
    agreed(expect, ours)
}

fn crate_fails(expect: Expect, ours: Verdict, error: Refusal) -> Judged {
    if number_of(ours) == error.number() {
        if is_refusal(expect) {
            return Judged::ExpectedError;
        }
        return Judged::Failed;
    }
    if is_inside(ours) {
        return Judged::CrateFails;
    }
    agreed(expect, ours)
}

fn crate_panics(expect: Expect, ours: Verdict, passed_over: bool) -> Judged {
    if expect == Expect::Domain || ours.is_ok() && !passed_over {
        return Judged::CratePanics;
    }
    agreed(expect, ours)
}

// Whether a reason for not asking says nothing of our answer: names and imports, where the shelves are not the same.
fn is_void(last: Refusal, shelves: Shelves) -> bool {
    match last {
        Refusal::NameTaken => shelves.more_there,
        Refusal::ImportMissing => shelves.more_here,
        _ => false,
    }
}

fn not_asked(expect: Expect, ours: Verdict, last: Refusal, shelves: Shelves) -> Judged {
    if is_refusal(expect) || is_void(last, shelves) {
        return agreed(expect, ours);
    }
    if ours.is_ok() || last.number() < number_of(ours) {
        return Judged::NotAsked;
    }
    Judged::Outside
}

// How our answer stands to what is expected and to the crate's.
pub fn judge(expect: Expect, theirs: Theirs, ours: Verdict, shelves: Shelves) -> Judged {
    let met = match ours {
        Ok(()) => heads::is_met(expect, 0, 0),
        Err(refused) => heads::is_met(expect, refused.refusal.number(), refused.place),
    };
    if !met {
        return Judged::Unmet;
    }
    if !layout_agrees(theirs, ours) {
        return Judged::Layout;
    }
    match theirs {
        Theirs::Accepted(_) => crate_accepts(expect, ours),
        Theirs::Failed(error) => crate_fails(expect, ours, error),
        Theirs::Panicked(passed_over) => crate_panics(expect, ours, passed_over),
        Theirs::Skipped(last) => not_asked(expect, ours, last, shelves),
        Theirs::Unknown => Judged::Unknown,
    }
}

// The shelves behind a file. A file that is to be refused is put on no shelf, even if the crate accepts it.
pub fn shelves_after(
    expect: Expect,
    theirs: Theirs,
    ours: Verdict,
    mut shelves: Shelves,
) -> Shelves {
    match theirs {
        Theirs::Accepted(_) => {
            if ours.is_err() && !is_refusal(expect) {
                shelves.more_there = true;
            }
        }
        _ => {
            if ours.is_ok() {
                shelves.more_here = true;
            }
        }
    }
    shelves
}

// Both accept, and so many words differ.
pub fn by_words(different: u32) -> Judged {
    if different == 0 {
        return Judged::Words;
    }
    Judged::OtherWords
}

pub fn is_difference(judged: Judged) -> bool {
    !matches!(
        judged,
        Judged::Words
            | Judged::Expected
            | Judged::ExpectedError
            | Judged::Failed
            | Judged::Outside
            | Judged::OutsideAccepted
    )
}

// What a difference is, in words.
pub fn sentence(judged: Judged) -> &'static [u8] {
    match judged {
        Judged::Unmet => b"the case expects another answer",
        Judged::Layout => b"3 is for a broken layout and nothing else",
        Judged::CrateAccepts => b"the crate accepts",
        Judged::CrateFails => b"the crate fails with an error for another number",
        Judged::CratePanics => b"the crate panics",
        Judged::NotAsked => b"the crate was not asked since it is to be refused",
        _ => b"the crate's answer is none that is known",
    }
}
