// The crate's answers.
use image::verdict::Refusal;
use tokens::Token;

// What the crate made of a file:
// it accepts, with so many link words; it fails, with the error that stands for a refusal; it panics, and whether it then sought an enum's
// default past a message or an enum of another name; or it was not asked, for a reason that is refused here so or with a lower number.
#[derive(Clone, Copy)]
pub enum Theirs {
    Accepted(u32),
    Failed(Refusal),
    Panicked(bool),
    Skipped(Refusal),
    Unknown,
}

// An answer, and where it ends; where its link words start, if it has any.
#[derive(Clone, Copy)]
pub struct Answer {
    pub theirs: Theirs,
    pub end: usize,
}

// Whether the comment behind a token starts so.
fn says(text: &[u8], t: Token, comment: &[u8]) -> bool {
    let behind = Token {
        start: t.end,
        end: text.len(),
    };
    tokens::bytes_of(text, behind).starts_with(comment)
}

fn failed(text: &[u8], t: Token) -> Theirs {
    if says(text, t, b" # Map entry message name must end with") {
        return Theirs::Failed(Refusal::EntryName);
    }
    if says(text, t, b" # Map entry message must have no extensions") {
        return Theirs::Failed(Refusal::EntryNotBare);
    }
    if says(
        text,
        t,
        b" # Map entry message must have two optional fields",
    ) {
        return Theirs::Failed(Refusal::EntryFields);
    }
    if says(text, t, b" # Could not parse default value for field ") {
        return Theirs::Failed(Refusal::DefaultWrong);
    }
    if says(text, t, b" # Message `") {
        return Theirs::Failed(Refusal::MessageMissing);
    }
    if says(text, t, b" # Non-unique field name: `") {
        return Theirs::Failed(Refusal::FieldClash);
    }
    Theirs::Unknown
}

// The panics of docs/DIFFERENCES.md where an enum's default is sought.
fn panicked(text: &[u8], t: Token) -> Theirs {
    if says(text, t, b" # enum has no children") {
        return Theirs::Panicked(true);
    }
    Theirs::Panicked(says(text, t, b" # not an enum: "))
}

fn skipped(text: &[u8], t: Token) -> Theirs {
    if says(text, t, b" # layout:") {
        return Theirs::Skipped(Refusal::LayoutBroken);
    }
    if says(text, t, b" # text:") {
        return Theirs::Skipped(Refusal::TextWrong);
    }
    if says(text, t, b" # name:") {
        return Theirs::Skipped(Refusal::NameTaken);
    }
    if says(text, t, b" # import:") {
        return Theirs::Skipped(Refusal::ImportMissing);
    }
    Theirs::Unknown
}

fn without_words(text: &[u8], t: Token) -> Theirs {
    if tokens::is(text, t, b"failed") {
        return failed(text, t);
    }
    if tokens::is(text, t, b"panicked") {
        return panicked(text, t);
    }
    if tokens::is(text, t, b"skipped") {
        return skipped(text, t);
    }
    Theirs::Unknown
}

// The next answer, from `at` on.
pub fn next(text: &[u8], at: usize) -> Answer {
    let t = tokens::next(text, at);
    if tokens::is(text, t, b"accepted") {
        let n = tokens::next(text, t.end);
        return Answer {
            theirs: Theirs::Accepted(tokens::number(text, n)),
            end: n.end,
        };
    }
    Answer {
        theirs: without_words(text, t),
        end: t.end,
    }
}

// How many link words an answer has.
pub fn word_count(theirs: Theirs) -> u32 {
    match theirs {
        Theirs::Accepted(n) => n,
        _ => 0,
    }
}

// Where the n words end that start at `at`.
pub fn end_of_words(text: &[u8], at: usize, n: u32) -> usize {
    tokens::read::<u32>(text, at, &mut [], n as usize)
}
