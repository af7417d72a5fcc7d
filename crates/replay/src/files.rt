// A file of a case: read, linked, and held against the crate's answer.
use crate::answers::Answer;
use crate::judge::Judged;
use crate::state::{Lists, State};
use crate::tally::Tally;
use crate::{answers, judge, say, words};
use image::shelf::{File, Used};
use image::verdict::Verdict;
use tokens::heads::Expect;
use tokens::{Token, heads};

fn say_ours(rt: &impl Print, ours: Verdict) {
    match ours {
        Ok(()) => {
            say::text(rt, b", ours is accepted\n");
        }
        Err(refused) => {
            say::text(rt, b", ours is refused ");
            say::number(rt, refused.refusal.number() as u64);
            say::text(rt, b" at ");
            say::number(rt, refused.place as u64);
            say::text(rt, b"\n");
        }
    }
}

// The file is done: the answers go on at `end`.
fn done(mut s: State, end: usize, counted: Tally, judged: Judged) -> State {
    s.answer = end;
    s.file = s.file.saturating_add(1);
    s.tally = counted.with_file(judged);
    s
}

// Both accept: the words decide.
fn with_words(rt: &impl Print, lists: Lists, a: Answer, s: State, file: &File) -> State {
    let c = words::compare(rt, lists, a.end, answers::word_count(a.theirs), s, file);
    done(
        s,
        c.end,
        s.tally.with_words(c.equal, c.undecided),
        judge::by_words(c.different),
    )
}

// No words are compared; those that the crate has are passed over.
fn without_words(
    rt: &impl Print,
    lists: Lists,
    a: Answer,
    s: State,
    judged: Judged,
    ours: Verdict,
) -> State {
    if judge::is_difference(judged) {
        say::file(rt, lists, s);
        say::text(rt, judge::sentence(judged));
        say_ours(rt, ours);
    }
    let end = answers::end_of_words(lists.answers, a.end, answers::word_count(a.theirs));
    done(s, end, s.tally, judged)
}

// Holds what is answered here against the crate's next answer.
fn judge_file(
    rt: &impl Print,
    lists: Lists,
    expect: Expect,
    mut s: State,
    file: &File,
    ours: Verdict,
) -> State {
    let a = answers::next(lists.answers, s.answer);
    let judged = judge::judge(expect, a.theirs, ours, s.shelves);
    s.shelves = judge::shelves_after(expect, a.theirs, ours, s.shelves);
    match judged {
        Judged::Words => with_words(rt, lists, a, s, file),
        _ => without_words(rt, lists, a, s, judged, ours),
    }
}

// The link words of the record that reaches from the words used before to those used after, behind its image.
fn links_of(shelf: &[u32], size: usize, used: Used, after: Used) -> &[u32] {
    let record = tokens::between(shelf, used.words as usize, after.words as usize);
    tokens::between(record, size, record.len())
}

// Links a file. One that is refused has no link rows, and leaves the three numbers as they were.
fn link_file(
    rt: &impl Print,
    lists: Lists,
    expect: Expect,
    s: State,
    image: &[u32],
    pool: &[u8],
    words: &mut [u32],
    bytes: &mut [u8],
) -> State {
    let used = s.used;
    let linked = link::link::link(words, bytes, used, image, pool);
    match linked {
        Ok(after) => {
            let links = links_of(words, image.len(), used, after);
            let file = File { image, pool, links };
            let mut next = judge_file(rt, lists, expect, s, &file, Ok(()));
            next.used = after;
            next
        }
        Err(refused) => {
            let links = &[];
            let file = File { image, pool, links };
            judge_file(rt, lists, expect, s, &file, Err(refused))
        }
    }
}

// The file behind the token `t`. An image or a pool that is too long is cut where it is one word or byte too long.
pub fn read_file(
    rt: &impl Print,
    lists: Lists,
    t: Token,
    s: State,
    words: &mut [u32],
    bytes: &mut [u8],
) -> State {
    let mut image = [0u32; 65537];
    let mut pool = [0u8; 32769];
    let h = heads::head_of(lists.cases, t);
    let n = h.words as usize;
    let k = h.bytes as usize;
    let middle = tokens::read(lists.cases, h.end, &mut image, n);
    let end = tokens::read(lists.cases, middle, &mut pool, k);
    let mut next = link_file(
        rt,
        lists,
        h.expect,
        s,
        tokens::front(&image, n),
        tokens::front(&pool, k),
        words,
        bytes,
    );
    next.at = end;
    next
}
