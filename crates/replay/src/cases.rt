// The cases, one after the other, each on a shelf that is empty at its beginning, and the answers beside them.
use crate::state::{Lists, State};
use crate::{files, say};
use tokens::Token;

// The cases cannot be read further: what is left of them stays.
fn stop(rt: &impl Print, lists: Lists, t: Token, s: State, why: &[u8]) -> State {
    say::text(rt, b"stopped at `");
    say::text(rt, tokens::bytes_of(lists.cases, t));
    say::text(rt, b"` (byte ");
    say::number(rt, t.start as u64);
    say::text(rt, b" of the cases): ");
    say::text(rt, why);
    say::text(rt, b"\n");
    s
}

// A case starts, in both lists. Words and bytes of the case before stay, since what is not used is no part of a shelf.
fn begin(rt: &impl Print, lists: Lists, t: Token, s: State) -> State {
    let cases = lists.cases;
    let answers = lists.answers;
    let name = tokens::next(cases, t.end);
    let count = tokens::next(cases, name.end);
    let files = tokens::number(cases, count);
    let u = tokens::next(answers, s.answer);
    let same_name = tokens::next(answers, u.end);
    let same_count = tokens::next(answers, same_name.end);
    if !tokens::is(answers, u, b"case") {
        return stop(rt, lists, name, s, b"the answers have no case here");
    }
    if !tokens::is(answers, same_name, tokens::bytes_of(cases, name)) {
        return stop(rt, lists, name, s, b"the answers have another case here");
    }
    if tokens::number(answers, same_count) != files {
        return stop(
            rt,
            lists,
            name,
            s,
            b"the answers have other files of this case",
        );
    }
    State::begin(count.end, same_count.end, name, files, s.tally.with_case())
}

// What stands next: the start of a case where all files of the last were read, or else a file of it; or nothing.
fn step(rt: &impl Print, lists: Lists, s: State, words: &mut [u32], bytes: &mut [u8]) -> State {
    let cases = lists.cases;
    let t = tokens::next(cases, s.at);
    if t.start == t.end {
        return s;
    }
    if s.file < s.files {
        if tokens::is(cases, t, b"file") {
            return files::read_file(rt, lists, t, s, words, bytes);
        }
        return stop(rt, lists, t, s, b"a file is missing");
    }
    if tokens::is(cases, t, b"case") {
        return begin(rt, lists, t, s);
    }
    stop(rt, lists, t, s, b"here no case starts")
}

// All cases. Each step says where the next begins.
fn run(rt: &impl Print, lists: Lists, words: &mut [u32], bytes: &mut [u8]) -> State {
    let mut s = State::start();
    while s.at < lists.cases.len() {
        let next = step(rt, lists, s, words, bytes);
        if next.at <= s.at {
            return s;
        }
        s = next;
    }
    s
}

// Whether a list has no token left.
fn is_at_end(text: &[u8], at: usize) -> bool {
    let t = tokens::next(text, at);
    t.start == t.end
}

// Whether the cases, the answers and the files of the last case were read to their ends.
fn is_whole(lists: Lists, s: State) -> bool {
    s.file == s.files && is_at_end(lists.cases, s.at) && is_at_end(lists.answers, s.answer)
}

// Replays all cases, and says at the end what was counted, and whether anything was left.
pub fn replay(rt: &impl Print, lists: Lists, words: &mut [u32], bytes: &mut [u8]) {
    let s = run(rt, lists, words, bytes);
    s.tally.say(rt);
    if is_whole(lists, s) {
        say::text(rt, b"both lists were read to their ends\n");
    } else {
        say::text(rt, b"not all cases and answers were read\n");
    }
}
