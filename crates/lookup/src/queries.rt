// One query: its words are read, every file is asked, and each hit is a line.
ghost use Rattle.std.specs.Prelude.{◌+◌, ◌≤◌, ◌<◌, ◌^◌, IfSome};

use crate::kinds;
use crate::kinds::{Kind, Query};
use image::shelf::{Shelf, Used};
use image::well_formed;
use link::lookup::Lent;
use shelf_io::arguments::{count_words, read_word};
use shelf_io::say;
use shelf_io::sentences::tell_file;
use std::rt::Env;
use tokens::front;

// The shelf that was opened, and its numbers.
#[derive(Clone, Copy)]
pub struct Asked<'a> {
    pub shelf: Shelf<'a, 'a>,
    pub used: Used,
}

// The query itself, as a line starts with it.
fn tell_query(rt: &impl Print, q: &Query) {
    say::text(rt, q.kind.name());
    say::text(rt, b" ");
    say::text(rt, q.first);
    if !q.second.is_empty() {
        say::text(rt, b" ");
        say::text(rt, q.second);
    }
    say::text(rt, b": ");
}

fn tell_hit(rt: &impl Print, shelf: &Shelf, f: u32, kind: Kind, k: u32) {
    tell_file(rt, f, well_formed::file_name(shelf, f));
    say::text(rt, b", ");
    kinds::tell_found(rt, kind, k);
    say::text(rt, b"\n");
}

// Asks every file.
fn ask_files(rt: &impl Print, asked: &Asked, q: &Query) {
    let shelf = &asked.shelf;
    let mut hit = false;
    for f in 0..asked.used.files {
        if let Some(k) = kinds::found_in(q, &shelf.file(f)) {
            tell_query(rt, q);
            tell_hit(rt, shelf, f, q.kind, k);
            hit = true;
        }
    }
    if !hit {
        tell_query(rt, q);
        say::text(rt, b"nothing\n");
    }
}

// The full name of a message or an enum, by the numbers of its file and of itself.
fn tell_name(rt: &impl Print, asked: &Asked, file: u32, q: &Query) {
    let lent = Lent {
        words: asked.shelf.words,
        bytes: asked.shelf.bytes,
        used: asked.used,
    };
    let mut name = io::buffer();
    match kinds::name_of(q, &lent, file, &mut name) {
        Ok(Some(n)) => say::text(rt, front(&name, n as usize)),
        Ok(None) | Err(_) => say::text(rt, b"nothing"),
    };
    say::text(rt, b"\n");
}

// Asks for a full name.
fn ask_name(rt: &impl Print, asked: &Asked, q: &Query) {
    tell_query(rt, q);
    match kinds::index_of(q.first) {
        Some(file) => tell_name(rt, asked, file, q),
        None => {
            say::text(rt, b"the word in front is not a number of 32 bits\n");
        }
    }
}

// Asks for what the words say behind the kind.
fn ask(rt: &impl Print, asked: &Asked, kind: Kind, first: &[u8], second: &[u8]) {
    let mut q = Query {
        kind,
        first,
        second,
        number: 0,
    };
    let Some(number) = kinds::number_of(kind, second) else {
        tell_query(rt, &q);
        say::text(rt, b"the last word is not a number of 32 bits\n");
        return;
    };
    q.number = number;
    if kind.is_naming() {
        ask_name(rt, asked, &q);
    } else {
        ask_files(rt, asked, &q);
    }
}

// Says that a word is no kind.
fn tell_unknown(rt: &impl Print, word: &[u8]) {
    say::text(rt, word);
    say::text(
        rt,
        b": not a kind (there are message, enum, field, field-number, value, value-number, message-name, enum-name)\n",
    );
}

// Answers the query whose kind is word `at`, where `left` words stand from there on. It answers how many words it took, if they are a query.
fn answer(rt: &(impl Env + Print), at: usize, left: usize, asked: &Asked) -> Option<usize>
    requires { at + left < 2 ^ 64 }
    ensures { IfSome result (λ n. (1 ≤ n) × (n ≤ left)) }
{
    let mut first = io::buffer();
    let mut second = io::buffer();
    let n = read_word(rt, at, &mut first);
    let Some(kind) = Kind::named(front(&first, n)) else {
        tell_unknown(rt, front(&first, n));
        return None;
    };
    let behind = kind.words_behind();
    if left <= behind {
        say::text(rt, kind.name());
        say::text(rt, b": a word is missing behind it\n");
        return None;
    }
    let n = read_word(rt, at + 1, &mut first);
    let k = if behind == 2 {
        read_word(rt, at + 2, &mut second)
    } else {
        0
    };
    ask(rt, asked, kind, front(&first, n), front(&second, k));
    Some(behind + 1)
}

// Answers the queries that stand from word 2 on. Each says how many words it took.
pub fn answer_all(rt: &(impl Env + Print), asked: &Asked) {
    let count = count_words(rt);
    let mut at = 2;
    while at < count {
        let Some(taken) = answer(rt, at, count - at, asked) else {
            return;
        };
        at += taken;
    }
}
