// The audit listing of a shelf file:
//
//     audit SHELF [FIELD]
//
// Each message is said to skip the completeness check, or how far it is from what can be incomplete. With FIELD it is said what each
// message has under that own name, and at the end which messages carry it and can pass the check without it.
#![tactic(auto)]

mod listing;
mod passing;
mod tally;
mod tell;

use image::shelf::Shelf;
use shelf_io::arguments::{count_words, read_word};
use shelf_io::shelves::Opened;
use shelf_io::{say, shelves};
use std::rt::{Env, Files};
use tokens::front;

// Lists `files` files, and what their messages have under the name of a field where word 2 asks for one.
fn audit(rt: &(impl Env + Print), shelf: &Shelf, files: u32, asked: bool) {
    let mut buffer = io::buffer();
    let n = read_word(rt, 2, &mut buffer);
    let field = if asked { Some(front(&buffer, n)) } else { None };
    let t = listing::list_files(rt, shelf, files, field);
    if let Some(field) = field {
        if t.passing != 0 {
            passing::list_files(rt, shelf, files, field);
        }
    }
    t.say(rt, files, field);
}

fn run(rt: &(impl Env + Files + Print), words: &mut [u32], bytes: &mut [u8], file: &mut [u8]) {
    let count = count_words(rt);
    if count < 2 || 3 < count {
        say::text(
            rt,
            b"usage: audit SHELF [FIELD]   lists which messages of a shelf file can be incomplete, and what they have under a field's name\n",
        );
        return;
    }
    let opened = shelves::open_named(rt, 1, file, words, bytes);
    if let Ok(Opened { used, places }) = opened {
        let shelf = Shelf {
            words,
            bytes,
            places,
        };
        audit(rt, &shelf, used.files, count == 3);
    }
}

fn main(rt: HostRuntime) {
    let mut words = [0u32; shelves::SHELF_WORDS];
    let mut bytes = [0u8; shelves::SHELF_BYTES];
    let mut file = [0u8; shelves::FILE_ROOM];
    run(&rt, &mut words, &mut bytes, &mut file);
}
