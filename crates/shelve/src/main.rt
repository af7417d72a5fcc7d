// Links image files onto a shelf file, in the order given, and says of each what became of it:
//
//     shelve SHELF IMAGE ..
//
// A shelf file that is not there is made. It is written if at least one image was accepted, whole or not at all.
#![tactic(auto)]

mod images;
mod tally;

use image::shelf::Used;
use shelf_io::arguments::{count_words, read_word};
use shelf_io::files::Cause;
use shelf_io::shelves::OpenError;
use shelf_io::{say, sentences, shelves};
use std::rt::{Env, Files};
use tally::Tally;
use tokens::front;

// Links the images that are named behind the shelf.
fn link_all(
    rt: &(impl Env + Files + Print),
    words: &mut [u32],
    bytes: &mut [u8],
    file: &mut [u8],
    used: Used,
) -> Tally {
    let mut t = Tally::start(used);
    for i in 2..count_words(rt) {
        t = t.with(images::link_named(rt, i, words, bytes, file, t.used));
        say::text(rt, b"\n");
    }
    t
}

// Stores the shelf if something was accepted.
fn finish(
    rt: &(impl Files + Print),
    path: &[u8],
    words: &[u32],
    bytes: &[u8],
    file: &mut [u8],
    t: Tally,
) {
    say::text(rt, path);
    say::text(rt, b": ");
    t.say(rt);
    if t.accepted == 0 {
        say::text(rt, b"; not written, since nothing was accepted\n");
        return;
    }
    say::text(rt, b"; ");
    sentences::tell_stored(
        rt,
        shelves::store_shelf(rt, path, words, bytes, t.used, file),
    );
    say::text(rt, b"\n");
}

fn shelve(
    rt: &(impl Env + Files + Print),
    path: &[u8],
    words: &mut [u32],
    bytes: &mut [u8],
    file: &mut [u8],
) {
    let opened = shelves::open_shelf(rt, path, file, words, bytes);
    let used = match opened {
        Ok(opened) => opened.used,
        // Where there is no file yet, the shelf is empty.
        Err(missing @ OpenError::Unread(Cause::Missing)) => missing.used(),
        Err(error) => {
            sentences::tell_shelf(rt, path, Err(error));
            return;
        }
    };
    let t = link_all(rt, words, bytes, file, used);
    finish(rt, path, words, bytes, file, t);
}

fn run(rt: &(impl Env + Files + Print), words: &mut [u32], bytes: &mut [u8], file: &mut [u8]) {
    if count_words(rt) < 3 {
        say::text(
            rt,
            b"usage: shelve SHELF IMAGE ..   links image files onto a shelf file, in the order given\n",
        );
        return;
    }
    let mut path = io::buffer();
    let n = read_word(rt, 1, &mut path);
    shelve(rt, front(&path, n), words, bytes, file);
}

fn main(rt: HostRuntime) {
    let mut words = [0u32; shelves::SHELF_WORDS];
    let mut bytes = [0u8; shelves::SHELF_BYTES];
    let mut file = [0u8; shelves::FILE_ROOM];
    run(&rt, &mut words, &mut bytes, &mut file);
}
