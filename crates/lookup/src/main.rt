// Lookups in a shelf file, one query behind the other:
//
//     lookup SHELF KIND NAME ..
//
// The kinds are `message NAME`, `enum NAME`, `field MESSAGE NAME`, `field-number MESSAGE NUMBER`, `value ENUM NAME` and
// `value-number ENUM NUMBER`. Messages and enums are given by their full names behind a dot, fields and values by their own names. Every file
// of the shelf is asked. `message-name FILE NUMBER` and `enum-name FILE NUMBER` give the full name of a message or an enum of one file.
#![tactic(auto)]

mod kinds;
mod queries;

use image::shelf::Shelf;
use queries::Asked;
use shelf_io::arguments::count_words;
use shelf_io::shelves::Opened;
use shelf_io::{say, shelves};
use std::rt::{Env, Files};

fn run(rt: &(impl Env + Files + Print), words: &mut [u32], bytes: &mut [u8], file: &mut [u8]) {
    if count_words(rt) < 3 {
        say::text(
            rt,
            b"usage: lookup SHELF KIND NAME ..   KIND is message, enum, field, field-number, value, value-number, message-name or enum-name\n",
        );
        return;
    }
    let opened = shelves::open_named(rt, 1, file, words, bytes);
    if let Ok(Opened { used, places }) = opened {
        let shelf = Shelf {
            words,
            bytes,
            places,
        };
        queries::answer_all(rt, &Asked { shelf, used });
    }
}

fn main(rt: HostRuntime) {
    let mut words = [0u32; shelves::SHELF_WORDS];
    let mut bytes = [0u8; shelves::SHELF_BYTES];
    let mut file = [0u8; shelves::FILE_ROOM];
    run(&rt, &mut words, &mut bytes, &mut file);
}
