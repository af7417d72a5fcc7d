// Runs rule 3, the layout of an image, and rule 5, its texts, on an image with a row of every kind and on changes of it, and prints what
// they answer.
#![tactic(auto)]

use image::{layout, texts};

// An import; a message A with a nested B, an enum, a oneof, a field and an extension; a file extension. The pool has 2 bytes.
const WORDS: [u32; 112] = [
    // import
    0, 1, 0,
    // message A
    0, 1, 1, 1, 0, 1, 0, 1, 1, 1, 0, 1, 0, 0,
    // message B
    1, 1, 0, 0, 0, 0, 0, 0, 0, 0, 0, 0, 0, 0,
    // enum
    0, 1, 0, 1,
    // value
    0, 1, 0,
    // oneof
    0, 1,
    // field
    0, 1, 1, 1, 5, 0, 0, 0, 0, 0, 0, 0, 0, 0, 0, 0,
    // extension
    0, 1, 1, 1, 5, 0, 0, 0, 0, 0, 0, 0, 0, 0, 0, 0,
    // file extension
    0, 1, 1, 1, 5, 0, 0, 0, 0, 0, 0, 0, 0, 0, 0, 0,
    // trailer
    1, 0, 2, 0, 0, 3, 0, 1, 3, 2, 31, 1, 35, 1, 38, 1, 40, 3, 1, 0, 2, 1, 2, 88,
];

// What cannot be written is passed over.
fn text(rt: &impl Print, s: &[u8]) {
    let _ = rt.write_all(s);
}

// A line: what was asked about, and what was answered.
fn answer(rt: &impl Print, label: &[u8], answered: &[u8]) {
    text(rt, label);
    text(rt, b": ");
    text(rt, answered);
    text(rt, b"\n");
}

// What rule 3 answers.
fn layout_of(image: &[u32], pool_length: usize) -> &'static [u8] {
    if layout::is_laid_out(image, pool_length) {
        b"laid out"
    } else {
        b"refused, 3"
    }
}

// What rule 5 answers.
fn texts_of(image: &[u32], pool: &[u8]) -> &'static [u8] {
    if texts::are_texts_right(image, pool) {
        b"texts in order"
    } else {
        b"refused, 5"
    }
}

// The image with one word changed.
fn changed(at: usize, word: u32) -> [u32; 112] {
    let mut image = WORDS;
    if at < image.len() {
        image[at] = word;
    }
    image
}

fn show(rt: &impl Print, label: &[u8], at: usize, word: u32) {
    let image = changed(at, word);
    answer(rt, label, layout_of(&image, 2));
}

// Each message nested in the other: every row has one owner, and a parent stands higher than what is nested in it.
fn in_a_circle(rt: &impl Print) {
    let mut image = WORDS;
    image[106] = 0;
    image[19] = 0;
    image[20] = 1;
    answer(rt, b"A nested in B, and B in A", layout_of(&image, 2));
}

fn whole(rt: &impl Print) {
    let image = WORDS;
    answer(rt, b"the image itself", layout_of(&image, 2));
    answer(rt, b"with a pool of 3 bytes", layout_of(&image, 3));
    answer(rt, b"no words", layout_of(&image[..0], 0));
    answer(rt, b"23 words", layout_of(&image[..23], 2));
    answer(rt, b"all but the last word", layout_of(&image[..111], 2));
}

fn trailer(rt: &impl Print) {
    show(rt, b"layout number 2", 88, 2);
    show(rt, b"syntax 4", 93, 4);
    show(rt, b"pool length 3, not 2", 110, 3);
    show(rt, b"trailer start 87", 111, 87);
    show(rt, b"file name past the pool", 90, 3);
    show(rt, b"package absent, start at the pool's end", 91, 2);
    show(rt, b"package absent, start past the pool", 91, 3);
}

fn sections(rt: &impl Print) {
    show(rt, b"a gap before the messages", 96, 4);
    show(rt, b"one import too many", 95, 2);
    show(rt, b"top-level messages 3 of 2", 106, 3);
    show(rt, b"top-level messages 2, one of them nested", 106, 2);
    show(rt, b"top-level messages 0, so A has no owner", 106, 0);
    show(rt, b"top-level enum 1, owned by A too", 107, 1);
    show(rt, b"file extensions 2 of 1", 109, 2);
    show(rt, b"file extension owned by A too", 108, 1);
}

fn messages(rt: &impl Print) {
    show(rt, b"A nested in itself", 5, 0);
    show(rt, b"B with an empty range that starts at 1", 19, 1);
    show(rt, b"nested messages outside the section", 6, 2);
    show(rt, b"map-entry option 2", 16, 2);
    show(rt, b"7 extension ranges", 15, 7);
    show(rt, b"name past the pool", 4, 3);
    show(rt, b"public 2", 2, 2);
    show(rt, b"no fields, so the field has no owner", 10, 0);
}

fn others(rt: &impl Print) {
    show(rt, b"enum with 2 values of 1", 34, 2);
    show(rt, b"enum with no values, so the value has no owner", 34, 0);
    show(rt, b"value name past the pool", 36, 3);
    show(rt, b"value number 4294967295", 37, 4294967295);
    show(rt, b"oneof name past the pool", 39, 3);
}

fn fields(rt: &impl Print) {
    show(rt, b"label 0", 43, 0);
    show(rt, b"label 4", 43, 4);
    show(rt, b"type 0", 44, 0);
    show(rt, b"type 19", 44, 19);
    show(rt, b"number 4294967295", 42, 4294967295);
    show(rt, b"oneof index 98 of 1", 54, 99);
    show(rt, b"type name past the pool", 46, 3);
    show(rt, b"extendee past the pool", 48, 3);
}

fn more_fields(rt: &impl Print) {
    show(rt, b"JSON name past the pool", 50, 3);
    show(rt, b"default given 2", 51, 2);
    show(rt, b"default past the pool, not given", 53, 3);
    show(rt, b"proto3_optional 2", 55, 2);
}

// The texts of the image with one word changed, over a pool of two bytes.
fn show_texts(rt: &impl Print, label: &[u8], pool: &[u8], at: usize, word: u32) {
    let image = changed(at, word);
    answer(rt, label, texts_of(&image, pool));
}

fn pools(rt: &impl Print) {
    show_texts(rt, b"pool `ab`", b"ab", 0, 0);
    show_texts(rt, b"pool `_Z`", b"_Z", 0, 0);
    show_texts(rt, b"pool `1b`, a name starts with a digit", b"1b", 0, 0);
    show_texts(rt, b"pool `a `, the file name has a blank", b"a ", 0, 0);
}

fn missing(rt: &impl Print) {
    show_texts(rt, b"no file name", b"ab", 90, 0);
    show_texts(rt, b"package `a`", b"ab", 92, 1);
    show_texts(rt, b"package `.`", b"a.", 92, 2);
    show_texts(rt, b"an import without a name", b"ab", 1, 0);
    show_texts(rt, b"a value without a name", b"ab", 36, 0);
    show_texts(rt, b"int32 with a type name that is none", b"ab", 46, 1);
    show_texts(rt, b"message without a type name", b"ab", 44, 11);
}

fn field_texts(rt: &impl Print) {
    show_texts(rt, b"extendee `a`", b"ab", 48, 1);
    show_texts(rt, b"JSON name of byte 31", b"a\x1f", 49, 1);
    show_texts(rt, b"default `a`, not given", b"ab", 53, 1);
    show_texts(rt, b"empty default, given", b"ab", 51, 1);
}

fn main(rt: HostRuntime) {
    whole(&rt);
    trailer(&rt);
    sections(&rt);
    messages(&rt);
    in_a_circle(&rt);
    others(&rt);
    fields(&rt);
    more_fields(&rt);
    pools(&rt);
    missing(&rt);
    field_texts(&rt);
}
