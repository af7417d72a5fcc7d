// Images that stand at a limit of rule 4, or pass it: rows of one kind, nested messages, long texts and long full names. The pool is 600
// bytes `a`; what keeps to the limits may then break a later rule, 5 or 8.
use crate::answers;
use shelf_io::say;

// How many rows of each kind there are. The file owns enums and fields, its first message the oneofs, the first enum the values.
#[derive(Clone, Copy, PartialEq, Eq)]
struct Crowd {
    imports: u16,
    messages: u16,
    enums: u16,
    values: u16,
    oneofs: u16,
    fields: u16,
}

// Where the sections start, and the trailer.
#[derive(Clone, Copy, PartialEq, Eq)]
struct Starts {
    messages: u32,
    enums: u32,
    values: u32,
    oneofs: u32,
    fields: u32,
    trailer: u32,
}

fn sections_of(c: Crowd) -> Starts {
    let messages = c.imports as u32 * 3;
    let enums = messages + c.messages as u32 * 14;
    let values = enums + c.enums as u32 * 4;
    let oneofs = values + c.values as u32 * 3;
    let fields = oneofs + c.oneofs as u32 * 2;
    let trailer = fields + c.fields as u32 * 16;
    Starts {
        messages,
        enums,
        values,
        oneofs,
        fields,
        trailer,
    }
}

// Sets word k behind `start`.
fn set(words: &mut [u32], start: u32, k: u32, word: u32) {
    tokens::set(words, start as usize + k as usize, word);
}

// Gives n rows of a section a name of one byte.
fn name_rows(words: &mut [u32], start: u32, width: u8, n: u16) {
    for r in 0..n {
        set(words, start, r as u32 * width as u32 + 1, 1);
    }
}

// Numbers the fields of a section; each is an optional int32.
fn field_rows(words: &mut [u32], start: u32, n: u16) {
    for r in 0..n {
        let at = r as u32 * 16;
        set(words, start, at + 2, r as u32 + 1);
        set(words, start, at + 3, 1);
        set(words, start, at + 4, 5);
    }
}

// Two words of the trailer: a section's start and count, or others that stand together.
fn section(words: &mut [u32], s: Starts, k: u8, start: u32, count: u16) {
    set(words, s.trailer, k as u32, start);
    set(words, s.trailer, k as u32 + 1, count as u32);
}

fn file_words(words: &mut [u32], c: Crowd, s: Starts) {
    section(words, s, 0, 1, 0);
    section(words, s, 1, 0, 1);
    section(words, s, 5, 3, 0);
    section(words, s, 18, c.messages as u32, c.enums);
    section(words, s, 20, 0, c.fields);
}

fn section_words(words: &mut [u32], c: Crowd, s: Starts) {
    section(words, s, 6, 0, c.imports);
    section(words, s, 8, s.messages, c.messages);
    section(words, s, 10, s.enums, c.enums);
    section(words, s, 12, s.values, c.values);
    section(words, s, 14, s.oneofs, c.oneofs);
    section(words, s, 16, s.fields, c.fields);
}

// What the rows say beside their names.
fn fill(words: &mut [u32], c: Crowd, s: Starts) {
    field_rows(words, s.fields, c.fields);
    own_oneofs(words, c, s);
    own_values(words, c, s);
}

fn own_oneofs(words: &mut [u32], c: Crowd, s: Starts) {
    if c.messages == 0 {
        return;
    }
    set(words, s.messages, 11, c.oneofs as u32);
}

fn own_values(words: &mut [u32], c: Crowd, s: Starts) {
    if c.enums == 0 {
        return;
    }
    set(words, s.enums, 3, c.values as u32);
}

fn name_all(words: &mut [u32], c: Crowd, s: Starts) {
    name_rows(words, 0, 3, c.imports);
    name_rows(words, s.messages, 14, c.messages);
    name_rows(words, s.enums, 4, c.enums);
    name_rows(words, s.values, 3, c.values);
    name_rows(words, s.oneofs, 2, c.oneofs);
    name_rows(words, s.fields, 16, c.fields);
}

// The whole image, over words that are 0.
fn build(words: &mut [u32], c: Crowd, s: Starts) {
    name_all(words, c, s);
    fill(words, c, s);
    file_words(words, c, s);
    section_words(words, c, s);
    set(words, s.trailer, 22, 600);
    set(words, s.trailer, 23, s.trailer);
}

// Judges the words up to the end of the trailer, and says what was answered.
fn show(rt: &impl Print, label: &[u8], words: &[u32], trailer: u32) {
    let pool = [97u8; 600];
    let mut links = [0u32; 4096];
    let end = trailer as usize + 24;
    let a = answers::answer_to(tokens::front(words, end), &pool, &mut links);
    say::text(rt, label);
    say::text(rt, b": ");
    answers::say(rt, a);
    say::text(rt, b"\n");
}

fn show_crowd(rt: &impl Print, label: &[u8], c: Crowd) {
    let mut words = [0u32; 34000];
    let s = sections_of(c);
    build(&mut words, c, s);
    show(rt, label, &words, s.trailer);
}

// One message, and so many rows of other kinds.
fn with(imports: u16, messages: u16, enums: u16, values: u16, oneofs: u16, fields: u16) -> Crowd {
    Crowd {
        imports,
        messages,
        enums,
        values,
        oneofs,
        fields,
    }
}

fn crowds(rt: &impl Print) {
    show_crowd(rt, b"32 imports", with(32, 1, 0, 0, 0, 0));
    show_crowd(rt, b"33 imports", with(33, 1, 0, 0, 0, 0));
    show_crowd(rt, b"256 messages of one name", with(0, 256, 0, 0, 0, 0));
    show_crowd(rt, b"257 messages", with(0, 257, 0, 0, 0, 0));
    show_crowd(rt, b"256 enums of one name", with(0, 0, 256, 0, 0, 0));
    show_crowd(rt, b"257 enums", with(0, 0, 257, 0, 0, 0));
    show_crowd(rt, b"4096 values", with(0, 0, 1, 4096, 0, 0));
    show_crowd(rt, b"4097 values", with(0, 0, 1, 4097, 0, 0));
    show_crowd(rt, b"256 oneofs", with(0, 1, 0, 0, 256, 0));
    show_crowd(rt, b"257 oneofs", with(0, 1, 0, 0, 257, 0));
    show_crowd(rt, b"2048 fields", with(0, 1, 0, 0, 0, 2048));
    show_crowd(rt, b"2049 fields", with(0, 1, 0, 0, 0, 2049));
}

// Messages that stand in one another, the last with an enum: so many of them, the length of their names, of the last one's, of the
// enum's, if there is one, and of the package.
#[derive(Clone, Copy, PartialEq, Eq)]
struct Chain {
    count: u16,
    name: u32,
    last: u32,
    inner: Option<u32>,
    package: u32,
}

// Nests each message of a chain in the one before.
fn nest(words: &mut [u32], s: Starts, n: Chain) {
    for r in 1..n.count {
        let at = r as u32 * 14 - 14;
        set(words, s.messages, at + 1, n.name);
        set(words, s.messages, at + 2, r as u32);
        set(words, s.messages, at + 3, 1);
    }
    let messages = n.count.max(1) as u32;
    set(words, s.messages, messages * 14 - 13, n.last);
    set(words, s.trailer, 4, n.package);
    set(words, s.trailer, 18, 1);
}

// Puts the one enum into the last message.
fn put_inside(words: &mut [u32], s: Starts, n: Chain) {
    let Some(inner) = n.inner else {
        return;
    };
    if n.count == 0 {
        return;
    }
    set(words, s.messages, n.count as u32 * 14 - 9, 1);
    set(words, s.enums, 1, inner);
    set(words, s.trailer, 19, 0);
}

fn show_chain(rt: &impl Print, label: &[u8], n: Chain) {
    let mut words = [0u32; 1000];
    let c = with(0, n.count, u16::from(n.inner.is_some()), 0, 0, 0);
    let s = sections_of(c);
    build(&mut words, c, s);
    nest(&mut words, s, n);
    put_inside(&mut words, s, n);
    show(rt, label, &words, s.trailer);
}

fn nested(count: u16, name: u32, last: u32, inner: Option<u32>, package: u32) -> Chain {
    Chain {
        count,
        name,
        last,
        inner,
        package,
    }
}

fn chains(rt: &impl Print) {
    show_chain(rt, b"16 messages in one another", nested(16, 1, 1, None, 0));
    show_chain(rt, b"17 messages in one another", nested(17, 1, 1, None, 0));
    show_chain(
        rt,
        b"16 messages, an enum in the last",
        nested(16, 1, 1, Some(1), 0),
    );
    show_chain(
        rt,
        b"a full name of 512 bytes",
        nested(6, 64, 58, None, 128),
    );
    show_chain(
        rt,
        b"a full name of 513 bytes",
        nested(6, 64, 59, None, 128),
    );
    show_chain(
        rt,
        b"an enum's full name of 512 bytes",
        nested(5, 64, 64, Some(58), 128),
    );
    show_chain(
        rt,
        b"an enum's full name of 513 bytes",
        nested(5, 64, 64, Some(59), 128),
    );
    show_chain(rt, b"a message name of 64 bytes", nested(1, 1, 64, None, 0));
    show_chain(rt, b"a message name of 65 bytes", nested(1, 1, 65, None, 0));
    show_chain(rt, b"a package of 128 bytes", nested(1, 1, 1, None, 128));
    show_chain(rt, b"a package of 129 bytes", nested(1, 1, 1, None, 129));
}

// One row of every kind, with one word of it changed: word k of the section that starts at `start`. For a field, its type and whether
// a default is given, too.
fn changed(rt: &impl Print, label: &[u8], start: u32, k: u32, word: u32, kind: u32, given: u32) {
    let mut words = [0u32; 200];
    let c = with(1, 1, 1, 1, 1, 1);
    let s = sections_of(c);
    build(&mut words, c, s);
    set(&mut words, s.fields, 4, kind);
    set(&mut words, s.fields, 11, given);
    set(&mut words, start, k, word);
    show(rt, label, &words, s.trailer);
}

fn names(rt: &impl Print) {
    let s = sections_of(with(1, 1, 1, 1, 1, 1));
    changed(rt, b"an import's name of 128 bytes", 0, 1, 128, 5, 0);
    changed(rt, b"an import's name of 129 bytes", 0, 1, 129, 5, 0);
    changed(rt, b"a file name of 128 bytes", s.trailer, 2, 128, 5, 0);
    changed(rt, b"a file name of 129 bytes", s.trailer, 2, 129, 5, 0);
    changed(rt, b"an enum name of 65 bytes", s.enums, 1, 65, 5, 0);
    changed(rt, b"a value name of 65 bytes", s.values, 1, 65, 5, 0);
    changed(rt, b"a oneof name of 65 bytes", s.oneofs, 1, 65, 5, 0);
    changed(rt, b"a field name of 65 bytes", s.fields, 1, 65, 5, 0);
}

fn field_texts(rt: &impl Print) {
    let s = sections_of(with(1, 1, 1, 1, 1, 1));
    changed(rt, b"a type name of 512 bytes", s.fields, 6, 512, 11, 0);
    changed(rt, b"a type name of 513 bytes", s.fields, 6, 513, 11, 0);
    changed(
        rt,
        b"a type name of 513 bytes on an int32",
        s.fields,
        6,
        513,
        5,
        0,
    );
    changed(rt, b"an extendee of 513 bytes", s.fields, 8, 513, 5, 0);
    changed(rt, b"a JSON name of 64 bytes", s.fields, 10, 64, 5, 0);
    changed(rt, b"a JSON name of 65 bytes", s.fields, 10, 65, 5, 0);
    changed(rt, b"a default of 256 bytes", s.fields, 13, 256, 9, 1);
    changed(rt, b"a default of 257 bytes", s.fields, 13, 257, 9, 1);
    changed(
        rt,
        b"a default of 257 bytes, not given",
        s.fields,
        13,
        257,
        9,
        0,
    );
}

pub fn run(rt: &impl Print) {
    crowds(rt);
    chains(rt);
    names(rt);
    field_texts(rt);
}
