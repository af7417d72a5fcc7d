// The byte rules.
use crate::say;
use names::bytes;

fn identifier(rt: &impl Print, s: &[u8]) {
    say::text(rt, b"identifier ");
    say::quoted(rt, s);
    say::answer(rt, bytes::is_identifier(s));
}

fn identifier_list(rt: &impl Print, s: &[u8]) {
    say::text(rt, b"identifiers joined by dots ");
    say::quoted(rt, s);
    say::answer(rt, bytes::is_identifier_list(s));
}

fn package(rt: &impl Print, s: &[u8]) {
    say::text(rt, b"package ");
    say::quoted(rt, s);
    say::answer(rt, bytes::is_package(s));
}

fn type_name(rt: &impl Print, s: &[u8]) {
    say::text(rt, b"type name ");
    say::quoted(rt, s);
    say::answer(rt, bytes::is_type_name(s));
}

// Texts that a terminal cannot show are `shown` in another way.
fn file_name(rt: &impl Print, shown: &[u8], s: &[u8]) {
    say::text(rt, b"file name ");
    say::quoted(rt, shown);
    say::answer(rt, bytes::is_file_name(s));
}

fn printable(rt: &impl Print, shown: &[u8], s: &[u8]) {
    say::text(rt, b"JSON name or default ");
    say::quoted(rt, shown);
    say::answer(rt, bytes::is_printable(s));
}

fn identifiers(rt: &impl Print) {
    identifier(rt, b"_a");
    identifier(rt, b"a1");
    identifier(rt, b"URL_x");
    identifier(rt, b"_");
    identifier(rt, b"Z9");
    identifier(rt, b"");
}

fn no_identifiers(rt: &impl Print) {
    identifier(rt, b"1a");
    identifier(rt, b"a-b");
    identifier(rt, b"a.b");
    identifier(rt, b"a b");
    identifier(rt, b"[");
    identifier(rt, b"z{");
}

fn identifier_lists(rt: &impl Print) {
    identifier_list(rt, b"a");
    identifier_list(rt, b"a.b._c1");
    identifier_list(rt, b"");
    identifier_list(rt, b".");
    identifier_list(rt, b".a");
    identifier_list(rt, b"a.");
    identifier_list(rt, b"a..b");
    identifier_list(rt, b"a.1b");
}

fn packages(rt: &impl Print) {
    package(rt, b"");
    package(rt, b"foo.bar");
    package(rt, b".foo");
    package(rt, b"foo.");
}

fn type_names(rt: &impl Print) {
    type_name(rt, b".foo.Bar");
    type_name(rt, b".A");
    type_name(rt, b"");
    type_name(rt, b".");
    type_name(rt, b"A");
    type_name(rt, b"..A");
}

fn file_names(rt: &impl Print) {
    file_name(rt, b"ferry/deck.proto", b"ferry/deck.proto");
    file_name(rt, b"!~", b"!~");
    file_name(rt, b"", b"");
    file_name(rt, b"a b", b"a b");
    file_name(rt, b"a, byte 127", b"a\x7f");
}

fn printables(rt: &impl Print) {
    printable(rt, b"", b"");
    printable(rt, b"a b~", b"a b~");
    printable(rt, b"a, byte 31", b"a\x1f");
    printable(rt, b"byte 128", b"\x80");
}

pub fn run(rt: &impl Print) {
    identifiers(rt);
    no_identifiers(rt);
    identifier_lists(rt);
    packages(rt);
    type_names(rt);
    file_names(rt);
    printables(rt);
}
