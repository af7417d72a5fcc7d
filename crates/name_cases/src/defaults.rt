// Defaults of each type.
use crate::say;
use names::runtime_type_box;
use names::runtime_type_box::{DefaultRefused, ReadDefault, Words};

fn words(rt: &impl Print, w: Words) {
    say::text(rt, b", words ");
    say::number(rt, w.low as u64);
    say::text(rt, b" ");
    say::number(rt, w.high as u64);
}

// What a default of a type says. The text is taken to start at byte 7 of its pool.
fn read(rt: &impl Print, number: u32, value: &[u8]) {
    let Some(t) = runtime_type_box::type_of(number) else {
        say::text(rt, b": no such type\n");
        return;
    };
    let r = runtime_type_box::from_proto_type(t);
    let answer = runtime_type_box::parse_proto_default_value(r, value, 7);
    match answer {
        Ok(ReadDefault::Integer(w)) => {
            say::text(rt, b": integer or bool");
            words(rt, w);
        }
        Ok(ReadDefault::Text(w)) => {
            say::text(rt, b": text");
            words(rt, w);
        }
        Ok(ReadDefault::ValueName) => say::text(rt, b": an enum's value"),
        Err(DefaultRefused::Unreadable) => say::text(rt, b": refused, 12"),
        Err(DefaultRefused::Unsupported) => say::text(rt, b": refused, 13"),
    }
    say::text(rt, b"\n");
}

fn default(rt: &impl Print, name: &[u8], number: u32, value: &[u8]) {
    say::text(rt, b"default of ");
    say::text(rt, name);
    say::text(rt, b" ");
    say::quoted(rt, value);
    read(rt, number, value);
}

fn signed_32(rt: &impl Print) {
    default(rt, b"int32", 5, b"-0");
    default(rt, b"int32", 5, b"+0");
    default(rt, b"int32", 5, b"2147483647");
    default(rt, b"int32", 5, b"2147483648");
    default(rt, b"sint32", 17, b"-2147483648");
    default(rt, b"sfixed32", 15, b"-2147483649");
}

fn signed_64(rt: &impl Print) {
    default(rt, b"int64", 3, b"-1");
    default(rt, b"int64", 3, b"9223372036854775807");
    default(rt, b"int64", 3, b"9223372036854775808");
    default(rt, b"sint64", 18, b"-9223372036854775808");
    default(rt, b"sfixed64", 16, b"-9223372036854775809");
}

fn unsigned(rt: &impl Print) {
    default(rt, b"uint32", 13, b"-0");
    default(rt, b"uint32", 13, b"+0");
    default(rt, b"uint32", 13, b"4294967295");
    default(rt, b"fixed32", 7, b"4294967296");
    default(rt, b"uint64", 4, b"18446744073709551615");
    default(rt, b"fixed64", 6, b"18446744073709551616");
    default(rt, b"fixed64", 6, b"99999999999999999999999999");
    default(rt, b"uint64", 4, b"-1");
}

fn shapes(rt: &impl Print) {
    default(rt, b"int32", 5, b"");
    default(rt, b"int32", 5, b"-");
    default(rt, b"int32", 5, b"+");
    default(rt, b"uint32", 13, b"+");
    default(rt, b"int32", 5, b"+-1");
    default(rt, b"int32", 5, b"--1");
    default(rt, b"int32", 5, b"1 ");
    default(rt, b"int32", 5, b"0x1");
    default(rt, b"int32", 5, b"1.0");
}

fn bools_and_texts(rt: &impl Print) {
    default(rt, b"bool", 8, b"true");
    default(rt, b"bool", 8, b"false");
    default(rt, b"bool", 8, b"True");
    default(rt, b"bool", 8, b"");
    default(rt, b"string", 9, b"hello");
    default(rt, b"string", 9, b"");
}

fn other_types(rt: &impl Print) {
    default(rt, b"enum", 14, b"A");
    default(rt, b"group", 10, b"");
    default(rt, b"message", 11, b"x");
    default(rt, b"double", 1, b"1");
    default(rt, b"float", 2, b"inf");
    default(rt, b"bytes", 12, b"a");
    default(rt, b"type number 0", 0, b"1");
    default(rt, b"type number 19", 19, b"1");
}

// A digit behind as many zeros as a default has room for.
fn padded(rt: &impl Print, name: &[u8], number: u32) {
    let mut digits = [b'0'; 256];
    digits[255] = b'7';
    say::text(rt, b"default of ");
    say::text(rt, name);
    say::text(rt, b" of 255 zeros and a 7");
    read(rt, number, &digits);
}

fn long_texts(rt: &impl Print) {
    padded(rt, b"int32", 5);
    padded(rt, b"uint64", 4);
}

pub fn run(rt: &impl Print) {
    signed_32(rt);
    signed_64(rt);
    unsigned(rt);
    shapes(rt);
    long_texts(rt);
    bools_and_texts(rt);
    other_types(rt);
}
