// Derived JSON names, and keys.
use crate::say;
use names::{json_name, key};

fn derive(rt: &impl Print, name: &[u8]) {
    let mut out = [b'-'; 8];
    say::text(rt, b"JSON name of ");
    say::quoted(rt, name);
    match json_name::write_json_name(&mut out, name) {
        Some(n) => {
            say::text(rt, b": length ");
            say::number(rt, n as u64);
        }
        None => say::text(rt, b": no room"),
    }
    say::text(rt, b", buffer ");
    say::quoted(rt, &out);
    say::text(rt, b"\n");
}

fn derived(rt: &impl Print) {
    derive(rt, b"a_b");
    derive(rt, b"_a");
    derive(rt, b"a__b");
    derive(rt, b"a_1");
    derive(rt, b"URL_x");
    derive(rt, b"a_B");
}

fn derived_at_the_end(rt: &impl Print) {
    derive(rt, b"ab_");
    derive(rt, b"__");
    derive(rt, b"");
    derive(rt, b"a_b_c_d_e_f_g_h");
    derive(rt, b"nine_bytes");
}

fn is(rt: &impl Print, name: &[u8], text: &[u8]) {
    say::quoted(rt, text);
    say::text(rt, b" is the JSON name of ");
    say::quoted(rt, name);
    say::answer(rt, json_name::is_json_name(name, text));
}

fn same(rt: &impl Print, name: &[u8], other: &[u8]) {
    say::quoted(rt, name);
    say::text(rt, b" and ");
    say::quoted(rt, other);
    say::text(rt, b" have one JSON name");
    say::answer(rt, json_name::same_json_names(name, other));
}

fn compared(rt: &impl Print) {
    is(rt, b"a_b", b"aB");
    is(rt, b"a_b", b"a_b");
    is(rt, b"a_b", b"aBc");
    is(rt, b"a_bc", b"aB");
    is(rt, b"__", b"");
}

fn compared_both_derived(rt: &impl Print) {
    same(rt, b"a_b", b"aB");
    same(rt, b"a_b", b"a__b_");
    same(rt, b"_a", b"A");
    same(rt, b"_a", b"a");
    same(rt, b"__", b"_");
    same(rt, b"ab", b"a");
    same(rt, b"a", b"ab");
}

fn keyed(rt: &impl Print, name: &[u8]) {
    say::text(rt, b"key of ");
    say::quoted(rt, name);
    say::text(rt, b": ");
    say::number(rt, key::text_key(name) as u64);
    say::text(rt, b", of its JSON name: ");
    say::number(rt, key::json_key(name) as u64);
    say::text(rt, b"\n");
}

// The key of a derived name is that of the text.
fn keys(rt: &impl Print) {
    keyed(rt, b"a_b");
    keyed(rt, b"aB");
    keyed(rt, b"deck_metres_");
    keyed(rt, b"deckMetres");
    keyed(rt, b"__");
    keyed(rt, b"");
}

pub fn run(rt: &impl Print) {
    derived(rt);
    derived_at_the_end(rt);
    compared(rt);
    compared_both_derived(rt);
    keys(rt);
}
