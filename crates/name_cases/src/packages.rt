// Names beneath a package, and joined names.
use crate::say;
use names::name;

fn rest(rt: &impl Print, full: &[u8], package: &[u8]) {
    say::quoted(rt, full);
    say::text(rt, b" beneath package ");
    say::quoted(rt, package);
    if name::lies_beneath(full, package) {
        say::text(rt, b": yes, rest ");
    } else {
        say::text(rt, b": no, rest ");
    }
    say::quoted(rt, name::rest_beneath(full, package));
    say::text(rt, b"\n");
}

fn beneath(rt: &impl Print) {
    rest(rt, b".foo.bar", b"foo");
    rest(rt, b".foo.bar.Baz", b"foo.bar");
    rest(rt, b".foo.bar.Baz", b"foo");
    rest(rt, b".foo", b"");
    rest(rt, b".foo.bar", b"");
    rest(rt, b".foo.", b"foo");
    rest(rt, b".", b"");
}

fn elsewhere(rt: &impl Print) {
    rest(rt, b".foo", b"foo");
    rest(rt, b".foobar.x", b"foo");
    rest(rt, b".fo.x", b"foo");
    rest(rt, b".foo.bar", b"foo.bar");
    rest(rt, b"foo.bar", b"foo");
    rest(rt, b"foo", b"");
    rest(rt, b"", b"");
    rest(rt, b"", b"foo");
}

// Joins two names in a buffer of twelve bytes, and shows all of it.
fn join(rt: &impl Print, first: &[u8], second: &[u8]) {
    let mut out = [b'-'; 12];
    name::put_front(&mut out, first);
    say::text(rt, b"join ");
    say::quoted(rt, first);
    say::text(rt, b" and ");
    say::quoted(rt, second);
    match name::concat_paths(&mut out, first.len(), second) {
        Some(n) => {
            say::text(rt, b": length ");
            say::number(rt, n as u64);
        }
        None => say::text(rt, b": no room"),
    }
    say::text(rt, b", buffer ");
    say::quoted(rt, &out);
    say::text(rt, b"\n");
}

fn joined(rt: &impl Print) {
    join(rt, b"foo", b"Bar");
    join(rt, b"", b"Bar");
    join(rt, b"foo", b"");
    join(rt, b"", b"");
}

fn joined_at_the_end(rt: &impl Print) {
    join(rt, b"foo.bar", b"Baz1");
    join(rt, b"foo.bar", b"Baz12");
    join(rt, b"", b"thirteenbytes");
    join(rt, b"twelve bytes", b"x");
    join(rt, b"twelve bytes", b"");
}

pub fn run(rt: &impl Print) {
    beneath(rt);
    elsewhere(rt);
    joined(rt);
    joined_at_the_end(rt);
}
