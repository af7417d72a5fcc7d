// Judges images that stand on standard input in the format of oracle/FORMAT.md, each by itself: refusals 3 to 5, 8 to 11 and 17, and the
// link rows of what draws none. Where a case says something else, that is said too. Shelves among them are judged by rule 2. Then come
// images at the limits of rule 4 and past them.
#![tactic(auto)]

mod answers;
mod crowds;
mod files;
mod shelves;

use shelf_io::files::read_full;
use shelf_io::say;

fn main(rt: HostRuntime) {
    let mut text = io::large_buffer();
    let n = read_full(&mut rt.reader(), &mut text);
    if n == text.len() {
        say::text(
            &rt,
            b"the list of cases is too long: at most 65,535 bytes are read\n",
        );
        return;
    }
    files::run(&rt, tokens::front(&text, n));
    crowds::run(&rt);
}
