// Links files that stand on standard input in the format of oracle/FORMAT.md, and says what was answered: the link rows of each file that
// is accepted, or the refusal with its place. Where a case says something else, or a refusal changed the shelf, that is said too.
//
// Among the files of a case may stand
//
//     "room" WORDS BYTES     from here on only so many words and bytes of the shelf are lent
//     "longer" WORDS         from here on an image is lent with zeros behind it, up to so many words
//     "change" PLACE WORD    a word of the shelf is set
//
// so that the refusals can be seen that need such a shelf or such an image.
#![tactic(auto)]

mod cases;
mod files;
mod records;
mod say;
mod state;

use shelf_io::files::read_full;

fn main(rt: HostRuntime) {
    let mut text = io::large_buffer();
    let n = read_full(&mut rt.reader(), &mut text);
    if n == text.len() {
        say::text(
            &rt,
            b"the list of cases is too long: at most 65,535 bytes are read\n",
        );
        return;
    }
    let mut words = [0u32; state::SHELF_WORDS];
    let mut bytes = [0u8; state::SHELF_BYTES];
    cases::run(&rt, tokens::front(&text, n), &mut words, &mut bytes);
}
