// Replays the stored cases: links every file of `cases.txt`, and holds what is answered against what the case expects and against
// `answers.txt`, the answers of the crate `protobuf`. Both lists are in the format of oracle/FORMAT.md.
//
// What must agree is that page's table, but for two things. At which field an error of the crate can be meant is left to the oracle; and
// a file that only one of the two accepts moves the numbers of later files, so that they would show as different words.
//
// Each difference is a line. The last lines say how many cases and files there were, and what became of each file.
#![tactic(auto)]

mod answers;
mod cases;
mod files;
mod judge;
mod say;
mod state;
mod tally;
mod words;

use shelf_io::files::read_full;
use state::Lists;
use std::fs;
use std::rt::Files;

// Room for each list, and a byte more.
const CASES_ROOM: usize = 600001;

const ANSWERS_ROOM: usize = 200001;

// Reads a list, and answers how many bytes it has; 0 where there is none.
fn read_list(rt: &impl Files, path: &str, list: &mut [u8]) -> usize {
    let Ok(mut file) = fs::open(rt, path) else {
        return 0;
    };
    read_full(&mut file, list)
}

fn main(rt: HostRuntime) {
    let mut cases = [0u8; CASES_ROOM];
    let mut answers = [0u8; ANSWERS_ROOM];
    let n = read_list(&rt, "cases.txt", &mut cases);
    let k = read_list(&rt, "answers.txt", &mut answers);
    if n == 0 || k == 0 {
        say::text(&rt, b"cases.txt or answers.txt is missing or empty\n");
        return;
    }
    if n == CASES_ROOM || k == ANSWERS_ROOM {
        say::text(
            &rt,
            b"a list is too long: at most 600,000 bytes of cases and 200,000 of answers are read\n",
        );
        return;
    }
    let mut words = [0u32; state::SHELF_WORDS];
    let mut bytes = [0u8; state::SHELF_BYTES];
    let lists = Lists {
        cases: tokens::front(&cases, n),
        answers: tokens::front(&answers, k),
    };
    cases::replay(&rt, lists, &mut words, &mut bytes);
}
