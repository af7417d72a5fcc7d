// What is lent as one value, and the numbers of answers.
ghost use Rattle.std.specs.Prelude.{◌≡◌};
ghost use Rattle.link.specs.Link.{answer_number, answer_place, answer_used};
ghost use Rattle.link.specs.Lookup.{asked_of, looked_number, looked_value};
ghost use Rattle.njuolasti.specs.Abi.{asked_with};

use image::shelf::Used;
use link::link::Linked;
use link::lookup;
use link::lookup::{Lent, Looked};

// A shelf as C lends it: two slices and three numbers.
pub(crate) fn lent<'a>(
    words: &'a [u32],
    bytes: &'a [u8],
    used_words: u32,
    used_bytes: u32,
    files: u32,
) -> Lent<'a>
    ensures { asked_of result ≡ asked_with words.now bytes.now used_words used_bytes files }
{
    Lent {
        words,
        bytes,
        used: Used {
            words: used_words,
            bytes: used_bytes,
            files,
        },
    }
}

// The number of a lookup's answer; what was found goes into `found`, 0 where nothing was.
pub(crate) fn answer(looked: Looked, found: &mut u32) -> u32
    ensures value { result ≡ looked_number looked }
    ensures found_after { found.new ≡ looked_value looked }
{
    *found = lookup::value(looked);
    lookup::number(looked)
}

// 0 where the file is accepted, else the refusal's number.
pub(crate) fn answer_number(linked: Linked) -> u32
    ensures { result ≡ answer_number linked }
{
    match linked {
        Ok(_) => 0,
        Err(refused) => refused.refusal.number(),
    }
}

// Its place, 0 where the file is accepted.
pub(crate) fn answer_place(linked: Linked) -> u32
    ensures { result ≡ answer_place linked }
{
    match linked {
        Ok(_) => 0,
        Err(refused) => refused.place,
    }
}

// The three numbers afterwards, which a refusal leaves.
pub(crate) fn answer_used(was: Used, linked: Linked) -> Used
    ensures { result ≡ answer_used was linked }
{
    linked.unwrap_or(was)
}
