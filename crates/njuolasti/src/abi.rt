// What C and Rust programs call.
ghost use Rattle.std.specs.Prelude.{◌≡◌};
ghost use Rattle.link.specs.Link.{linked, answer_number, answer_place};
ghost use Rattle.link.specs.declared.building.Wanted.TheVariants.{Message, Enum};
ghost use Rattle.link.specs.Lookup.{item_named, value_numbered, value_named, field_numbered, field_named, shelf_verdict, looked_number, looked_value, looked_up, item_written, name_written};
ghost use Rattle.njuolasti.specs.Abi.{call_with, used_after, asked_with, verdict_number};

use crate::answers::{answer, answer_number, answer_place, answer_used, lent};
use image::shelf::Used;
use link::lookup;

// Links an image onto a shelf: 0 and the three new numbers, or the refusal's number and its place, with words, bytes and numbers as they were.
#[unsafe(no_mangle)]
pub extern "C" fn njuolasti_link(
    image: &[u32],
    pool: &[u8],
    words: &mut [u32],
    bytes: &mut [u8],
    used_words: &mut u32,
    used_bytes: &mut u32,
    files: &mut u32,
    place: &mut u32,
) -> u32
    ensures value { result ≡ answer_number (linked (call_with image.now pool.now words.old bytes.old used_words.old used_bytes.old files.old)).answer }
    ensures place_after { place.new ≡ answer_place (linked (call_with image.now pool.now words.old bytes.old used_words.old used_bytes.old files.old)).answer }
    ensures words_after { words.new ≡ (linked (call_with image.now pool.now words.old bytes.old used_words.old used_bytes.old files.old)).words }
    ensures bytes_after { bytes.new ≡ (linked (call_with image.now pool.now words.old bytes.old used_words.old used_bytes.old files.old)).bytes }
    ensures used_words_after { used_words.new ≡ (used_after (call_with image.now pool.now words.old bytes.old used_words.old used_bytes.old files.old)).words }
    ensures used_bytes_after { used_bytes.new ≡ (used_after (call_with image.now pool.now words.old bytes.old used_words.old used_bytes.old files.old)).bytes }
    ensures files_after { files.new ≡ (used_after (call_with image.now pool.now words.old bytes.old used_words.old used_bytes.old files.old)).files }
{
    let used = Used {
        words: *used_words,
        bytes: *used_bytes,
        files: *files,
    };
    let linked = link::link::link(words, bytes, used, image, pool);
    let after = answer_used(used, linked);
    *used_words = after.words;
    *used_bytes = after.bytes;
    *files = after.files;
    *place = answer_place(linked);
    answer_number(linked)
}

// The flat number of a message, by its full name behind a dot.
#[unsafe(no_mangle)]
pub extern "C" fn njuolasti_message(
    words: &[u32],
    bytes: &[u8],
    used_words: u32,
    used_bytes: u32,
    files: u32,
    file: u32,
    name: &[u8],
    found: &mut u32,
) -> u32
    ensures value { result ≡ looked_number (looked_up (asked_with words.now bytes.now used_words used_bytes files) file (λ x. item_named Message x name.now)) }
    ensures found_after { found.new ≡ looked_value (looked_up (asked_with words.now bytes.now used_words used_bytes files) file (λ x. item_named Message x name.now)) }
{
    let lent = lent(words, bytes, used_words, used_bytes, files);
    let looked = lookup::message_by_full_name(&lent, file, name);
    answer(looked, found)
}

// The flat number of an enum, by its full name behind a dot.
#[unsafe(no_mangle)]
pub extern "C" fn njuolasti_enum(
    words: &[u32],
    bytes: &[u8],
    used_words: u32,
    used_bytes: u32,
    files: u32,
    file: u32,
    name: &[u8],
    found: &mut u32,
) -> u32
    ensures value { result ≡ looked_number (looked_up (asked_with words.now bytes.now used_words used_bytes files) file (λ x. item_named Enum x name.now)) }
    ensures found_after { found.new ≡ looked_value (looked_up (asked_with words.now bytes.now used_words used_bytes files) file (λ x. item_named Enum x name.now)) }
{
    let lent = lent(words, bytes, used_words, used_bytes, files);
    let looked = lookup::enum_by_full_name(&lent, file, name);
    answer(looked, found)
}

// The place of an enum's value, by number.
#[unsafe(no_mangle)]
pub extern "C" fn njuolasti_value_by_number(
    words: &[u32],
    bytes: &[u8],
    used_words: u32,
    used_bytes: u32,
    files: u32,
    file: u32,
    index: u32,
    number: u32,
    found: &mut u32,
) -> u32
    ensures value { result ≡ looked_number (looked_up (asked_with words.now bytes.now used_words used_bytes files) file (λ x. value_numbered x index number)) }
    ensures found_after { found.new ≡ looked_value (looked_up (asked_with words.now bytes.now used_words used_bytes files) file (λ x. value_numbered x index number)) }
{
    let lent = lent(words, bytes, used_words, used_bytes, files);
    let looked = lookup::value_by_number(&lent, file, index, number);
    answer(looked, found)
}

// The place of an enum's value, by name.
#[unsafe(no_mangle)]
pub extern "C" fn njuolasti_value_by_name(
    words: &[u32],
    bytes: &[u8],
    used_words: u32,
    used_bytes: u32,
    files: u32,
    file: u32,
    index: u32,
    name: &[u8],
    found: &mut u32,
) -> u32
    ensures value { result ≡ looked_number (looked_up (asked_with words.now bytes.now used_words used_bytes files) file (λ x. value_named x index name.now)) }
    ensures found_after { found.new ≡ looked_value (looked_up (asked_with words.now bytes.now used_words used_bytes files) file (λ x. value_named x index name.now)) }
{
    let lent = lent(words, bytes, used_words, used_bytes, files);
    let looked = lookup::value_by_name(&lent, file, index, name);
    answer(looked, found)
}

// The flat number of a message's field, by number.
#[unsafe(no_mangle)]
pub extern "C" fn njuolasti_field_by_number(
    words: &[u32],
    bytes: &[u8],
    used_words: u32,
    used_bytes: u32,
    files: u32,
    file: u32,
    message: u32,
    number: u32,
    found: &mut u32,
) -> u32
    ensures value { result ≡ looked_number (looked_up (asked_with words.now bytes.now used_words used_bytes files) file (λ x. field_numbered x message number)) }
    ensures found_after { found.new ≡ looked_value (looked_up (asked_with words.now bytes.now used_words used_bytes files) file (λ x. field_numbered x message number)) }
{
    let lent = lent(words, bytes, used_words, used_bytes, files);
    let looked = lookup::field_by_number(&lent, file, message, number);
    answer(looked, found)
}

// The flat number of a message's field, by name: mode 0 is the usual, 1 own name, 2 own or JSON name.
#[unsafe(no_mangle)]
pub extern "C" fn njuolasti_field_by_name(
    words: &[u32],
    bytes: &[u8],
    used_words: u32,
    used_bytes: u32,
    files: u32,
    file: u32,
    message: u32,
    mode: u32,
    name: &[u8],
    found: &mut u32,
) -> u32
    ensures value { result ≡ looked_number (looked_up (asked_with words.now bytes.now used_words used_bytes files) file (λ x. field_named x message mode name.now)) }
    ensures found_after { found.new ≡ looked_value (looked_up (asked_with words.now bytes.now used_words used_bytes files) file (λ x. field_named x message mode name.now)) }
{
    let lent = lent(words, bytes, used_words, used_bytes, files);
    let looked = lookup::field_by_name(&lent, file, message, mode, name);
    answer(looked, found)
}

// The full name of a message, without a dot in front, and its length; or nothing where `out` is too short, which then stays.
#[unsafe(no_mangle)]
pub extern "C" fn njuolasti_message_name(
    words: &[u32],
    bytes: &[u8],
    used_words: u32,
    used_bytes: u32,
    files: u32,
    file: u32,
    message: u32,
    out: &mut [u8],
    found: &mut u32,
) -> u32
    ensures value { result ≡ looked_number (name_written (asked_with words.now bytes.now used_words used_bytes files) file out.old (item_written Message message)).answer }
    ensures found_after { found.new ≡ looked_value (name_written (asked_with words.now bytes.now used_words used_bytes files) file out.old (item_written Message message)).answer }
    ensures out_after { out.new ≡ (name_written (asked_with words.now bytes.now used_words used_bytes files) file out.old (item_written Message message)).out }
{
    let lent = lent(words, bytes, used_words, used_bytes, files);
    let looked = lookup::message_full_name(&lent, file, message, out);
    answer(looked, found)
}

// The full name of an enum, likewise.
#[unsafe(no_mangle)]
pub extern "C" fn njuolasti_enum_name(
    words: &[u32],
    bytes: &[u8],
    used_words: u32,
    used_bytes: u32,
    files: u32,
    file: u32,
    index: u32,
    out: &mut [u8],
    found: &mut u32,
) -> u32
    ensures value { result ≡ looked_number (name_written (asked_with words.now bytes.now used_words used_bytes files) file out.old (item_written Enum index)).answer }
    ensures found_after { found.new ≡ looked_value (name_written (asked_with words.now bytes.now used_words used_bytes files) file out.old (item_written Enum index)).answer }
    ensures out_after { out.new ≡ (name_written (asked_with words.now bytes.now used_words used_bytes files) file out.old (item_written Enum index)).out }
{
    let lent = lent(words, bytes, used_words, used_bytes, files);
    let looked = lookup::enum_full_name(&lent, file, index, out);
    answer(looked, found)
}

// Whether a shelf is well formed: 0, or 1 or 2 as refused.
#[unsafe(no_mangle)]
pub extern "C" fn njuolasti_well_formed(
    words: &[u32],
    bytes: &[u8],
    used_words: u32,
    used_bytes: u32,
    files: u32,
) -> u32
    ensures { result ≡ verdict_number (shelf_verdict (asked_with words.now bytes.now used_words used_bytes files)) }
{
    match lookup::shelf_places(&lent(words, bytes, used_words, used_bytes, files)) {
        Ok(_) => 0,
        Err(refused) => refused.refusal.number(),
    }
}
