// What one image alone says: refusals 3, 4 and 5, then 8 to 11, and its link rows.
ghost use Rattle.std.specs.Prelude.{◌≡◌, ◌≤◌, length};
ghost use Rattle.image.specs.Words.{sections_of};
ghost use Rattle.image.specs.Schema.{schema, schema_of};
ghost use Rattle.image.specs.Links.{links_of, link_words};
ghost use Rattle.image.specs.Chained.{Chained, Named};
ghost use Rattle.image.specs.Verdict.{first};
ghost use Rattle.image.specs.Judge.{map_entry_lines, naming_lines, opening, judged_by, links_by, numbered_verdict};

use crate::rows::Flat;
use crate::schema::{Image, Laid};
use crate::verdict::{Refusal, Refused, Verdict};
use crate::{flat, full_name, layout, limits, links, map_entry, siblings, texts};

// One of 3, 4 and 5; or none, with the verdict of 8 to 11. They are two because others are tried between them.
pub type Judged = Result<Verdict, Refused>;

// Rules 9 to 11, message by message in flat order.
fn judge_map_entries(image: &Image, links: &[u32]) -> Verdict
    ensures { result ≡ first (map_entry_lines (schema image.now) links.now) }
{
    for m in 0..image.rows.sections.messages.count {
        let row = links::message_row(links, Flat(m));
        map_entry::judge_map_entry(image, row, Flat(m))?;
    }
    Ok(())
}

// Rule 8, then 9 to 11.
fn judge_names(image: &Image, links: &[u32]) -> Verdict
    requires chained { Chained (schema image.now) links.now }
    requires named { Named (schema image.now) links.now }
    ensures { result ≡ first (naming_lines (schema image.now) links.now) }
{
    if siblings::shares_name(image, links) {
        return Err(Refusal::NameShared.at(0));
    }
    judge_map_entries(image, links)
}

// An image whose link rows are `own`: what is left of 4 and 5, then 8 to 11.
fn judge_numbered(laid: &Laid, own: &[u32], links: &mut [u32]) -> Judged
    requires sections_value { laid.now.image.rows.sections ≡ sections_of laid.now.image.rows.words.now }
    requires own_value { own.now ≡ links_of (schema laid.now.image) }
    ensures value { result ≡ judged_by (numbered_verdict laid.now.image.rows.words.now laid.now.image.rows.sections laid.now.image.pool.now) (schema laid.now.image) }
    ensures links_after { links.new ≡ links_by (numbered_verdict laid.now.image.rows.words.now laid.now.image.rows.sections laid.now.image.pool.now) (schema laid.now.image) links.old }
{
    let image = &laid.image;
    if !limits::texts_short(image) {
        return Err(Refusal::LimitPassed.at(0));
    }
    if !full_name::are_full_names_short(image, own) {
        return Err(Refusal::LimitPassed.at(0));
    }
    if !texts::are_texts_right(image.rows.words, image.pool) {
        return Err(Refusal::TextWrong.at(0));
    }
    links::put_front(links, own);
    Ok(judge_names(image, own))
}

// An image that can be numbered: its link rows are written into `own` first.
fn judge_sound(laid: &Laid, own: &mut [u32], links: &mut [u32]) -> Judged
    requires sections_value { laid.now.image.rows.sections ≡ sections_of laid.now.image.rows.words.now }
    requires own_in_bounds { link_words (schema laid.now.image) ≤ length own.old }
    ensures value { result ≡ judged_by (numbered_verdict laid.now.image.rows.words.now laid.now.image.rows.sections laid.now.image.pool.now) (schema laid.now.image) }
    ensures links_after { links.new ≡ links_by (numbered_verdict laid.now.image.rows.words.now laid.now.image.rows.sections laid.now.image.pool.now) (schema laid.now.image) links.old }
{
    let image = &laid.image;
    flat::number(laid, own);
    let n = links::link_words(image.rows.sections);
    judge_numbered(laid, &own[..n], links)
}

// The same, with room for `N` words of link rows. The array stands here and not where its size is chosen: it is cleared only if it is the one.
fn judge_within<const N: usize>(laid: &Laid, links: &mut [u32]) -> Judged
    requires sections_value { laid.now.image.rows.sections ≡ sections_of laid.now.image.rows.words.now }
    requires size_bound { N ≤ 4096 }
    requires own_in_bounds { link_words (schema laid.now.image) ≤ N }
    ensures value { result ≡ judged_by (numbered_verdict laid.now.image.rows.words.now laid.now.image.rows.sections laid.now.image.pool.now) (schema laid.now.image) }
    ensures links_after { links.new ≡ links_by (numbered_verdict laid.now.image.rows.words.now laid.now.image.rows.sections laid.now.image.pool.now) (schema laid.now.image) links.old }
{
    let mut own = [0u32; N];
    judge_sound(laid, &mut own, links)
}

// Judges one image. `full` says that the shelf has 32 files. Where none of 3, 4 and 5 is given, the image's link rows without marks
// (messages, enums, oneofs) stand in front of `links` afterwards, if there is room: 4,096 words are enough for any image.
// They are built in an array of fixed size, which is cleared when it is made, so an image that gives few gets a small one.
pub fn judge_image(image: &[u32], pool: &[u8], full: bool, links: &mut [u32]) -> Judged
    ensures value { result ≡ judged_by (opening image.now pool.now full) (schema_of image.now pool.now) }
    ensures links_after { links.new ≡ links_by (opening image.now pool.now full) (schema_of image.now pool.now) links.old }
{
    if !layout::is_laid_out(image, pool.len()) {
        return Err(Refusal::LayoutBroken.at(0));
    }
    if full {
        return Err(Refusal::LimitPassed.at(0));
    }
    let image = Image::read(image, pool);
    if !limits::counts_within(image.rows.sections) {
        return Err(Refusal::LimitPassed.at(0));
    }
    if !flat::is_shallow(&image) {
        return Err(Refusal::LimitPassed.at(0));
    }
    let laid = Laid { image };
    if links::link_words(image.rows.sections) <= 512 {
        return judge_within::<512>(&laid, links);
    }
    judge_within::<4096>(&laid, links)
}
