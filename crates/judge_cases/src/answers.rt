// What the rules of one image answer: the first refusal among 3 to 5, 8 to 11 and 17.
use image::rows::Flat;
use image::schema::Image;
use image::verdict::{Refusal, Verdict};
use image::{fields, judge, links as link_rows};
use shelf_io::say as out;

// The first message with a clash of fields. The fifth word of its link row is its first field.
fn judge_clashes(image: &Image, links: &[u32]) -> Verdict {
    for m in 0..image.rows.sections.messages.count {
        let row = link_rows::message_row(links, Flat(m));
        if let Some(k) = fields::first_clash(image, row) {
            let first = link_rows::message_link_row(links, Flat(m))[4];
            return Err(Refusal::FieldClash.at(first.saturating_add(k)));
        }
    }
    Ok(())
}

// Judges an image, and leaves its link rows in front of `links` where 3 to 5 are not given. The answer is the first refusal.
pub fn answer_to(image: &[u32], pool: &[u8], links: &mut [u32]) -> Verdict {
    judge::judge_image(image, pool, false, links)??;
    judge_clashes(&Image::read(image, pool), links)
}

// Says a refusal with its place, or that there is none.
pub fn say(rt: &impl Print, answer: Verdict) {
    match answer {
        Ok(()) => {
            out::text(rt, b"passed");
        }
        Err(refused) => {
            out::text(rt, b"refused, ");
            out::number(rt, refused.refusal.number() as u64);
            out::text(rt, b" at ");
            out::number(rt, refused.place as u64);
        }
    }
}
