// The shelf's three numbers, and how many images were accepted, refused, or not read.
use crate::images::NotLinked;
use image::shelf::Used;
use shelf_io::counts::one_more;
use shelf_io::say;

#[derive(Clone, Copy)]
pub struct Tally {
    pub used: Used,
    pub accepted: u64,
    pub refused: u64,
    pub unread: u64,
}

impl Tally {
    pub fn start(used: Used) -> Tally {
        Tally {
            used,
            accepted: 0,
            refused: 0,
            unread: 0,
        }
    }

    // An image more, by what became of it.
    pub fn with(mut self, linked: Result<Used, NotLinked>) -> Tally {
        match linked {
            Ok(used) => {
                self.used = used;
                self.accepted = one_more(self.accepted);
            }
            Err(NotLinked::Refused(_)) => self.refused = one_more(self.refused),
            Err(NotLinked::Unread(_) | NotLinked::NoImage(_)) => {
                self.unread = one_more(self.unread);
            }
        }
        self
    }

    pub fn say(self, rt: &impl Print) {
        say::number(rt, self.accepted);
        say::text(rt, b" accepted, ");
        say::number(rt, self.refused);
        say::text(rt, b" refused, ");
        say::number(rt, self.unread);
        say::text(rt, b" not read");
    }
}
