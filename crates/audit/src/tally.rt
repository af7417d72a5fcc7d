// How many messages there are, may be incomplete, carry the field that is asked for, and can pass the check without it.
use link::audit::{Carried, Mark};
use shelf_io::counts::one_more;
use shelf_io::say;

#[derive(Clone, Copy, Default)]
pub struct Tally {
    pub messages: u64,
    pub marked: u64,
    pub carrying: u64,
    pub passing: u64,
}

impl Tally {
    pub fn message(mut self, mark: Mark) -> Tally {
        self.messages = one_more(self.messages);
        if let Mark::MayBeIncomplete(_) = mark {
            self.marked = one_more(self.marked);
        }
        self
    }

    pub fn carried(mut self, c: Option<Carried>, passes: bool) -> Tally {
        if c.is_none() {
            return self;
        }
        self.carrying = one_more(self.carrying);
        if passes {
            self.passing = one_more(self.passing);
        }
        self
    }

    // The last line.
    pub fn say(self, rt: &impl Print, files: u32, field: Option<&[u8]>) {
        say::number(rt, files as u64);
        say::text(rt, b" files, ");
        say::number(rt, self.messages);
        say::text(rt, b" messages, ");
        say::number(rt, self.marked);
        say::text(rt, b" may be incomplete");
        if let Some(field) = field {
            say::text(rt, b"; ");
            say::number(rt, self.carrying);
            say::text(rt, b" carry ");
            say::text(rt, field);
            say::text(rt, b", ");
            say::number(rt, self.passing);
            say::text(rt, b" can pass the check without it");
        }
        say::text(rt, b"\n");
    }
}
