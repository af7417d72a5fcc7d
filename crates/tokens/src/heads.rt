// What stands in front of a file's words in a list of cases: how many words and bytes the file has, and what is expected of it.
ghost use Rattle.std.specs.Prelude.{◌≡◌};
ghost use Rattle.tokens.specs.Heads.{is_outside, is_met, expected_at, head_of};

use crate::{Token, is, next, number};

// What a case expects of a file.
#[derive(Clone, Copy, PartialEq, Eq)]
pub enum Expect {
    Domain,
    Refused(u32),
    RefusedAt(u32, u32),
    Any,
}

// What is expected, and where the tokens end that say so.
#[derive(Clone, Copy, PartialEq, Eq)]
pub struct Expected {
    pub expect: Expect,
    pub end: usize,
}

// How many words and bytes a file has, what is expected of it, and where its words start.
#[derive(Clone, Copy, PartialEq, Eq)]
pub struct Head {
    pub words: u32,
    pub bytes: u32,
    pub expect: Expect,
    pub end: usize,
}

// Whether a refusal is none of a file in the domain.
pub fn is_outside(number: u32) -> bool
    ensures { result ≡ is_outside number }
{
    matches!(number, 1..=8 | 13 | 14 | 16 | 18)
}

// Whether a file answers what is expected of it: with a refusal's number and place, or with number 0 where it is accepted.
pub fn is_met(expect: Expect, number: u32, place: u32) -> bool
    ensures { result ≡ is_met expect number place }
{
    match expect {
        Expect::Domain => !is_outside(number),
        Expect::Refused(n) => number == n,
        Expect::RefusedAt(n, p) => number == n && place == p,
        Expect::Any => true,
    }
}

// What the token `t` says, and the numbers behind it.
fn expected_at(text: &[u8], t: Token) -> Expected
    ensures { result ≡ expected_at text.now t }
{
    let n = next(text, t.end);
    if is(text, t, b"refused") {
        return Expected {
            expect: Expect::Refused(number(text, n)),
            end: n.end,
        };
    }
    if is(text, t, b"refused-at") {
        let p = next(text, n.end);
        return Expected {
            expect: Expect::RefusedAt(number(text, n), number(text, p)),
            end: p.end,
        };
    }
    if is(text, t, b"domain") {
        return Expected {
            expect: Expect::Domain,
            end: t.end,
        };
    }
    Expected {
        expect: Expect::Any,
        end: t.end,
    }
}

// What stands behind the token `t`, which is the word `file`.
pub fn head_of(text: &[u8], t: Token) -> Head
    ensures { result ≡ head_of text.now t }
{
    let w = next(text, t.end);
    let b = next(text, w.end);
    let Expected { expect, end } = expected_at(text, next(text, b.end));
    Head {
        words: number(text, w),
        bytes: number(text, b),
        expect,
        end,
    }
}
