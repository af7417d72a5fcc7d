// The tokens of a text, and the numbers that they are: how the programs read their cases. A token is a run of bytes that are no white
// space. `#` starts a comment that runs to the end of its line.
//
// Below stands `names`, by whose rule a number is read. Every public function is total: any bytes and any places are answered.
#![tactic(auto)]

pub mod heads;

ghost use Rattle.std.specs.Prelude.{◌≡◌, ℕ, ◌||◌, eqb, take, drop, set};
ghost use Rattle.lists.specs.Lists.{same};
ghost use Rattle.tokens.specs.Tokens.{hash, is_space, in_comment, token_start, token_end, next_token, bytes_of, low_of, number_of};
ghost use Rattle.tokens.specs.Reading.{low_byte, filled, of_tokens, end_of_tokens};

use names::runtime_type_box::{
    DefaultRefused, ReadDefault, RuntimeType, parse_proto_default_value,
};

// Where a token stands: from `start` up to `end`. Where no token is left the two are equal.
#[derive(Clone, Copy, PartialEq, Eq)]
pub struct Token {
    pub start: usize,
    pub end: usize,
}

// Whether `b` is in a comment, by whether the byte in front of it is.
fn in_comment(before: bool, b: u8) -> bool
    ensures { result ≡ in_comment before b }
{
    b != b'\n' && (before || b == b'#')
}

// Whether `b` belongs to no token.
fn is_passed_over(comment: bool, b: u8) -> bool
    ensures { result ≡ (comment || is_space b) }
{
    comment || b <= b' '
}

// Whether a token ends in front of `b`.
fn ends_token(b: u8) -> bool
    ensures { result ≡ (is_space b || eqb b hash) }
{
    b <= b' ' || b == b'#'
}

// Where the next token starts, from `at` on.
fn token_start(text: &[u8], at: usize) -> usize
    ensures { result ≡ token_start text.now at }
{
    let mut comment = false;
    for i in at..text.len() {
        comment = in_comment(comment, text[i]);
        if !is_passed_over(comment, text[i]) {
            return i;
        }
    }
    at.max(text.len())
}

// Where the token ends that starts at `at`.
fn token_end(text: &[u8], at: usize) -> usize
    ensures { result ≡ token_end text.now at }
{
    let rest = &text[at.min(text.len())..];
    at + rest.iter().take_while(|&&b| !ends_token(b)).count()
}

// The next token, from `at` on.
pub fn next(text: &[u8], at: usize) -> Token
    ensures { result ≡ next_token text.now at }
{
    let start = token_start(text, at);
    let end = token_end(text, start);
    Token { start, end }
}

// The first n of the items, or all where there are fewer.
pub fn front<T>(items: &[T], n: usize) -> &[T]
    ensures { result.now ≡ take n items.now }
{
    &items[..n.min(items.len())]
}

// The items from number `start` up to number `end`, as far as there are any.
pub fn between<T>(items: &[T], start: usize, end: usize) -> &[T]
    ensures { result.now ≡ drop start (take end items.now) }
{
    let front = front(items, end);
    &front[start.min(front.len())..]
}

// The bytes of a token.
pub fn bytes_of(text: &[u8], t: Token) -> &[u8]
    ensures { result.now ≡ bytes_of text.now t }
{
    between(text, t.start, t.end)
}

// Whether a token is that word.
pub fn is(text: &[u8], t: Token, word: &[u8]) -> bool
    ensures { result ≡ same (bytes_of text.now t) word.now }
{
    bytes_of(text, t) == word
}

// The number that was read, or 0.
fn low_of(read: Result<ReadDefault, DefaultRefused>) -> u32
    ensures { result ≡ low_of read }
{
    match read {
        Ok(ReadDefault::Integer(w)) => w.low,
        _ => 0,
    }
}

// The number that a token is, or 0. It is read as the default of a uint32 field is.
pub fn number(text: &[u8], t: Token) -> u32
    ensures { result ≡ number_of text.now t }
{
    low_of(parse_proto_default_value(RuntimeType::U32, bytes_of(text, t), 0))
}

// The low 8 bits of a word.
pub fn low_byte(n: u32) -> u8
    ensures { result ≡ low_byte n }
{
    (n % 256) as u8
}

// Sets item `at`, if there is one.
pub fn set<T: Copy>(items: &mut [T], at: usize, item: T)
    ensures { items.new ≡ set items.old at item }
{
    if at < items.len() {
        items[at] = item;
    }
}

// What a number is read as: a word is the number, a byte its low 8 bits.
pub trait FromNumber: Copy {
    ghost of_number: { ℕ → Self };

    fn of_number(n: u32) -> Self
        ensures { result ≡ of_number n };
}

impl FromNumber for u32 {
    ghost of_number = { λ n. n };

    fn of_number(n: u32) -> u32 {
        n
    }
}

impl FromNumber for u8 {
    ghost of_number = { low_byte };

    fn of_number(n: u32) -> u8 {
        low_byte(n)
    }
}

// Reads the next n tokens, from `at` on, as numbers into the front of `items`, as far as there is room; the answer is where they end.
pub fn read<T: FromNumber>(text: &[u8], at: usize, items: &mut [T], n: usize) -> usize
    ensures value { result ≡ end_of_tokens text.now at n }
    ensures items_after { items.new ≡ filled items.old (of_tokens (λ t. T.of_number (number_of text.now t)) text.now at n) }
{
    let mut end = at;
    for i in 0..n {
        let t = next(text, end);
        set(items, i, T::of_number(number(text, t)));
        end = t.end;
    }
    end
}
