// The head of an item: a format byte, a length with high byte first, then data.
ghost use Rattle.std.specs.Prelude.{◌≡◌, ◌+◌, ◌^◌, ◌<◌, ◌≤◌, get_or, eqb};
ghost use Rattle.records.specs.Refusals.{answer};
ghost use Rattle.items.specs.Formats.{code};
ghost use Rattle.items.specs.Heads.{number_at, head_at, refusal_of};

use crate::formats::*;
use records::refusal::*;

// Where data stands in a message.
#[derive(Clone, Copy)]
pub struct Span {
    pub at: usize,
    pub many: usize,
}

// The format code, how many length bytes there are, where the data starts, and the length. The code stays a number, as in
// `head_at` of specs/Heads.antt: whether it is a format's is asked after whether the item is cut short.
#[derive(Clone, Copy)]
pub struct Head {
    pub code: usize,
    pub lengths: usize,
    pub body: usize,
    pub many: usize,
}

impl Head {
    pub fn is(self, format: Format) -> bool
        ensures { result ≡ eqb self.code (code format) }
    {
        self.code == format.code()
    }
}

pub const DEEPEST: usize = 6;

pub const MOST_ITEMS: usize = 128;

// The byte at a position, 0 past the end.
pub fn byte(msg: &[u8], at: usize) -> u8
    ensures { result ≡ get_or msg.now at 0 }
{
    if at < msg.len() { msg[at] } else { 0 }
}

// The number that n bytes stand for, high byte first.
pub fn number(msg: &[u8], at: usize, n: usize) -> usize
    requires { (n ≤ 8) × (at + n < 2 ^ 64) }
    ensures value { result ≡ number_at msg.now at n }
    ensures upper_bound { result < 256 ^ n }
{
    let mut v = 0;
    for i in 0..n {
        v = v * 256 + usize::from(byte(msg, at + i));
    }
    v
}

// Past the end a head of no format, `no_head` in specs/Heads.antt, which is refused as cut short.
#[tactic(auto, unfolding(crate::specs::Heads::head_at))]
pub fn head_at(msg: &[u8], at: usize) -> Head
    ensures value { result ≡ head_at msg.now at }
    ensures many_bound { (result.many < 2 ^ 24) × (result.body < 2 ^ 63 + 4) }
{
    if msg.len() <= at {
        return Head {
            code: 0o77,
            lengths: 0,
            body: 0,
            many: 0,
        };
    }
    let format = usize::from(byte(msg, at));
    let lengths = format % 4;
    let many = number(msg, at + 1, lengths);
    Head {
        code: format / 4,
        lengths,
        body: at + 1 + lengths,
        many,
    }
}

// What is refused at an item: the lowest that applies.
#[tactic(auto, unfolding(crate::specs::Heads::refusal_of, crate::specs::Heads::lowest))]
pub fn refusal_at(msg: &[u8], at: usize, h: Head, left: usize, count: usize) -> Result<(), Refusal>
    requires { (h.many < 2 ^ 24) × (h.body < 2 ^ 63 + 4) }
    ensures { answer result ≡ refusal_of msg.now at h left count }
{
    let n = msg.len();
    let size = size_of(h.code);
    let list = h.is(Format::List);
    let cut = n <= at || n < h.body || !list && n < h.body + h.many;
    when(cut, Refusal::CutShort)?;
    when(size == 0, Refusal::UnknownCode)?;
    when(h.lengths == 0 || uneven(h.many, size), Refusal::BadLength)?;
    when(list && left == 0, Refusal::TooDeep)?;
    when(MOST_ITEMS <= count, Refusal::TooManyItems)
}
