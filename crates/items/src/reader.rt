// A reader that stays on the message it was lent: the message, and a position in it. What reads is `walk`; the functions
// here take the struct apart.
ghost use Rattle.std.specs.Prelude.{◌≡◌};
ghost use Rattle.items.specs.Reading.{read_item, read_message, kept, walked};

use crate::walk::*;

#[derive(Clone, Copy)]
pub struct Reader<'a> {
    pub msg: &'a [u8],
    pub at: usize,
}

pub fn new<'a>(msg: &'a [u8]) -> Reader<'a>
    ensures { (result.msg ≡ msg.entry) × (result.at ≡ 0) }
{
    Reader { msg, at: 0 }
}

// The item where the reader stands.
pub fn read<'a>(r: Reader<'a>) -> Walk
    ensures { kept result ≡ walked (read_item 6 r.entry.msg.now r.entry.at 0) }
{
    outermost(r.msg, r.at)
}

// A message, from its first byte on. Its parameter is plain, so that whoever calls it needs no proof by hand.
pub fn read_message(msg: &[u8]) -> Walk
    ensures { kept result ≡ walked (read_message msg.now) }
{
    read(new(msg))
}
