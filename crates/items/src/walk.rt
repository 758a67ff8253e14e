// The reader of items. `item` and `list` call each other: the lists that may still be opened fall from item to list, the
// elements that are left from turn to turn.
ghost use Rattle.std.specs.Prelude.{◌≡◌};
ghost use Rattle.items.specs.Reading.{read_many, read_item, kept, walked, walked_all};

use crate::formats::*;
use crate::head::*;
use records::refusal::Refusal;

// What was said of the last item that was met; where the reading ended; how many items have begun; every number and boolean
// item holds one value. Place and count are told of a refused reading too, so they stand beside the refusal (`walked`).
#[derive(Clone, Copy)]
pub struct Walk {
    pub said: Result<(), Refusal>,
    pub at: usize,
    pub count: usize,
    pub single: bool,
}

// The item at a position, with all that it holds, where `left` lists may still be opened and `count` items have begun.
#[cycle(item_list)]
pub fn item(msg: &[u8], at: usize, left: usize, count: usize) -> Walk
    ensures { kept result ≡ walked (read_item left msg.now at count) }
{
    let h = head_at(msg, at);
    let said = refusal_at(msg, at, h, left, count);
    if said.is_err() {
        return Walk {
            said,
            at,
            count,
            single: true,
        };
    }
    if h.is(Format::List) {
        list(msg, h.body, h.many, left - 1, count + 1)
    } else {
        Walk {
            said,
            at: h.body + h.many,
            count: count + 1,
            single: holds_one(h.code, h.many),
        }
    }
}

// As many items, one after the other.
#[cycle(item_list)]
pub fn list(msg: &[u8], from: usize, many: usize, left: usize, begun: usize) -> Walk
    ensures { kept result ≡ walked_all (read_many (read_item left msg.now) many from begun) }
{
    let mut walk = Walk {
        said: Ok(()),
        at: from,
        count: begun,
        single: true,
    };
    for _ in 0..many {
        let w = item(msg, walk.at, left, walk.count);
        if w.said.is_err() {
            return Walk {
                single: walk.single,
                ..w
            };
        }
        walk = Walk {
            single: walk.single && w.single,
            ..w
        };
    }
    walk
}

// The outermost item: lists to a depth of six, itself at one.
pub fn outermost(msg: &[u8], at: usize) -> Walk
    ensures { kept result ≡ walked (read_item 6 msg.now at 0) }
{
    item(msg, at, DEEPEST, 0)
}
