// The parts of S3F17 by position, and whether they have its shape: for a message whose items were all accepted.
ghost use Rattle.std.specs.Prelude.{◌≡◌, ◌≤◌, ◌&&◌, eqb};
ghost use Rattle.items.specs.Formats.{code};
ghost use Rattle.items.specs.Heads.{is_list};
ghost use Rattle.secs.specs.InPlace.{parts_at, code_at, kinds_at, pair_at, fits_at, each_at, name_at, value_at, has_map_at, is_map_at, shape_at};

use crate::text::*;
use items::formats::*;
use items::head::*;
use items::walk::*;
use records::sizes::*;

// Whether there are five; where each begins; how many items have begun before the last, the list of attributes.
#[derive(Clone, Copy)]
pub struct Parts {
    pub five: bool,
    pub id: usize,
    pub action: usize,
    pub name: usize,
    pub port: usize,
    pub pairs: usize,
    pub count: usize,
}

// The outermost list is open, so that five more may be, and one item has begun.
#[tactic(auto, using(items::proofs::Few::item_few), unfolding(crate::specs::InPlace::parts_at))]
pub fn parts_at(msg: &[u8]) -> Parts
    ensures value { result ≡ parts_at msg.now }
    ensures count_bound { result.count ≤ 128 }
{
    let h = head_at(msg, 0);
    let id = item(msg, h.body, 5, 1);
    let action = item(msg, id.at, 5, id.count);
    let name = item(msg, action.at, 5, action.count);
    let port = item(msg, name.at, 5, name.count);
    Parts {
        five: is_list_of(h, 5),
        id: h.body,
        action: id.at,
        name: action.at,
        port: name.at,
        pairs: port.at,
        count: port.count,
    }
}

// An item of a format begins at a position.
fn is_at(msg: &[u8], at: usize, format: Format) -> bool
    ensures { result ≡ eqb (code_at msg.now at) (code format) }
{
    head_at(msg, at).is(format)
}

// A list of as many.
fn is_list_of(h: Head, many: usize) -> bool
    ensures { result ≡ (is_list h && eqb h.many many) }
{
    h.is(Format::List) && h.many == many
}

// An unsigned number, two texts, a U1 and a list.
#[tactic(auto, unfolding(crate::specs::InPlace::kinds_at))]
fn kinds_at(msg: &[u8], p: Parts) -> bool
    ensures { result ≡ kinds_at msg.now p }
{
    let id = head_at(msg, p.id);
    p.five
        && is_unsigned(id.code)
        && is_at(msg, p.action, Format::Ascii)
        && is_at(msg, p.name, Format::Ascii)
        && is_at(msg, p.port, Format::U1)
        && is_at(msg, p.pairs, Format::List)
}

// A list of two, a text first.
#[tactic(auto, unfolding(crate::specs::InPlace::pair_at))]
fn pair_at(msg: &[u8], at: usize) -> bool
    ensures { result ≡ pair_at msg.now at }
{
    let h = head_at(msg, at);
    is_list_of(h, 2) && is_at(msg, h.body, Format::Ascii)
}

#[tactic(auto, unfolding(crate::specs::InPlace::fits_at))]
fn fits_at(msg: &[u8], pairs: bool, at: usize) -> bool
    ensures { result ≡ fits_at msg.now pairs at }
{
    if pairs {
        pair_at(msg, at)
    } else {
        is_at(msg, at, Format::U1)
    }
}

// As many pairs, or U1, one after the other. Which of the two is a flag, as in `each_at` of specs/InPlace.antt: a closure's
// clauses would have to say the same of it.
fn each_at(msg: &[u8], pairs: bool, left: usize, many: usize, from: usize, begun: usize) -> bool
    ensures { result ≡ each_at msg.now pairs left many from begun }
{
    let mut at = from;
    let mut count = begun;
    for _ in 0..many {
        if !fits_at(msg, pairs, at) {
            return false;
        }
        let w = item(msg, at, left, count);
        at = w.at;
        count = w.count;
    }
    true
}

// Where the first attribute's name stands.
#[tactic(auto, unfolding(crate::specs::InPlace::name_at))]
pub fn name_at(msg: &[u8], pairs: usize) -> usize
    ensures { result ≡ name_at msg.now pairs }
{
    let list = head_at(msg, pairs);
    let pair = head_at(msg, list.body);
    pair.body
}

#[tactic(auto, unfolding(crate::specs::InPlace::value_at))]
pub fn value_at(msg: &[u8], pairs: usize) -> usize
    ensures { result ≡ value_at msg.now pairs }
{
    let name = head_at(msg, name_at(msg, pairs));
    name.body + name.many
}

// There is a first attribute, and it is named SlotMap.
#[tactic(auto, unfolding(crate::specs::InPlace::has_map_at))]
pub fn has_map(msg: &[u8], pairs: usize) -> bool
    ensures { result ≡ has_map_at msg.now pairs }
{
    let list = head_at(msg, pairs);
    list.many != 0 && named(msg, name_at(msg, pairs), b"SlotMap")
}

#[tactic(auto, unfolding(crate::specs::InPlace::is_map_at))]
fn is_map(msg: &[u8], at: usize, begun: usize) -> bool
    ensures { result ≡ is_map_at msg.now at begun }
{
    let h = head_at(msg, at);
    is_list_of(h, SLOTS) && each_at(msg, false, 2, SLOTS, h.body, begun)
}

// Where the kinds are others the positions mean nothing, and a length there could be anything: no loop runs over it.
#[tactic(auto, unfolding(crate::specs::InPlace::shape_at))]
pub fn shape_at(msg: &[u8], p: Parts) -> bool
    requires { p.count ≤ 128 }
    ensures { result ≡ shape_at msg.now p }
{
    if !kinds_at(msg, p) {
        return false;
    }
    let list = head_at(msg, p.pairs);
    each_at(msg, true, 4, list.many, list.body, p.count + 1)
        && (!has_map(msg, p.pairs) || is_map(msg, value_at(msg, p.pairs), p.count + 4))
}
