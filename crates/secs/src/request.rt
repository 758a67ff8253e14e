// The bridge's request: a refusal, or what the tool gets.
ghost use Rattle.std.specs.Prelude.{◌≡◌, ◌≤◌, ◌+◌, length, cond, eqb, get_or, Some, None};
ghost use Rattle.rules.specs.Seen.{input_in};
ghost use Rattle.items.specs.Heads.{head_at};
ghost use Rattle.items.specs.Reading.{read_message, kept, walked};
ghost use Rattle.secs.specs.Actions.{row_of_action};
ghost use Rattle.secs.specs.InPlace.{codes_at, taken_at};
ghost use Rattle.secs.specs.Request.{Handed, input_from, sent_codes};

use crate::parts::*;
use crate::text::*;
use items::head::*;
use items::reader::read_message;
use items::walk::Walk;
use records::refusal::*;
use records::sizes::*;
use rules::input::Input;

// What is asked: the action, the port, where the name stands, and the codes, if there are any.
#[derive(Clone, Copy)]
pub struct Request {
    pub action: Action,
    pub port: u8,
    pub name: Span,
    pub codes: Option<[u8; SLOTS]>,
}

// How many items have begun, and what is asked, or why it is refused.
#[derive(Clone, Copy)]
pub struct Asked {
    pub count: usize,
    pub said: Result<Request, Refusal>,
}

impl Request {
    pub fn codes(&self) -> &[u8]
        ensures { result.now ≡ sent_codes self.now.codes }
    {
        match &self.codes {
            Some(codes) => codes,
            None => &[],
        }
    }

    // What the tool gets.
    pub fn input<'a>(&'a self, msg: &'a [u8]) -> Input<'a>
        requires { self.now.name.at + self.now.name.many ≤ length msg.now }
        ensures { input_in result ≡ input_from msg.entry.now self.entry.now }
    {
        let from = self.name.at;
        let to = self.name.at + self.name.many;
        Input {
            number: u32::from(self.action.row()),
            port: u32::from(self.port),
            value: 0,
            name: &msg[from..to],
            codes: self.codes(),
        }
    }
}

// The bytes of 25 U1, one after the other.
fn codes_from(msg: &[u8], from: usize) -> [u8; SLOTS]
    ensures { result ≡ codes_at msg.now 25 from }
{
    let mut codes = [0; SLOTS];
    let mut at = from;
    for code in &mut codes {
        let h = head_at(msg, at);
        *code = byte(msg, h.body);
        at = h.body + h.many;
    }
    codes
}

// Row 3's port is dropped.
fn port_at(msg: &[u8], at: usize, action: Action) -> u8
    ensures { result ≡ cond (eqb (row_of_action action) 3) 0 (get_or msg.now (head_at msg.now at).body 0) }
{
    match action {
        Action::CarrierNotification => 0,
        _ => byte(msg, head_at(msg, at).body),
    }
}

// What the tool gets, of a message in the shape.
#[tactic(auto, unfolding(crate::specs::InPlace::taken_at, maps::specs::Expected::carries))]
fn taken(msg: &[u8], p: Parts, action: Action) -> Request
    ensures { result ≡ taken_at msg.now p action }
{
    let name = head_at(msg, p.name);
    let mapped = matches!(action, Action::Bind | Action::CarrierNotification)
        && has_map(msg, p.pairs);
    let codes = if mapped {
        let list = head_at(msg, value_at(msg, p.pairs));
        Some(codes_from(msg, list.body))
    } else {
        None
    };
    Request {
        action,
        port: port_at(msg, p.port, action),
        name: Span {
            at: name.body,
            many: name.many,
        },
        codes,
    }
}

// 20 to 24 where the reading met one, then 25, then 26; else what the tool gets.
fn request_of(msg: &[u8], walk: Walk) -> Result<Request, Refusal>
    requires { kept walk ≡ walked (read_message msg.now) }
    ensures { Handed msg.now (record { count = walk.count; said = result }) }
{
    walk.said?;
    when(walk.at < msg.len(), Refusal::BytesLeftOver)?;
    let p = parts_at(msg);
    unless(shape_at(msg, p) && walk.single, Refusal::ShapeOrAction)?;
    let action = action_at(msg, p.action).ok_or(Refusal::ShapeOrAction)?;
    Ok(taken(msg, p, action))
}

pub fn request_in(msg: &[u8]) -> Asked
    ensures { Handed msg.now result }
{
    let walk = read_message(msg);
    Asked {
        count: walk.count,
        said: request_of(msg, walk),
    }
}
