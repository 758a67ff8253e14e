// Rows 16 and 17: the tag of a pod is read, or can't be.
ghost use Rattle.std.specs.Prelude.{◌≡◌};
ghost use Rattle.records.specs.Refusals.{answer};
ghost use Rattle.rules.specs.Row.{judge};
ghost use Rattle.rules.specs.Reading.{readable, elsewhere, matching, displaced, id_read, id_read_failed};

use effects::ask::{found_or_new, on_both, other_port, placed};
use records::carrier::Carrier;
use records::port::Port;
use records::refusal::{Refusal, unless, when};
use records::words::*;
use rules::row::{Effect, Seen};

fn readable(q: Port) -> bool
    ensures { result ≡ readable q }
{
    q.pod == POD_PRESENT && q.movement == IDLE && q.tag == TAG_UNREAD
}

#[tactic(auto, unfolding(rules::specs::Reading::elsewhere))]
fn elsewhere(x: Seen) -> bool
    ensures { result ≡ elsewhere x }
{
    let c = x.found;
    placed(x) || x.known && c.port != NO_PORT && other_port(x, c)
}

#[tactic(auto, unfolding(rules::specs::Reading::matching))]
fn matching(x: Seen) -> bool
    ensures { result ≡ matching x }
{
    x.known && (x.holds == x.stands || !x.tied)
}

#[tactic(auto, unfolding(rules::specs::Reading::displaced))]
fn displaced(x: Seen) -> usize
    ensures { result ≡ displaced x }
{
    if x.holds == x.stands {
        x.count
    } else {
        x.holds
    }
}

pub fn id_read_answer(x: Seen) -> Result<(), Refusal>
    ensures { answer result ≡ judge (id_read x).grounds }
{
    unless(x.isport, Refusal::OutOfRange)?;
    unless(x.named, Refusal::OutOfRange)?;
    when(elsewhere(x), Refusal::NameTaken)?;
    unless(readable(x.here), Refusal::Conditions)
}

pub fn id_read_effect(x: Seen) -> Effect
    ensures { result ≡ (id_read x).effect }
{
    let id = if matching(x) { OK } else { WAITING };
    let next = found_or_new(x).placed_at(x.port).with_id(id);
    Effect {
        port: x.port,
        becomes: x.here.tag_read(x.name),
        goes: displaced(x),
        changes: x.stands,
        next,
        made: !x.known,
    }
}

pub fn id_read_failed_answer(x: Seen) -> Result<(), Refusal>
    ensures { answer result ≡ judge (id_read_failed x).grounds }
{
    unless(x.isport, Refusal::OutOfRange)?;
    unless(readable(x.here), Refusal::Conditions)
}

pub fn id_read_failed_effect(x: Seen) -> Effect
    ensures { result ≡ (id_read_failed x).effect }
{
    let next = if x.tied {
        x.held.placed_at(x.port).with_id(WAITING)
    } else {
        Carrier::none()
    };
    on_both(x.count, x.port, x.here.tag_not_read(), x.holds, next)
}
