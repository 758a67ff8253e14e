// Rows 5 and 6: the host says yes or no to a carrier.
ghost use Rattle.std.specs.Prelude.{◌≡◌};
ghost use Rattle.records.specs.Refusals.{answer};
ghost use Rattle.rules.specs.Row.{judge};
ghost use Rattle.rules.specs.Verdict.{takes_unknown_pod, grounds_unless, can_proceed, proceed_with_carrier};
ghost use Rattle.rules.specs.Verdict.{can_cancel, cancel_at, cancel_port, failed, cancel_carrier};

use effects::ask::{found_or_new, is_port_or_none, other_port, placed, unknown_pod};
use records::carrier::Carrier;
use records::port::Port;
use records::refusal::{Refusal, unless};
use records::words::*;
use rules::row::{Effect, Seen};

#[tactic(auto, unfolding(rules::specs::Verdict::takes_unknown_pod))]
fn takes_unknown_pod(x: Seen) -> bool
    ensures { result ≡ takes_unknown_pod x }
{
    x.found.port == NO_PORT && unknown_pod(x)
}

// What both rows answer; `can` is what the row asks of a placed carrier.
fn answer_unless(can: bool, x: Seen) -> Result<(), Refusal>
    ensures { answer result ≡ judge (grounds_unless can x) }
{
    unless(x.named, Refusal::OutOfRange)?;
    unless(is_port_or_none(x), Refusal::OutOfRange)?;
    unless(x.known || unknown_pod(x), Refusal::NoRecord)?;
    unless(
        !x.known || placed(x) || takes_unknown_pod(x),
        Refusal::Conditions,
    )?;
    unless(!placed(x) || can, Refusal::Conditions)
}

#[tactic(auto, unfolding(rules::specs::Verdict::can_proceed))]
fn can_proceed(x: Seen, c: Carrier) -> bool
    ensures { result ≡ can_proceed x c }
{
    !other_port(x, c) && (c.id == WAITING || c.id == OK && c.slot == WAITING)
}

pub fn proceed_with_carrier_answer(x: Seen) -> Result<(), Refusal>
    ensures { answer result ≡ judge (proceed_with_carrier x).grounds }
{
    answer_unless(can_proceed(x, x.found), x)
}

pub fn proceed_with_carrier_effect(x: Seen) -> Effect
    ensures { result ≡ (proceed_with_carrier x).effect }
{
    let (port, becomes, next) = if placed(x) {
        (NO_PORT, Port::none(), x.found.proceeded())
    } else {
        (
            x.port,
            x.here.tied_to(x.name),
            found_or_new(x).placed_at(x.port).with_id(OK),
        )
    };
    Effect {
        port,
        becomes,
        goes: x.count,
        changes: x.stands,
        next,
        made: !x.known,
    }
}

#[tactic(auto, unfolding(rules::specs::Verdict::can_cancel))]
fn can_cancel(x: Seen, c: Carrier, q: Port) -> bool
    ensures { result ≡ can_cancel x c q }
{
    !other_port(x, c) && c.accessing != IN_ACCESS && (c.place != AT_PORT || q.movement == IDLE)
}

pub fn cancel_carrier_answer(x: Seen) -> Result<(), Refusal>
    ensures { answer result ≡ judge (cancel_carrier x).grounds }
{
    answer_unless(can_cancel(x, x.found, x.home), x)
}

#[tactic(auto, unfolding(rules::specs::Verdict::cancel_at))]
fn cancel_at(x: Seen) -> u8
    ensures { result ≡ cancel_at x }
{
    let c = x.found;
    if !placed(x) {
        x.port
    } else if c.place == AT_PORT {
        c.port
    } else {
        NO_PORT
    }
}

#[tactic(auto, unfolding(rules::specs::Verdict::cancel_port))]
fn cancel_port(x: Seen) -> Port
    ensures { result ≡ cancel_port x }
{
    if !placed(x) {
        x.here.tied_to(x.name)
    } else if x.found.place == AT_PORT {
        x.home
    } else {
        Port::none()
    }
}

#[tactic(auto, unfolding(rules::specs::Verdict::failed))]
fn failed(x: Seen) -> Carrier
    ensures { result ≡ failed x }
{
    if placed(x) {
        x.found.judged_no()
    } else {
        found_or_new(x).placed_at(x.port).with_id(FAILED)
    }
}

pub fn cancel_carrier_effect(x: Seen) -> Effect
    ensures { result ≡ (cancel_carrier x).effect }
{
    let port = cancel_at(x);
    let q = cancel_port(x);
    let becomes = if port == NO_PORT {
        Port::none()
    } else {
        q.to_unload()
    };
    Effect {
        port,
        becomes,
        goes: x.count,
        changes: x.stands,
        next: failed(x).cancelled_by(q.transfer == READY_TO_UNLOAD),
        made: !x.known,
    }
}
