// Rows 1 to 4: a carrier is announced, and the announcement is taken back.
// Three choices of CancelBind are alike but for their types: each is one `if`, and a definition of its own.
ghost use Rattle.std.specs.Prelude.{◌≡◌};
ghost use Rattle.records.specs.Refusals.{answer};
ghost use Rattle.rules.specs.Row.{judge};
ghost use Rattle.rules.specs.Booking.{bind, meant, meant_port, meant_stands, one_pair, cancel_bind};
ghost use Rattle.rules.specs.Booking.{carrier_notification, cancel_carrier_notification};

use effects::ask::{is_port_or_none, on_port_and_gone, other_port, reserved_or_tied};
use records::carrier::Carrier;
use records::port::Port;
use records::refusal::{Refusal, unless, when};
use records::words::*;
use rules::row::{Effect, Seen};

pub fn bind_answer(x: Seen) -> Result<(), Refusal>
    ensures { answer result ≡ judge (bind x).grounds }
{
    unless(x.isport, Refusal::OutOfRange)?;
    unless(x.named, Refusal::OutOfRange)?;
    when(x.known, Refusal::NameTaken)?;
    when(reserved_or_tied(x), Refusal::ReservedOrTied)?;
    unless(x.here.transfer == READY_TO_LOAD, Refusal::Conditions)?;
    when(x.full, Refusal::ExpectedFull)
}

pub fn bind_effect(x: Seen) -> Effect
    ensures { result ≡ (bind x).effect }
{
    let becomes = x.here.bound_to(x.name);
    Effect {
        port: x.port,
        becomes,
        goes: x.count,
        changes: x.count,
        next: Carrier::fresh(x.name, x.port),
        made: true,
    }
}

#[tactic(auto, unfolding(rules::specs::Booking::meant))]
fn meant(x: Seen) -> Carrier
    ensures { result ≡ meant x }
{
    if x.blank { x.held } else { x.found }
}

#[tactic(auto, unfolding(rules::specs::Booking::meant_port))]
fn meant_port(x: Seen) -> Port
    ensures { result ≡ meant_port x }
{
    if x.blank { x.here } else { x.home }
}

#[tactic(auto, unfolding(rules::specs::Booking::meant_stands))]
fn meant_stands(x: Seen) -> usize
    ensures { result ≡ meant_stands x }
{
    if x.blank { x.holds } else { x.stands }
}

#[tactic(auto, unfolding(rules::specs::Booking::one_pair))]
fn one_pair(x: Seen, c: Carrier, q: Port) -> bool
    ensures { result ≡ one_pair x c q }
{
    c.port != NO_PORT && !other_port(x, c) && c.place == EXPECTED && q.movement == IDLE
}

pub fn cancel_bind_answer(x: Seen) -> Result<(), Refusal>
    ensures { answer result ≡ judge (cancel_bind x).grounds }
{
    // `|` and `&` here: with `||` and `&&` the check doesn't find the proof of the last ground
    unless(is_port_or_none(x), Refusal::OutOfRange)?;
    unless(x.blank | x.named, Refusal::OutOfRange)?;
    when(x.noport & x.blank, Refusal::OutOfRange)?;
    unless(x.blank | x.known, Refusal::NoRecord)?;
    unless(one_pair(x, meant(x), meant_port(x)), Refusal::Conditions)
}

pub fn cancel_bind_effect(x: Seen) -> Effect
    ensures { result ≡ (cancel_bind x).effect }
{
    let c = meant(x);
    let q = meant_port(x);
    on_port_and_gone(x.count, c.port, q.unbound(), meant_stands(x))
}

pub fn carrier_notification_answer(x: Seen) -> Result<(), Refusal>
    ensures { answer result ≡ judge (carrier_notification x).grounds }
{
    unless(x.named, Refusal::OutOfRange)?;
    when(x.known, Refusal::NameTaken)?;
    when(x.full, Refusal::ExpectedFull)
}

pub fn carrier_notification_effect(x: Seen) -> Effect
    ensures { result ≡ (carrier_notification x).effect }
{
    Effect {
        port: NO_PORT,
        becomes: Port::none(),
        goes: x.count,
        changes: x.count,
        next: Carrier::fresh(x.name, NO_PORT),
        made: true,
    }
}

pub fn cancel_carrier_notification_answer(x: Seen) -> Result<(), Refusal>
    ensures { answer result ≡ judge (cancel_carrier_notification x).grounds }
{
    let c = x.found;
    unless(x.named, Refusal::OutOfRange)?;
    unless(x.known, Refusal::NoRecord)?;
    unless(
        c.place == EXPECTED && c.port == NO_PORT,
        Refusal::Conditions,
    )
}

pub fn cancel_carrier_notification_effect(x: Seen) -> Effect
    ensures { result ≡ (cancel_carrier_notification x).effect }
{
    on_port_and_gone(x.count, NO_PORT, Port::none(), x.stands)
}
