// Rows 7, 8 and 18: out of the buffer, back, and in.
ghost use Rattle.std.specs.Prelude.{◌≡◌};
ghost use Rattle.records.specs.Refusals.{answer};
ghost use Rattle.rules.specs.Row.{judge};
ghost use Rattle.rules.specs.Buffer.{can_come_out, carrier_out, can_go_back, carrier_in, can_move_in, verified_here, move_in};

use effects::ask::{on_both, reserved_or_tied};
use records::refusal::{Refusal, unless, when};
use records::words::*;
use rules::row::{Effect, Seen};

fn can_come_out(x: Seen) -> bool
    ensures { result ≡ can_come_out x }
{
    let c = x.found;
    c.place == IN_BUFFER
        && c.opened != OPEN
        && c.accessing != IN_ACCESS
        && x.here.transfer == READY_TO_LOAD
}

pub fn carrier_out_answer(x: Seen) -> Result<(), Refusal>
    ensures { answer result ≡ judge (carrier_out x).grounds }
{
    unless(x.named, Refusal::OutOfRange)?;
    unless(x.isport, Refusal::OutOfRange)?;
    unless(x.known, Refusal::NoRecord)?;
    when(reserved_or_tied(x), Refusal::ReservedOrTied)?;
    unless(can_come_out(x), Refusal::Conditions)
}

pub fn carrier_out_effect(x: Seen) -> Effect
    ensures { result ≡ (carrier_out x).effect }
{
    on_both(
        x.count,
        x.port,
        x.here.handed_out(x.name),
        x.stands,
        x.found.taken_out(x.port),
    )
}

fn can_go_back(x: Seen) -> bool
    ensures { result ≡ can_go_back x }
{
    let c = x.found;
    c.place == AT_PORT && x.home.transfer == READY_TO_UNLOAD && c.cameout == ON
}

pub fn carrier_in_answer(x: Seen) -> Result<(), Refusal>
    ensures { answer result ≡ judge (carrier_in x).grounds }
{
    unless(x.named, Refusal::OutOfRange)?;
    unless(x.known, Refusal::NoRecord)?;
    unless(can_go_back(x), Refusal::Conditions)
}

pub fn carrier_in_effect(x: Seen) -> Effect
    ensures { result ≡ (carrier_in x).effect }
{
    let c = x.found;
    on_both(
        x.count,
        c.port,
        x.home.to_blocked(),
        x.stands,
        c.taken_back(),
    )
}

fn can_move_in(x: Seen) -> bool
    ensures { result ≡ can_move_in x }
{
    let q = x.here;
    q.pod == POD_PRESENT && q.movement == IDLE && q.transfer == BLOCKED
}

fn verified_here(x: Seen) -> bool
    ensures { result ≡ verified_here x }
{
    let c = x.held;
    c.place == AT_PORT && c.id == OK
}

pub fn move_in_answer(x: Seen) -> Result<(), Refusal>
    ensures { answer result ≡ judge (move_in x).grounds }
{
    unless(x.isport, Refusal::OutOfRange)?;
    unless(1 <= x.value && x.value <= x.places, Refusal::OutOfRange)?;
    unless(can_move_in(x), Refusal::Conditions)?;
    unless(verified_here(x), Refusal::NotVerified)?;
    when(x.taken, Refusal::PlaceOrOpenerTaken)
}

pub fn move_in_effect(x: Seen) -> Effect
    ensures { result ≡ (move_in x).effect }
{
    on_both(
        x.count,
        x.port,
        x.here.emptied(),
        x.holds,
        x.held.moved_in(x.value),
    )
}
