// Rows 9 to 12: access mode, service status and reservations of a port.
// Some effects are alike but for the method that gives what follows: each is one line beside its row's definition.
ghost use Rattle.std.specs.Prelude.{◌≡◌};
ghost use Rattle.records.specs.Refusals.{answer};
ghost use Rattle.rules.specs.Row.{judge};
ghost use Rattle.rules.specs.Service.{other_access, change_access, goes_out, comes_in, change_service_status};
ghost use Rattle.rules.specs.Service.{reserve_at_port, cancel_reservation_at_port};

use effects::ask::{on_port, reserved_or_tied};
use records::refusal::{Refusal, unless, when};
use records::words::*;
use rules::row::{Effect, Seen};

fn other_access(x: Seen) -> bool
    ensures { result ≡ other_access x }
{
    x.here.access != x.value
}

pub fn change_access_answer(x: Seen) -> Result<(), Refusal>
    ensures { answer result ≡ judge (change_access x).grounds }
{
    let q = x.here;
    unless(x.isport, Refusal::OutOfRange)?;
    unless(x.value <= AUTO, Refusal::OutOfRange)?;
    when(
        other_access(x) && q.reserved == RESERVED,
        Refusal::ReservedOrTied,
    )?;
    when(other_access(x) && q.movement != IDLE, Refusal::Conditions)
}

pub fn change_access_effect(x: Seen) -> Effect
    ensures { result ≡ (change_access x).effect }
{
    on_port(x.count, x.port, x.here.with_access(x.value))
}

fn goes_out(x: Seen) -> bool
    ensures { result ≡ goes_out x }
{
    x.here.transfer != OUT_OF_SERVICE && x.value == SERVICE_OUT
}

fn comes_in(x: Seen) -> bool
    ensures { result ≡ comes_in x }
{
    x.here.transfer == OUT_OF_SERVICE && x.value == SERVICE_IN
}

pub fn change_service_status_answer(x: Seen) -> Result<(), Refusal>
    ensures { answer result ≡ judge (change_service_status x).grounds }
{
    unless(x.isport, Refusal::OutOfRange)?;
    unless(x.value <= SERVICE_IN, Refusal::OutOfRange)?;
    when(goes_out(x) && reserved_or_tied(x), Refusal::ReservedOrTied)?;
    when(
        goes_out(x) && x.here.transfer != READY_TO_LOAD,
        Refusal::Conditions,
    )
}

pub fn change_service_status_effect(x: Seen) -> Effect
    ensures { result ≡ (change_service_status x).effect }
{
    let q = x.here;
    let transfer = if goes_out(x) {
        OUT_OF_SERVICE
    } else if comes_in(x) {
        READY_TO_LOAD
    } else {
        q.transfer
    };
    on_port(x.count, x.port, q.with_transfer(transfer))
}

pub fn reserve_at_port_answer(x: Seen) -> Result<(), Refusal>
    ensures { answer result ≡ judge (reserve_at_port x).grounds }
{
    unless(x.isport, Refusal::OutOfRange)?;
    when(reserved_or_tied(x), Refusal::ReservedOrTied)?;
    unless(x.here.transfer == READY_TO_LOAD, Refusal::Conditions)
}

pub fn reserve_at_port_effect(x: Seen) -> Effect
    ensures { result ≡ (reserve_at_port x).effect }
{
    on_port(x.count, x.port, x.here.with_reserved(RESERVED))
}

pub fn cancel_reservation_at_port_answer(x: Seen) -> Result<(), Refusal>
    ensures { answer result ≡ judge (cancel_reservation_at_port x).grounds }
{
    unless(x.isport, Refusal::OutOfRange)?;
    when(x.tied, Refusal::ReservedOrTied)?;
    unless(x.here.reserved == RESERVED, Refusal::Conditions)
}

pub fn cancel_reservation_at_port_effect(x: Seen) -> Effect
    ensures { result ≡ (cancel_reservation_at_port x).effect }
{
    on_port(x.count, x.port, x.here.with_reserved(NOT_RESERVED))
}
