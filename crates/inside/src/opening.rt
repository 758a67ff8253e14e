// Rows 19 to 23: a carrier is opened, mapped, accessed and closed.
// Some effects are alike but for the method that gives what follows: each is one line beside its row's definition.
ghost use Rattle.std.specs.Prelude.{◌≡◌};
ghost use Rattle.records.specs.Refusals.{answer};
ghost use Rattle.rules.specs.Row.{judge};
ghost use Rattle.rules.specs.Opening.{can_open, not_verified, opener_in_use, open_row, slot_map, access_start, access_end, leaves_port, close_row};

use effects::ask::{on_both, on_record};
use records::port::Port;
use records::refusal::{Refusal, unless, when};
use records::words::*;
use rules::row::{Effect, Seen};

fn can_open(x: Seen) -> bool
    ensures { result ≡ can_open x }
{
    let c = x.found;
    let q = x.home;
    c.opened != OPEN
        && c.accessing == NOT_ACCESSED
        && (c.place == IN_BUFFER
            || x.places == 0 && c.place == AT_PORT && q.movement == IDLE && q.transfer == BLOCKED)
}

fn not_verified(x: Seen) -> bool
    ensures { result ≡ not_verified x }
{
    let c = x.found;
    c.id != OK || c.slot == FAILED || c.cancelled == ON
}

fn opener_in_use(x: Seen) -> bool
    ensures { result ≡ opener_in_use x }
{
    1 <= x.places && x.busy
}

pub fn open_answer(x: Seen) -> Result<(), Refusal>
    ensures { answer result ≡ judge (open_row x).grounds }
{
    unless(x.named, Refusal::OutOfRange)?;
    unless(x.known, Refusal::NoRecord)?;
    unless(can_open(x), Refusal::Conditions)?;
    when(not_verified(x), Refusal::NotVerified)?;
    when(opener_in_use(x), Refusal::PlaceOrOpenerTaken)
}

pub fn open_effect(x: Seen) -> Effect
    ensures { result ≡ (open_row x).effect }
{
    on_record(x.count, x.stands, x.found.with_opened(OPEN))
}

pub fn slot_map_answer(x: Seen) -> Result<(), Refusal>
    ensures { answer result ≡ judge (slot_map x).grounds }
{
    let c = x.found;
    unless(x.named, Refusal::OutOfRange)?;
    unless(x.mapped, Refusal::OutOfRange)?;
    unless(x.known, Refusal::NoRecord)?;
    unless(c.opened == OPEN && c.slot == NOT_READ, Refusal::Conditions)
}

pub fn slot_map_effect(x: Seen) -> Effect
    ensures { result ≡ (slot_map x).effect }
{
    on_record(x.count, x.stands, x.found.with_map(x.map, WAITING))
}

pub fn access_start_answer(x: Seen) -> Result<(), Refusal>
    ensures { answer result ≡ judge (access_start x).grounds }
{
    let c = x.found;
    unless(x.named, Refusal::OutOfRange)?;
    unless(x.known, Refusal::NoRecord)?;
    unless(
        c.opened == OPEN && c.accessing == NOT_ACCESSED,
        Refusal::Conditions,
    )?;
    unless(c.slot == OK, Refusal::NotVerified)
}

pub fn access_start_effect(x: Seen) -> Effect
    ensures { result ≡ (access_start x).effect }
{
    on_record(x.count, x.stands, x.found.with_accessing(IN_ACCESS))
}

pub fn access_end_answer(x: Seen) -> Result<(), Refusal>
    ensures { answer result ≡ judge (access_end x).grounds }
{
    unless(x.named, Refusal::OutOfRange)?;
    unless(x.value <= ACCESS_END_STOPPED, Refusal::OutOfRange)?;
    unless(x.known, Refusal::NoRecord)?;
    unless(x.found.accessing == IN_ACCESS, Refusal::Conditions)
}

pub fn access_end_effect(x: Seen) -> Effect
    ensures { result ≡ (access_end x).effect }
{
    let accessing = if x.value == ACCESS_END_COMPLETE {
        COMPLETE
    } else {
        STOPPED
    };
    on_record(x.count, x.stands, x.found.with_accessing(accessing))
}

pub fn close_answer(x: Seen) -> Result<(), Refusal>
    ensures { answer result ≡ judge (close_row x).grounds }
{
    let c = x.found;
    unless(x.named, Refusal::OutOfRange)?;
    unless(x.known, Refusal::NoRecord)?;
    unless(
        c.opened == OPEN && c.accessing != IN_ACCESS,
        Refusal::Conditions,
    )
}

fn leaves_port(x: Seen) -> bool
    ensures { result ≡ leaves_port x }
{
    let c = x.found;
    c.place == AT_PORT && COMPLETE <= c.accessing
}

pub fn close_effect(x: Seen) -> Effect
    ensures { result ≡ (close_row x).effect }
{
    let c = x.found.with_opened(CLOSED);
    if leaves_port(x) {
        on_both(x.count, c.port, x.home.to_unload(), x.stands, c)
    } else {
        on_record(x.count, x.stands, c)
    }
}
