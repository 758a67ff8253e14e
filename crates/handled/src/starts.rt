// 13. LoadStart and 24. UnloadStart: by hand, or by an automatic vehicle.
ghost use Rattle.std.specs.Prelude.{◌≡◌, true, cond, ◌||◌, ◌&&◌, not, [], ◌∷◌, eqb};
ghost use Rattle.records.specs.Refusals.{answer, number};
ghost use Rattle.rules.specs.Row.{when, unless, judge};
ghost use Rattle.follow.specs.Follow.{KeptOutside};
ghost use Rattle.mapped.specs.Bytes.{own_in};
ghost use Rattle.wafers.specs.Outcome.{brought_in};
ghost use Rattle.hands.specs.Alarms.{raised};
ghost use Rattle.hands.specs.Sound.{sound_tool};
ghost use Rattle.hands.specs.Outcome.{given_in};
ghost use Rattle.handled.specs.Bytes.{handled_in, left};

use crate::here::{Here, find_port};
use crate::passed::{passed, refused};
use crate::words::*;
use follow::blocks::BLOCKS;
use hands::alarm::Alarm;
use image::layout::*;
use line::asked::some_started_to;
use records::port::Port;
use records::refusal::Refusal;
use records::words::*;
use sight::look::narrow;
use wafers::input::Brought;

// the second number
const BY_HAND: u8 = 0;

const AUTOMATIC: u8 = 1;

// A start by hand at a port in AUTO raises the alarm.
fn after_start(by: u8, at: Here) -> Alarm
    ensures { result ≡ cond (eqb by 0 && eqb at.port.access 1) (raised at.alarm) at.alarm }
{
    if by == BY_HAND && at.port.access == AUTO {
        Alarm { on: ON, ..at.alarm }
    } else {
        at.alarm
    }
}

// Why an automatic start in MANUAL is refused: for that, unless something lower holds.
fn not_automatic(is_port: bool, started: bool, ready: bool) -> Refusal
    ensures { number result ≡ judge (unless is_port 1 ∷ when started 4 ∷ unless ready 5 ∷ when true 13 ∷ []) }
{
    if !is_port {
        Refusal::OutOfRange
    } else if started {
        Refusal::ReservedOrTied
    } else if !ready {
        Refusal::Conditions
    } else {
        Refusal::AutomaticInManual
    }
}

// Whether a start may find the port so: READY TO LOAD for a load, READY TO UNLOAD for an unload.
fn is_ready(number: u32, q: Port) -> bool
    ensures { result ≡ cond (eqb number 13) (eqb q.transfer 1) (eqb q.transfer 2) }
{
    if number == LOAD_START {
        q.transfer == READY_TO_LOAD
    } else {
        q.transfer == READY_TO_UNLOAD
    }
}

pub fn start_step(
    m: &mut [[u8; TOOL_BYTES]; BLOCKS],
    o: &mut [u8; REPORTS_BYTES],
    i: Brought,
) -> Result<(), Refusal>
    requires m_value { sound_tool (handled_in m.old) ≡ true }
    requires number_value { (eqb i.timed.input.number 13 || eqb i.timed.input.number 24) ≡ true }
    ensures result_after { left m.new o.new (answer result) ≡ given_in (handled_in m.old) (brought_in i.entry) }
    ensures kept_outside { KeptOutside 0 1605 (own_in m.old) (own_in m.new) }
{
    let by = narrow(i.timed.input.value);
    if AUTOMATIC < by {
        return refused(o, Err(Refusal::OutOfRange));
    }
    let at = find_port(m, i);
    if (by == AUTOMATIC) & (at.port.access == MANUAL) {
        let number = i.timed.input.number;
        let started = some_started_to(&m[1], narrow(i.timed.input.port));
        let refusal = not_automatic(
            at.is_port,
            (number == LOAD_START) & started,
            is_ready(number, at.port),
        );
        refused(o, Err(refusal))
    } else {
        passed(m, o, i, after_start(by, at))
    }
}
