// Requests are dropped: 6 CancelCarrier, 29 CancelCarrierOut, 30 CancelAllCarrierOut.
ghost use Rattle.std.specs.Prelude.{◌≡◌, true, [], ◌∷◌};
ghost use Rattle.records.specs.Refusals.{answer};
ghost use Rattle.rules.specs.Row.{unless, judge};
ghost use Rattle.rules.specs.Seen.{numbered};
ghost use Rattle.follow.specs.Follow.{KeptOutside};
ghost use Rattle.mapped.specs.Bytes.{own_in};
ghost use Rattle.queue.specs.Sound.{sound_tool};
ghost use Rattle.queue.specs.Outcome.{given_in};
ghost use Rattle.queued.specs.Bytes.{queued_in, left};

use crate::below::{passed_on, unmoved};
use follow::blocks::BLOCKS;
use image::layout::*;
use line::asked::{drop_of, some_waits_of};
use line::change::drop_waiting;
use mapped::step::Moved;
use records::name::{in_bytes, is_name};
use records::refusal::{Refusal, unless};
use rules::input::Input;

// 6: accepted, it drops that carrier's request, if it isn't started.
pub fn cancel_carrier(
    m: &mut [[u8; TOOL_BYTES]; BLOCKS],
    o: &mut [u8; REPORTS_BYTES],
    i: Input,
) -> Moved
    requires { sound_tool (queued_in m.old) ≡ true }
    ensures result_after { left m.new o.new result ≡ given_in (queued_in m.old)
        (numbered 6 i.entry) }
    ensures kept_outside { KeptOutside 0 1189 (own_in m.old) (own_in m.new) }
{
    let r = passed_on(m, o, Input { number: 6, ..i });
    if r.answer.is_err() {
        return r;
    }
    drop_of(&mut m[1], in_bytes(i.name));
    r
}

fn cancel_carrier_out_answer(named: bool, waits: bool) -> Result<(), Refusal>
    ensures { answer result ≡ judge (unless named 1 ∷ unless waits 5 ∷ []) }
{
    unless(named, Refusal::OutOfRange)?;
    unless(waits, Refusal::Conditions)
}

// 29
pub fn cancel_carrier_out(
    m: &mut [[u8; TOOL_BYTES]; BLOCKS],
    o: &mut [u8; REPORTS_BYTES],
    i: Input,
) -> Moved
    requires { sound_tool (queued_in m.old) ≡ true }
    ensures result_after { left m.new o.new result ≡ given_in (queued_in m.old)
        (numbered 29 i.entry) }
    ensures kept_outside { KeptOutside 0 1189 (own_in m.old) (own_in m.new) }
{
    let name = in_bytes(i.name);
    let waits = some_waits_of(&m[1], name);
    if let Err(refusal) = cancel_carrier_out_answer(is_name(i.name), waits) {
        return unmoved(&m[0], o, Err(refusal));
    }
    drop_of(&mut m[1], name);
    unmoved(&m[0], o, Ok(()))
}

// 30: accepted even with none.
pub fn cancel_all_carrier_out(
    m: &mut [[u8; TOOL_BYTES]; BLOCKS],
    o: &mut [u8; REPORTS_BYTES],
    i: Input,
) -> Moved
    requires { sound_tool (queued_in m.old) ≡ true }
    ensures result_after { left m.new o.new result ≡ given_in (queued_in m.old)
        (numbered 30 i.entry) }
    ensures kept_outside { KeptOutside 0 1189 (own_in m.old) (own_in m.new) }
{
    drop_waiting(&mut m[1]);
    unmoved(&m[0], o, Ok(()))
}
