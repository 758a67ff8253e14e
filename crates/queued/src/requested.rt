// 7. CarrierOut: a request is queued. And the rows that a started one holds back: 12, 13, 19.
ghost use Rattle.std.specs.Prelude.{◌≡◌, true, ◌||◌, eqb, [], ◌∷◌};
ghost use Rattle.records.specs.Carriers.{in_buffer};
ghost use Rattle.records.specs.Refusals.{answer};
ghost use Rattle.rules.specs.Seen.{input_in, numbered};
ghost use Rattle.rules.specs.Row.{when, unless, judge};
ghost use Rattle.follow.specs.Follow.{KeptOutside};
ghost use Rattle.mapped.specs.Bytes.{own_in};
ghost use Rattle.queue.specs.Sound.{sound_tool};
ghost use Rattle.queue.specs.Outcome.{given_in};
ghost use Rattle.queued.specs.Bytes.{queued_in, left};

use crate::below::{passed_on, unmoved};
use follow::blocks::BLOCKS;
use image::layout::*;
use line::asked::*;
use line::change::add;
use mapped::step::Moved;
use records::name::{in_bytes, is_name};
use records::refusal::{Refusal, unless, when};
use records::words::*;
use rules::input::Input;
use rules::row::Seen;
use sight::look::{look, narrow};

fn carrier_out_answer(x: Seen, full: bool, queued: bool) -> Result<(), Refusal>
    ensures { answer result ≡ judge (unless x.named 1 ∷ unless x.isport 1 ∷ unless x.known 2 ∷ unless (in_buffer x.found) 5
        ∷ when full 9 ∷ when queued 10 ∷ []) }
{
    unless(x.named, Refusal::OutOfRange)?;
    unless(x.isport, Refusal::OutOfRange)?;
    unless(x.known, Refusal::NoRecord)?;
    unless(x.found.place == IN_BUFFER, Refusal::Conditions)?;
    when(full, Refusal::QueueFull)?;
    when(queued, Refusal::QueuedAlready)
}

pub fn carrier_out(
    m: &mut [[u8; TOOL_BYTES]; BLOCKS],
    o: &mut [u8; REPORTS_BYTES],
    i: Input,
) -> Moved
    requires { sound_tool (queued_in m.old) ≡ true }
    ensures result_after { left m.new o.new result ≡ given_in (queued_in m.old)
        (numbered 7 i.entry) }
    ensures kept_outside { KeptOutside 0 1189 (own_in m.old) (own_in m.new) }
{
    let x = look(&m[0], i);
    let full = is_full(&m[1]);
    let queued = is_queued(&m[1], x.name);
    if let Err(refusal) = carrier_out_answer(x, full, queued) {
        return unmoved(&m[0], o, Err(refusal));
    }
    add(&mut m[1], x.name, x.port);
    unmoved(&m[0], o, Ok(()))
}

// 12 and 13: a port that a request is started to is held back.
pub fn at_port(m: &mut [[u8; TOOL_BYTES]; BLOCKS], o: &mut [u8; REPORTS_BYTES], i: Input) -> Moved
    requires m_value { sound_tool (queued_in m.old) ≡ true }
    requires number_value { (eqb i.number 12 || eqb i.number 13) ≡ true }
    ensures result_after { left m.new o.new result ≡ given_in (queued_in m.old)
        (input_in i.entry) }
    ensures kept_outside { KeptOutside 0 1189 (own_in m.old) (own_in m.new) }
{
    if some_started_to(&m[1], narrow(i.port)) {
        unmoved(&m[0], o, Err(Refusal::ReservedOrTied))
    } else {
        passed_on(m, o, i)
    }
}

// 19: a carrier whose request is started is held back.
pub fn open_row(m: &mut [[u8; TOOL_BYTES]; BLOCKS], o: &mut [u8; REPORTS_BYTES], i: Input) -> Moved
    requires { sound_tool (queued_in m.old) ≡ true }
    ensures result_after { left m.new o.new result ≡ given_in (queued_in m.old)
        (numbered 19 i.entry) }
    ensures kept_outside { KeptOutside 0 1189 (own_in m.old) (own_in m.new) }
{
    // by `&`: with `&&`, which reads no plainer, the step below has two ways to it in the proof
    if some_started_of(&m[1], in_bytes(i.name)) & is_name(i.name) {
        unmoved(&m[0], o, Err(Refusal::Conditions))
    } else {
        passed_on(m, o, Input { number: 19, ..i })
    }
}
