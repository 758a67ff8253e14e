// One input to the machine.
ghost use Rattle.std.specs.Prelude.{◌≡◌, true, ◌≤◌};
ghost use Rattle.records.specs.Refusals.{answer};
ghost use Rattle.rules.specs.State.{port_at, record_at};
ghost use Rattle.rules.specs.Seen.{input_in};
ghost use Rattle.rules.specs.Sound.{sound_tool};
ghost use Rattle.rules.specs.Reports.{no_reports};
ghost use Rattle.rules.specs.Outcome.{outcome_in, outcome};
ghost use Rattle.image.specs.Image.{tool_from, reports_from};
ghost use Rattle.parts.specs.Apply.{applied};
ghost use Rattle.parts.specs.Told.{note_all, touched};

use image::layout::*;
use image::read::{port_at, record_at};
use image::report::no_reports;
use parts::apply::apply;
use parts::report::told;
use records::refusal::Refusal;
use rows::numbered::{answer_of, effect_of};
use rules::input::Input;
use rules::row::Effect;
use sight::look::look;
use soundness::whole::sound;

// An effect's reports, and the effect.
pub fn carry_out(m: &mut [u8; TOOL_BYTES], o: &mut [u8; REPORTS_BYTES], e: Effect)
    requires m_bound { (tool_from m.old).used ≤ 4 }
    requires m_bound_2 { (tool_from m.old).count ≤ 36 }
    ensures m_after { tool_from m.new ≡ applied (tool_from m.old) e }
    ensures o_after { reports_from o.new ≡ note_all no_reports (touched (port_at (tool_from m.old) e.port)
        (record_at (tool_from m.old) e.goes) (record_at (tool_from m.old) e.changes) e) }
{
    let gone = record_at(m, e.goes);
    let was = record_at(m, e.changes);
    let here = port_at(m, e.port);
    told(o, e, here, gone, was);
    apply(m, e);
}

// For a layer above that has tested soundness itself: it is most of the time that a step takes.
pub fn step_sound(
    m: &mut [u8; TOOL_BYTES],
    o: &mut [u8; REPORTS_BYTES],
    i: Input,
) -> Result<(), Refusal>
    requires { sound_tool (tool_from m.old) ≡ true }
    ensures m_after { tool_from m.new ≡ (outcome_in (tool_from m.old) (input_in i.entry)).tool }
    ensures o_after { reports_from o.new ≡ (outcome_in (tool_from m.old) (input_in i.entry)).reports }
    ensures value { answer result ≡ (outcome_in (tool_from m.old) (input_in i.entry)).answer }
{
    let x = look(m, i);
    if let Err(refusal) = answer_of(i.number, x) {
        no_reports(o);
        return Err(refusal);
    }
    carry_out(m, o, effect_of(i.number, x));
    Ok(())
}

// Any input to any tool: the answer, the tool that follows, and the reports.
pub fn step(m: &mut [u8; TOOL_BYTES], o: &mut [u8; REPORTS_BYTES], i: Input) -> Result<(), Refusal>
    ensures m_after { tool_from m.new ≡ (outcome (tool_from m.old) (input_in i.entry)).tool }
    ensures o_after { reports_from o.new ≡ (outcome (tool_from m.old) (input_in i.entry)).reports }
    ensures value { answer result ≡ (outcome (tool_from m.old) (input_in i.entry)).answer }
{
    if sound(m) {
        step_sound(m, o, i)
    } else {
        no_reports(o);
        Err(Refusal::OutOfRange)
    }
}
