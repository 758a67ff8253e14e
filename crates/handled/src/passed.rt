// An input that goes on below, and then the alarms; and one that is refused here.
ghost use Rattle.std.specs.Prelude.{◌≡◌, true, [], get_or};
ghost use Rattle.records.specs.Refusals.{answer};
ghost use Rattle.rules.specs.Seen.{narrow};
ghost use Rattle.rules.specs.Reports.{no_reports};
ghost use Rattle.image.specs.Image.{tool_from, reports_from};
ghost use Rattle.follow.specs.Follow.{KeptOutside};
ghost use Rattle.mapped.specs.Bytes.{own_in};
ghost use Rattle.wafers.specs.Outcome.{brought_in};
ghost use Rattle.hands.specs.Sound.{sound_tool};
ghost use Rattle.handled.specs.Bytes.{handled_in, left};
ghost use Rattle.handled.specs.Passing.{NoneElsewhere, passed_in};

use crate::settle::settle_all;
use follow::blocks::BLOCKS;
use hands::alarm::Alarm;
use image::layout::*;
use image::report::no_reports;
use records::refusal::Refusal;
use sight::look::narrow;
use wafers::input::Brought;
use wafers::step::brought_step;

// An answer, whatever it is, with nothing to report.
pub fn refused<A>(o: &mut [u8; REPORTS_BYTES], answer: A) -> A
    ensures value { result ≡ answer }
    ensures o_after { reports_from o.new ≡ no_reports }
{
    no_reports(o);
    answer
}

// a is what becomes of the alarm of its port; where that is no port of the tool's, none.
pub fn passed(
    m: &mut [[u8; TOOL_BYTES]; BLOCKS],
    o: &mut [u8; REPORTS_BYTES],
    i: Brought,
    a: Alarm,
) -> Result<(), Refusal>
    requires m_value { sound_tool (handled_in m.old) ≡ true }
    requires none_elsewhere { NoneElsewhere (tool_from (get_or m.old 0 [])) (narrow i.timed.input.port) a }
    ensures result_after { left m.new o.new (answer result) ≡ passed_in (handled_in m.old) (brought_in i.entry) (narrow i.entry.timed.input.port) a }
    ensures kept_outside { KeptOutside 0 1605 (own_in m.old) (own_in m.new) }
{
    brought_step(m, o, i)?;
    settle_all(m, o, narrow(i.timed.input.port), a);
    Ok(())
}
