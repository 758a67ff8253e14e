// An input that goes on below, with the queue beside it; and one that leaves nothing to report.
ghost use Rattle.std.specs.Prelude.{◌≡◌, true, false};
ghost use Rattle.records.specs.Names.{no_name};
ghost use Rattle.rules.specs.Seen.{input_in};
ghost use Rattle.rules.specs.Reports.{no_reports};
ghost use Rattle.image.specs.Image.{tool_from, reports_from};
ghost use Rattle.follow.specs.Follow.{KeptOutside};
ghost use Rattle.maps.specs.Outcome.{given_in};
ghost use Rattle.maps.specs.Sound.{sound_tool};
ghost use Rattle.mapped.specs.Bytes.{mapped_in, own_in};
ghost use Rattle.queue.specs.Outcome.{beside};
ghost use Rattle.line.specs.Bytes.{waiting_in, queue_from};
ghost use Rattle.queued.specs.Bytes.{left};

use follow::blocks::BLOCKS;
use image::layout::*;
use image::read::count;
use image::report::no_reports;
use mapped::step::{Moved, step_sound};
use records::name::Name;
use records::refusal::Refusal;
use rules::input::Input;

// An answer, whatever it is, with nothing to report, and no record that goes or is made.
pub fn unmoved<A>(m: &[u8; TOOL_BYTES], o: &mut [u8; REPORTS_BYTES], answer: A) -> Moved<A>
    ensures value { result ≡ record { answer = answer; goes = (tool_from m.now).count; made = false; gone = no_name } }
    ensures o_after { reports_from o.new ≡ no_reports }
{
    no_reports(o);
    Moved {
        answer,
        goes: usize::from(count(m)),
        made: false,
        gone: Name::none(),
    }
}

pub fn passed_on(m: &mut [[u8; TOOL_BYTES]; BLOCKS], o: &mut [u8; REPORTS_BYTES], i: Input) -> Moved
    requires { sound_tool (mapped_in m.old) ≡ true }
    ensures result_after { left m.new o.new result ≡ beside (waiting_in (own_in m.old))
        (queue_from (own_in m.old)) (given_in (mapped_in m.old) (input_in i.entry)) }
    ensures kept_outside { KeptOutside 0 900 (own_in m.old) (own_in m.new) }
{
    step_sound(m, o, i)
}
