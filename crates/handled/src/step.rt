// One input to a tool that is known to be sound.
ghost use Rattle.std.specs.Prelude.{◌≡◌, true};
ghost use Rattle.records.specs.Refusals.{answer};
ghost use Rattle.follow.specs.Follow.{KeptOutside};
ghost use Rattle.mapped.specs.Bytes.{own_in};
ghost use Rattle.wafers.specs.Outcome.{brought_in};
ghost use Rattle.hands.specs.Sound.{sound_tool};
ghost use Rattle.hands.specs.Outcome.{given_in};
ghost use Rattle.handled.specs.Bytes.{handled_in, left};

use crate::here::find_port;
use crate::loads::{continue_step, load_done};
use crate::passed::passed;
use crate::starts::start_step;
use crate::words::*;
use follow::blocks::BLOCKS;
use image::layout::*;
use records::refusal::Refusal;
use wafers::input::Brought;

pub fn handled_step(
    m: &mut [[u8; TOOL_BYTES]; BLOCKS],
    o: &mut [u8; REPORTS_BYTES],
    i: Brought,
) -> Result<(), Refusal>
    requires { sound_tool (handled_in m.old) ≡ true }
    ensures result_after { left m.new o.new (answer result) ≡ given_in (handled_in m.old) (brought_in i.entry) }
    ensures kept_outside { KeptOutside 0 1605 (own_in m.old) (own_in m.new) }
{
    match i.timed.input.number {
        LOAD_START | UNLOAD_START => start_step(m, o, i),
        LOAD_DONE => load_done(m, o, i),
        CONTINUE => continue_step(m, o, i),
        // any other row leaves the alarm of its port to the port
        _ => {
            let alarm = find_port(m, i).alarm;
            passed(m, o, i, alarm)
        }
    }
}
