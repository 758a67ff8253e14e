// One input to a tool that is known to be sound.
ghost use Rattle.std.specs.Prelude.{◌≡◌, true};
ghost use Rattle.follow.specs.Follow.{KeptOutside};
ghost use Rattle.mapped.specs.Bytes.{own_in};
ghost use Rattle.prediction.specs.State.{timed_in};
ghost use Rattle.prediction.specs.Sound.{sound_tool};
ghost use Rattle.prediction.specs.Outcome.{given_in};
ghost use Rattle.predicted.specs.Bytes.{predicted_in, left};

use crate::others::other_step;
use crate::timed::timed_step;
use follow::blocks::BLOCKS;
use image::layout::*;
use model8::facts::is_timed;
use prediction::input::Timed;
use records::refusal::Refusal;

pub fn predicted_step(
    m: &mut [[u8; TOOL_BYTES]; BLOCKS],
    o: &mut [u8; REPORTS_BYTES],
    i: Timed,
) -> Result<(), Refusal>
    requires { sound_tool (predicted_in m.old) ≡ true }
    ensures result_after { left m.new o.new result ≡ given_in (predicted_in m.old)
        (timed_in i.entry) }
    ensures kept_outside { KeptOutside 0 1597 (own_in m.old) (own_in m.new) }
{
    if is_timed(i.input.number) {
        timed_step(m, o, i)
    } else {
        other_step(m, o, i)
    }
}
