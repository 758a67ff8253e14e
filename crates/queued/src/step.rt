// One input to a tool that is known to be sound.
// By number, as C hands it: document 02's numbers are its rows' names.
ghost use Rattle.std.specs.Prelude.{◌≡◌, true};
ghost use Rattle.rules.specs.Seen.{input_in};
ghost use Rattle.follow.specs.Follow.{KeptOutside};
ghost use Rattle.mapped.specs.Bytes.{own_in};
ghost use Rattle.queue.specs.Sound.{sound_tool};
ghost use Rattle.queue.specs.Outcome.{given_in};
ghost use Rattle.queued.specs.Bytes.{queued_in, left};

use crate::below::passed_on;
use crate::cancelled::*;
use crate::outs::{out_done, out_start};
use crate::requested::*;
use follow::blocks::BLOCKS;
use image::layout::*;
use mapped::step::Moved;
use rules::input::Input;

pub fn queued_step(
    m: &mut [[u8; TOOL_BYTES]; BLOCKS],
    o: &mut [u8; REPORTS_BYTES],
    i: Input,
) -> Moved
    requires { sound_tool (queued_in m.old) ≡ true }
    ensures result_after { left m.new o.new result ≡ given_in (queued_in m.old)
        (input_in i.entry) }
    ensures kept_outside { KeptOutside 0 1189 (own_in m.old) (own_in m.new) }
{
    match i.number {
        6 => cancel_carrier(m, o, i),
        7 => carrier_out(m, o, i),
        12 | 13 => at_port(m, o, i),
        19 => open_row(m, o, i),
        27 => out_start(m, o, i),
        28 => out_done(m, o, i),
        29 => cancel_carrier_out(m, o, i),
        30 => cancel_all_carrier_out(m, o, i),
        _ => passed_on(m, o, i),
    }
}
