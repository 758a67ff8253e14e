// What an input finds at the port that it gives.
ghost use Rattle.std.specs.Prelude.{◌≡◌, true};
ghost use Rattle.wafers.specs.Outcome.{brought_in};
ghost use Rattle.hands.specs.Sound.{sound_tool};
ghost use Rattle.handled.specs.Bytes.{handled_in};
ghost use Rattle.handled.specs.Here.{seen_in, alarm_in};

use crate::alarm::alarm_at;
use follow::blocks::BLOCKS;
use hands::alarm::Alarm;
use image::layout::TOOL_BYTES;
use image::read::{port_at, used};
use records::port::Port;
use sight::look::narrow;
use wafers::input::Brought;

// is_port: it is one of the tool's.
#[derive(Clone, Copy)]
pub struct Here {
    pub is_port: bool,
    pub port: Port,
    pub alarm: Alarm,
}

pub fn find_port(m: &[[u8; TOOL_BYTES]; BLOCKS], i: Brought) -> Here
    requires { sound_tool (handled_in m.now) ≡ true }
    ensures is_port { result.is_port ≡ (seen_in (handled_in m.now) (brought_in i.entry)).isport }
    ensures port { result.port ≡ (seen_in (handled_in m.now) (brought_in i.entry)).here }
    ensures alarm { result.alarm ≡ alarm_in (handled_in m.now) (brought_in i.entry) }
{
    let p = narrow(i.timed.input.port);
    Here {
        is_port: (1 <= p) & (p <= used(&m[0])),
        port: port_at(&m[0], p),
        alarm: alarm_at(&m[1], p),
    }
}
