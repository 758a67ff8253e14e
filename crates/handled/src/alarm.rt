// The alarm of a port, read and written in place.
ghost use Rattle.std.specs.Prelude.{◌≡◌, ◌<◌, get_or, set};
ghost use Rattle.rules.specs.State.{spot_of};
ghost use Rattle.follow.specs.Follow.{KeptOutside};
ghost use Rattle.hands.specs.Alarms.{no_alarm};
ghost use Rattle.handled.specs.Bytes.{alarms_from};

use crate::layout::*;
use hands::alarm::Alarm;
use image::layout::TOOL_BYTES;
use image::read::spot_of;
use image::write::put;
use records::sizes::PORTS;
use records::words::OFF;

pub fn no_alarm() -> Alarm
    ensures { result ≡ no_alarm }
{
    Alarm { on: OFF, held: OFF }
}

// By the port's number; no port has none.
pub fn alarm_at(m: &[u8; TOOL_BYTES], p: u8) -> Alarm
    ensures { result ≡ get_or (alarms_from m.now) (spot_of p) no_alarm }
{
    let k = spot_of(p);
    if k < PORTS {
        let o = ALARMS_START + ALARM_BYTES * k;
        Alarm {
            on: m[o],
            held: m[o + HELD_OFFSET],
        }
    } else {
        no_alarm()
    }
}

// By its position.
pub fn put_alarm(m: &mut [u8; TOOL_BYTES], k: usize, a: Alarm)
    requires { k < 4 }
    ensures m_after { alarms_from m.new ≡ set (alarms_from m.old) k a }
    ensures kept_outside { KeptOutside 1597 1605 m.old m.new }
{
    let b = [a.on, a.held];
    put(m, ALARMS_START + ALARM_BYTES * k, &b);
}
