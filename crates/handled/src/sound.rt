// Whether the alarms are sound.
ghost use Rattle.std.specs.Prelude.{◌≡◌, get_or, []};
ghost use Rattle.image.specs.Image.{tool_from};
ghost use Rattle.mapped.specs.Bytes.{own_in};
ghost use Rattle.hands.specs.Sound.{agrees, is_none};
ghost use Rattle.handled.specs.Bytes.{alarms_from};
ghost use Rattle.handled.specs.Tests.{sound_at, sound_alarms};

use crate::alarm::alarm_at;
use follow::blocks::BLOCKS;
use hands::alarm::Alarm;
use image::layout::TOOL_BYTES;
use image::read::{port_at, used};
use records::port::Port;
use records::words::*;

// A held port is loading with its alarm on; none is on at READY TO LOAD.
#[tactic(auto, unfolding(hands::specs::Sound::agrees))]
fn agrees(q: Port, a: Alarm) -> bool
    ensures { result ≡ agrees q a }
{
    let on = a.on == ON;
    let held = a.held == ON;
    (a.on <= ON)
        & (a.held <= ON)
        & (!held | ((q.movement == LOADING) & on))
        & !(on & (q.transfer == READY_TO_LOAD))
}

#[tactic(auto, unfolding(hands::specs::Sound::is_none))]
fn is_none(a: Alarm) -> bool
    ensures { result ≡ is_none a }
{
    a.on == OFF && a.held == OFF
}

fn sound_at(m: &[[u8; TOOL_BYTES]; BLOCKS], p: u8) -> bool
    ensures { result ≡ sound_at (tool_from (get_or m.now 0 [])) (alarms_from (own_in m.now)) p }
{
    let a = alarm_at(&m[1], p);
    if p <= used(&m[0]) {
        agrees(port_at(&m[0], p), a)
    } else {
        is_none(a)
    }
}

#[tactic(auto, unfolding(crate::specs::Tests::sound_alarms))]
pub fn sound_alarms(m: &[[u8; TOOL_BYTES]; BLOCKS]) -> bool
    ensures { result ≡ sound_alarms (tool_from (get_or m.now 0 [])) (alarms_from (own_in m.now)) }
{
    sound_at(m, 1) && sound_at(m, 2) && sound_at(m, 3) && sound_at(m, 4)
}
