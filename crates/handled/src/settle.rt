// What becomes of the alarms after an input, port by port, and what is reported of them.
ghost use Rattle.std.specs.Prelude.{◌≡◌, [], ◌≤◌, get_or, set};
ghost use Rattle.rules.specs.State.{spot_of};
ghost use Rattle.image.specs.Image.{tool_from, reports_from};
ghost use Rattle.parts.specs.Told.{note_all};
ghost use Rattle.follow.specs.Follow.{KeptOutside};
ghost use Rattle.mapped.specs.Bytes.{own_in};
ghost use Rattle.hands.specs.Alarms.{no_alarm, settled};
ghost use Rattle.hands.specs.Outcome.{all_settled, alarm_change, alarms_told};
ghost use Rattle.handled.specs.Bytes.{alarms_from};
ghost use Rattle.handled.specs.Settling.{settled_at, settled_table};

use crate::alarm::{alarm_at, put_alarm};
use follow::blocks::BLOCKS;
use hands::alarm::Alarm;
use image::layout::*;
use image::read::{port_at, spot_of};
use parts::report::note_if;
use records::name::Name;
use records::port::Port;
use records::words::*;

const MODEL: u8 = 9;

// The alarm clears at READY TO LOAD, and only a port that is loading holds a pod.
#[tactic(auto, unfolding(hands::specs::Alarms::settled))]
fn settled(q: Port, a: Alarm) -> Alarm
    ensures { result ≡ settled q a }
{
    let on = if q.transfer == READY_TO_LOAD {
        OFF
    } else {
        a.on
    };
    let held = if q.movement == LOADING { a.held } else { OFF };
    Alarm { on, held }
}

// Port p: a is what becomes of its alarm if the input was for it.
fn settle_port(
    m: &mut [[u8; TOOL_BYTES]; BLOCKS],
    o: &mut [u8; REPORTS_BYTES],
    port: u8,
    a: Alarm,
    p: u8,
)
    requires le_p { 1 ≤ p }
    requires p_bound { p ≤ 4 }
    ensures m_unchanged { get_or m.new 0 [] ≡ get_or m.old 0 [] }
    ensures m_after { alarms_from (own_in m.new)
        ≡ settled_table (tool_from (get_or m.old 0 [])) (alarms_from (own_in m.old)) port a p }
    ensures o_after { reports_from o.new ≡ note_all (reports_from o.old)
        (alarm_change p (get_or (alarms_from (own_in m.old)) (spot_of p) no_alarm)
        (settled_at (tool_from (get_or m.old 0 [])) (alarms_from (own_in m.old)) port a p)) }
    ensures kept_outside { KeptOutside 1597 1605 (own_in m.old) (own_in m.new) }
{
    let q = port_at(&m[0], p);
    let old = alarm_at(&m[1], p);
    let mine = if port == p { a } else { old };
    let new = settled(q, mine);
    note_if(o, old.on != new.on, MODEL, p, Name::none(), old.on, new.on);
    put_alarm(&mut m[1], spot_of(p), new);
}

// All of them: a is what becomes of the alarm of the input's port.
pub fn settle_all(
    m: &mut [[u8; TOOL_BYTES]; BLOCKS],
    o: &mut [u8; REPORTS_BYTES],
    port: u8,
    a: Alarm,
)
    ensures m_unchanged { get_or m.new 0 [] ≡ get_or m.old 0 [] }
    ensures m_after { alarms_from (own_in m.new) ≡ all_settled (tool_from (get_or m.old 0 [])).ports
        (set (alarms_from (own_in m.old)) (spot_of port) a) }
    ensures o_after { reports_from o.new ≡ note_all (reports_from o.old)
        (alarms_told 1 (alarms_from (own_in m.old)) (all_settled (tool_from (get_or m.old 0 [])).ports
        (set (alarms_from (own_in m.old)) (spot_of port) a))) }
    ensures kept_outside { KeptOutside 1597 1605 (own_in m.old) (own_in m.new) }
{
    settle_port(m, o, port, a, 1);
    settle_port(m, o, port, a, 2);
    settle_port(m, o, port, a, 3);
    settle_port(m, o, port, a, 4);
}
