// An effect carried out, in place.
ghost use Rattle.std.specs.Prelude.{◌≡◌, ◌≤◌};
ghost use Rattle.image.specs.Image.{tool_from};
ghost use Rattle.parts.specs.Apply.{with_port, with_record, removed, pushed, applied};

use image::layout::*;
use image::read::{count, spot_of, used};
use image::write::{move_up, put_carrier, put_port};
use records::carrier::Carrier;
use records::port::Port;
use rules::row::Effect;

fn with_port(m: &mut [u8; TOOL_BYTES], p: u8, q: Port)
    requires { (tool_from m.old).used ≤ 4 }
    ensures { tool_from m.new ≡ with_port (tool_from m.old) p q }
{
    let k = spot_of(p);
    if k < usize::from(used(m)) {
        put_port(m, PORTS_START + PORT_BYTES * k, q);
    }
}

fn with_record(m: &mut [u8; TOOL_BYTES], k: usize, c: Carrier)
    requires { (tool_from m.old).count ≤ 36 }
    ensures { tool_from m.new ≡ with_record (tool_from m.old) k c }
{
    if k < usize::from(count(m)) {
        put_carrier(m, RECORDS_START + CARRIER_BYTES * k, c);
    }
}

fn removed(m: &mut [u8; TOOL_BYTES], k: usize)
    requires { (tool_from m.old).count ≤ 36 }
    ensures { tool_from m.new ≡ removed (tool_from m.old) k }
{
    let n = count(m);
    if k < usize::from(n) {
        move_up(m, RECORDS_START + CARRIER_BYTES * k);
        put_carrier(m, LAST_RECORD_START, Carrier::none());
        m[COUNT_OFFSET] = n - 1;
    }
}

fn pushed(m: &mut [u8; TOOL_BYTES], b: bool, c: Carrier)
    ensures { tool_from m.new ≡ pushed (tool_from m.old) b c }
{
    let n = count(m);
    if b && n < COUNT_MOST {
        put_carrier(m, RECORDS_START + CARRIER_BYTES * usize::from(n), c);
        m[COUNT_OFFSET] = n + 1;
    }
}

pub fn apply(m: &mut [u8; TOOL_BYTES], e: Effect)
    requires m_bound { (tool_from m.old).used ≤ 4 }
    requires m_bound_2 { (tool_from m.old).count ≤ 36 }
    ensures { tool_from m.new ≡ applied (tool_from m.old) e }
{
    let c = e.next;
    with_port(m, e.port, e.becomes);
    with_record(m, e.changes, c);
    removed(m, e.goes);
    pushed(m, e.made, c);
}
