// Set-up, in place.
ghost use Rattle.std.specs.Prelude.{◌≡◌, ◌≤◌, replicate};
ghost use Rattle.lists.specs.Lists.{fill};
ghost use Rattle.records.specs.Ports.{no_port, new_port};
ghost use Rattle.records.specs.Refusals.{answer};
ghost use Rattle.rules.specs.State.{no_tool, set_up};
ghost use Rattle.image.specs.Image.{tool_from};
ghost use Rattle.parts.specs.Apply.{to_ports};

use image::layout::*;
use image::write::{clear, put, put_port};
use records::port::Port;
use records::refusal::Refusal;
use records::sizes::*;

const MOST_PORTS: u32 = PORTS as u32;

const MOST_PLACES: u32 = PLACES as u32;

// No tool: all zeros, which is not sound.
fn no_tool(m: &mut [u8; TOOL_BYTES])
    ensures { tool_from m.new ≡ no_tool }
{
    clear(m);
}

// The first p ports as they are at set-up, and no port after them.
fn fresh_ports(m: &mut [u8; TOOL_BYTES], p: usize)
    requires p_bound { p ≤ 4 }
    requires m_value { tool_from m.old ≡ no_tool }
    ensures { tool_from m.new ≡ to_ports no_tool (fill 4 no_port (replicate p new_port)) }
{
    for k in 0..p {
        put_port(m, PORTS_START + PORT_BYTES * k, Port::fresh());
    }
}

// 1 to 4 ports and 0 to 16 buffer places; anything else is refused with 1 and gives no tool.
pub fn setup(m: &mut [u8; TOOL_BYTES], p: u32, b: u32) -> Result<(), Refusal>
    ensures m_after { tool_from m.new ≡ (set_up p b).tool }
    ensures value { answer result ≡ (set_up p b).answer }
{
    no_tool(m);
    if 1 <= p && p <= MOST_PORTS && b <= MOST_PLACES {
        fresh_ports(m, p as usize);
        put(m, USED_OFFSET, &[p as u8, b as u8]);
        Ok(())
    } else {
        Err(Refusal::OutOfRange)
    }
}
