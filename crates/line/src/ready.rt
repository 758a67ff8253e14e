// Which request OutStart takes.
ghost use Rattle.std.specs.Prelude.{◌≡◌, ◌≤◌, [], get_or, take};
ghost use Rattle.lists.specs.Lists.{where_is};
ghost use Rattle.rules.specs.State.{state_of};
ghost use Rattle.rules.specs.Held.{Held};
ghost use Rattle.image.specs.Image.{tool_from};
ghost use Rattle.queue.specs.Requests.{is_ready};
ghost use Rattle.line.specs.Bytes.{queue_from};

use crate::find::position_of;
use crate::sound::{carrier_named, may_leave};
use follow::blocks::BLOCKS;
use image::layout::TOOL_BYTES;
use queue::request::*;

// For this port, and its carrier is closed and not in access.
fn is_ready(base: &[u8; TOOL_BYTES], r: Request, port: u8) -> bool
    requires { Held (tool_from base.now) }
    ensures { result ≡ is_ready (state_of (tool_from base.now)) port r }
{
    r.port == port && may_leave(carrier_named(base, r.name))
}

// Where the oldest of the first n stands that is ready for a port; n where there is none.
pub fn ready_stands(m: &[[u8; TOOL_BYTES]; BLOCKS], n: usize, port: u8) -> usize
    requires held { Held (tool_from (get_or m.now 0 [])) }
    requires n_bound { n ≤ 16 }
    ensures { result ≡ where_is (is_ready (state_of (tool_from (get_or m.now 0 []))) port)
        (take n (queue_from (get_or m.now 1 []))) }
{
    position_of(&m[1], n, |r| is_ready(&m[0], r, port)).unwrap_or(n)
}
