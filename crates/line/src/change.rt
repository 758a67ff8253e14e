// The queue of a block changes: one is added, one is started, one goes, those go that aren't started.
ghost use Rattle.std.specs.Prelude.{◌≡◌, ◌<◌, length};
ghost use Rattle.lists.specs.Lists.{without};
ghost use Rattle.follow.specs.Follow.{KeptOutside};
ghost use Rattle.queue.specs.Requests.{added, started, all_dropped};
ghost use Rattle.line.specs.Bytes.{queue_of, Holds};

use crate::read::{request_at, waiting};
use crate::write::{drop_all, put_request, put_waiting, take_out};
use image::layout::TOOL_BYTES;
use queue::request::*;
use records::name::Name;

// A request is put last.
pub fn add(m: &mut [u8; TOOL_BYTES], name: Name, port: u8)
    requires holds { Holds m.old (queue_of m.old) }
    requires m_len_bound { length (queue_of m.old) < 16 }
    ensures holds_2 { Holds m.new (added name port (queue_of m.old)) }
    ensures kept_outside { KeptOutside 900 1189 m.old m.new }
{
    let n = waiting(m);
    let last = Request {
        name,
        port,
        started: 0,
    };
    put_request(m, usize::from(n), last);
    put_waiting(m, n + 1);
}

// The request at k is started.
pub fn begin(m: &mut [u8; TOOL_BYTES], k: usize)
    requires holds { Holds m.old (queue_of m.old) }
    requires k_in_bounds { k < length (queue_of m.old) }
    ensures holds_2 { Holds m.new (started k (queue_of m.old)) }
    ensures kept_outside { KeptOutside 900 1189 m.old m.new }
{
    let mut r = request_at(m, k);
    r.started = 1;
    put_request(m, k, r);
}

// The request at k goes; past the end, none does.
pub fn remove(m: &mut [u8; TOOL_BYTES], k: usize)
    requires { Holds m.old (queue_of m.old) }
    ensures holds { Holds m.new (without k (queue_of m.old)) }
    ensures kept_outside { KeptOutside 900 1189 m.old m.new }
{
    let n = waiting(m);
    if k < usize::from(n) {
        take_out(m, k);
        put_waiting(m, n - 1);
    }
}

// Those go that aren't started.
pub fn drop_waiting(m: &mut [u8; TOOL_BYTES])
    requires { Holds m.old (queue_of m.old) }
    ensures holds { Holds m.new (all_dropped (queue_of m.old)) }
    ensures kept_outside { KeptOutside 900 1189 m.old m.new }
{
    let n = waiting(m);
    let left = drop_all(m, usize::from(n));
    put_waiting(m, left as u8);
}
