// The queue, written in place: one is put, one goes, those go that aren't started.
ghost use Rattle.std.specs.Prelude.{◌≡◌, cond, ◌≤◌, ◌<◌, ◌-◌, length, get_or, set, take};
ghost use Rattle.lists.specs.Lists.{fill, shifted};
ghost use Rattle.follow.specs.Follow.{KeptOutside};
ghost use Rattle.queue.specs.Requests.{no_request, is_started, all_dropped};
ghost use Rattle.line.specs.Bytes.{waiting_in, request_bytes, queue_from};

use crate::layout::*;
use crate::read::request_at;
use follow::table::close_up;
use image::layout::TOOL_BYTES;
use image::write::put;
use queue::request::*;

fn request_bytes(r: Request) -> [u8; REQUEST_BYTES]
    ensures value { result ≡ request_bytes r }
    ensures bytes_len { length r.name.bytes ≡ 16 }
{
    let mut b = [0; REQUEST_BYTES];
    put(&mut b, 0, &r.name.bytes);
    b[REQUEST_PORT_OFFSET] = r.port;
    b[STARTED_OFFSET] = r.started;
    b
}

pub fn put_request(m: &mut [u8; TOOL_BYTES], k: usize, r: Request)
    requires { k < 16 }
    ensures m_after { queue_from m.new ≡ set (queue_from m.old) k r }
    ensures kept_outside { KeptOutside 901 1189 m.old m.new }
{
    put(m, QUEUE_START + REQUEST_BYTES * k, &request_bytes(r));
}

pub fn put_waiting(m: &mut [u8; TOOL_BYTES], n: u8)
    ensures m_after { waiting_in m.new ≡ n }
    ensures kept_outside { KeptOutside 900 901 m.old m.new }
{
    put(m, WAITING_OFFSET, &[n]);
}

// The request at k goes, and those after it move up.
pub fn take_out(m: &mut [u8; TOOL_BYTES], k: usize)
    requires { k < 16 }
    ensures m_after { queue_from m.new ≡ shifted no_request (queue_from m.old) k }
    ensures kept_outside { KeptOutside 901 1189 m.old m.new }
{
    close_up(m, QUEUE_START + REQUEST_BYTES * k, REQUEST_BYTES, QUEUE_END);
}

// Of n requests the one at k goes unless it is started; how many are left.
fn drop_at(m: &mut [u8; TOOL_BYTES], k: usize, n: usize) -> usize
    requires k_bound { k < 16 }
    requires le_n { 1 ≤ n }
    ensures m_after { queue_from m.new ≡ cond (is_started (get_or (queue_from m.old) k no_request))
        (queue_from m.old) (shifted no_request (queue_from m.old) k) }
    ensures value { result ≡ cond (is_started (get_or (queue_from m.old) k no_request)) n (n - 1) }
    ensures kept_outside { KeptOutside 901 1189 m.old m.new }
{
    if request_at(m, k).started == 1 {
        n
    } else {
        take_out(m, k);
        n - 1
    }
}

// Of n requests those go that aren't started, the last first; how many are left.
pub fn drop_all(m: &mut [u8; TOOL_BYTES], n: usize) -> usize
    requires n_bound { n ≤ 16 }
    requires m_value { queue_from m.old ≡ fill 16 no_request (take n (queue_from m.old)) }
    ensures m_after { queue_from m.new ≡ fill 16 no_request (all_dropped (take n (queue_from m.old))) }
    ensures value { result ≡ length (all_dropped (take n (queue_from m.old))) }
    ensures kept_outside { KeptOutside 901 1189 m.old m.new }
{
    let mut left = n;
    for k in (0..n).rev() {
        left = drop_at(m, k, left);
    }
    left
}
