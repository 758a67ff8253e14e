// A request, read off the second block: by where it begins, or by its position.
ghost use Rattle.std.specs.Prelude.{◌≡◌, ◌≤◌, ◌+◌, get_or};
ghost use Rattle.queue.specs.Requests.{no_request};
ghost use Rattle.line.specs.Bytes.{waiting_in, request_from, queue_from};

use crate::layout::*;
use image::layout::TOOL_BYTES;
use image::read::name_from;
use queue::request::*;
use records::name::Name;

// How many are queued.
pub fn waiting(m: &[u8; TOOL_BYTES]) -> u8
    ensures { result ≡ waiting_in m.now }
{
    m[WAITING_OFFSET]
}

pub fn no_request() -> Request
    ensures { result ≡ no_request }
{
    Request {
        name: Name::none(),
        port: 0,
        started: 0,
    }
}

fn request_from(m: &[u8; TOOL_BYTES], o: usize) -> Request
    requires { o + 18 ≤ 1891 }
    ensures { result ≡ request_from m.now o }
{
    Request {
        name: name_from(m, o),
        port: m[o + REQUEST_PORT_OFFSET],
        started: m[o + STARTED_OFFSET],
    }
}

#[tactic(auto, using(crate::proofs::Laid::request_is, crate::proofs::Laid::request_past))]
pub fn request_at(m: &[u8; TOOL_BYTES], k: usize) -> Request
    ensures { result ≡ get_or (queue_from m.now) k no_request }
{
    if k < QUEUE {
        request_from(m, QUEUE_START + REQUEST_BYTES * k)
    } else {
        no_request()
    }
}
