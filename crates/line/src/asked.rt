// What rows ask of the queue of a block.
ghost use Rattle.std.specs.Prelude.{◌≡◌, position};
ghost use Rattle.lists.specs.Lists.{any};
ghost use Rattle.follow.specs.Follow.{KeptOutside};
ghost use Rattle.queue.specs.Requests.{waits_of, started_of, started_to, is_full, is_queued, started_stands, dropped};
ghost use Rattle.line.specs.Bytes.{queue_of, Holds};
ghost use Rattle.line.specs.Tests.{FirstAt};

use crate::change::remove;
use crate::find::position_of;
use crate::read::waiting;
use image::layout::TOOL_BYTES;
use queue::request::*;
use records::name::Name;

// Where the oldest request stands that passes a test.
fn stands<F: Fn(Request) -> bool>(m: &[u8; TOOL_BYTES], test: F) -> Option<usize>
    requires holds { Holds m.now (queue_of m.now) }
    requires callable { F.IsAlwaysCallable test }
    ensures { FirstAt (F.post test) (queue_of m.now) result }
{
    position_of(m, usize::from(waiting(m)), test)
}

// Where the request of a carrier stands that isn't started.
fn waits_at(m: &[u8; TOOL_BYTES], name: Name) -> Option<usize>
    requires { Holds m.now (queue_of m.now) }
    ensures { result ≡ position (waits_of name) (queue_of m.now) }
{
    stands(m, |r| r.name == name && r.started != 1)
}

// Where the request stands that is started to a port.
fn started_at(m: &[u8; TOOL_BYTES], port: u8) -> Option<usize>
    requires { Holds m.now (queue_of m.now) }
    ensures { result ≡ position (started_to port) (queue_of m.now) }
{
    stands(m, |r| r.port == port && r.started == 1)
}

pub fn is_full(m: &[u8; TOOL_BYTES]) -> bool
    requires { Holds m.now (queue_of m.now) }
    ensures { result ≡ is_full (queue_of m.now) }
{
    QUEUE <= usize::from(waiting(m))
}

pub fn is_queued(m: &[u8; TOOL_BYTES], name: Name) -> bool
    requires { Holds m.now (queue_of m.now) }
    ensures { result ≡ is_queued name (queue_of m.now) }
{
    stands(m, |r| r.name == name).is_some()
}

pub fn some_waits_of(m: &[u8; TOOL_BYTES], name: Name) -> bool
    requires { Holds m.now (queue_of m.now) }
    ensures { result ≡ any (waits_of name) (queue_of m.now) }
{
    waits_at(m, name).is_some()
}

pub fn some_started_of(m: &[u8; TOOL_BYTES], name: Name) -> bool
    requires { Holds m.now (queue_of m.now) }
    ensures { result ≡ any (started_of name) (queue_of m.now) }
{
    stands(m, |r| r.name == name && r.started == 1).is_some()
}

pub fn some_started_to(m: &[u8; TOOL_BYTES], port: u8) -> bool
    requires { Holds m.now (queue_of m.now) }
    ensures { result ≡ any (started_to port) (queue_of m.now) }
{
    started_at(m, port).is_some()
}

// The same; past the end where there is none.
pub fn started_stands(m: &[u8; TOOL_BYTES], port: u8) -> usize
    requires { Holds m.now (queue_of m.now) }
    ensures { result ≡ started_stands port (queue_of m.now) }
{
    started_at(m, port).unwrap_or(usize::from(waiting(m)))
}

// The request of a carrier is dropped, if it isn't started.
pub fn drop_of(m: &mut [u8; TOOL_BYTES], name: Name)
    requires { Holds m.old (queue_of m.old) }
    ensures holds { Holds m.new (dropped name (queue_of m.old)) }
    ensures kept_outside { KeptOutside 900 1189 m.old m.new }
{
    if let Some(k) = waits_at(m, name) {
        remove(m, k);
    }
}
