// Whether the queue is sound, with document 01's tool.
// n counts what there is in a block, which C lends whole: it isn't the length of m.
ghost use Rattle.std.specs.Prelude.{◌≡◌, ◌≤◌, ◌+◌, [], get_or, take, drop};
ghost use Rattle.lists.specs.Lists.{every, every_two};
ghost use Rattle.rules.specs.State.{state_of};
ghost use Rattle.rules.specs.Held.{Held};
ghost use Rattle.rules.specs.Seen.{name_stands};
ghost use Rattle.image.specs.Image.{tool_from};
ghost use Rattle.queue.specs.Requests.{no_request, carrier_of, may_leave};
ghost use Rattle.queue.specs.Sound.{kept_free, zero_request};
ghost use Rattle.line.specs.Bytes.{waiting_in, queue_from};
ghost use Rattle.line.specs.Tests.{fits_in, apart, sound_line};

use crate::layout::*;
use crate::read::{request_at, waiting};
use follow::blocks::BLOCKS;
use image::layout::*;
use image::read::{count, name_from, port_at, record_at, used};
use passes::bytes::zeros;
use queue::request::*;
use records::carrier::Carrier;
use records::name::Name;
use records::port::Port;
use records::words::*;

// Where the record of a name stands; the number of records where there is none.
fn name_stands(m: &[u8; TOOL_BYTES], name: Name) -> usize
    requires { Held (tool_from m.now) }
    ensures { result ≡ name_stands (state_of (tool_from m.now)) name }
{
    let n = usize::from(count(m));
    (0..n)
        .position(|k| name_from(m, RECORDS_START + CARRIER_BYTES * k) == name)
        .unwrap_or(n)
}

// The record of a name, or no carrier.
#[tactic(auto, unfolding(queue::specs::Requests::carrier_of), using(rules::proofs::Holding::record_held))]
pub fn carrier_named(m: &[u8; TOOL_BYTES], name: Name) -> Carrier
    requires { Held (tool_from m.now) }
    ensures { result ≡ carrier_of (state_of (tool_from m.now)) name }
{
    record_at(m, name_stands(m, name))
}

// Closed and not in access.
#[tactic(auto, unfolding(queue::specs::Requests::may_leave))]
pub fn may_leave(c: Carrier) -> bool
    ensures { result ≡ may_leave c }
{
    c.opened != OPEN && c.accessing != IN_ACCESS
}

// Untied, reserved and READY TO LOAD.
#[tactic(auto, unfolding(queue::specs::Sound::kept_free), using(records::proofs::Names::equal_names))]
fn kept_free(q: Port) -> bool
    ensures { result ≡ kept_free q }
{
    q.tie == Name::none() && q.reserved == RESERVED && q.transfer == READY_TO_LOAD
}

// A request by itself: its fields are in range, its carrier is in the buffer; started, the carrier is closed and not in access, and the
// port kept free.
#[tactic(auto, unfolding(crate::specs::Tests::fits_in, queue::specs::Sound::request_in_range, queue::specs::Sound::carrier_stored, queue::specs::Sound::carrier_shut, queue::specs::Sound::port_kept), using(rules::proofs::Holding::used_held, rules::proofs::Holding::port_held))]
fn fits(m: &[u8; TOOL_BYTES], r: Request) -> bool
    requires { Held (tool_from m.now) }
    ensures { result ≡ fits_in (state_of (tool_from m.now)) r }
{
    let c = carrier_named(m, r.name);
    let range = 1 <= r.port && r.port <= used(m) && r.started <= 1;
    let leaves = r.started != 1 || may_leave(c) && kept_free(port_at(m, r.port));
    range && c.place == IN_BUFFER && leaves
}

// Two requests: another carrier, and not both started to one port.
#[tactic(auto, unfolding(crate::specs::Tests::apart, queue::specs::Sound::other_carrier, queue::specs::Sound::alone_there), using(records::proofs::Names::equal_names))]
fn other(a: Request, b: Request) -> bool
    ensures { result ≡ apart a b }
{
    let both_started = a.started == 1 && b.started == 1;
    a.name != b.name && !(both_started && a.port == b.port)
}

// Each of the first n.
fn all_fit(m: &[[u8; TOOL_BYTES]; BLOCKS], n: usize) -> bool
    requires held { Held (tool_from (get_or m.now 0 [])) }
    requires n_bound { n ≤ 16 }
    ensures { result ≡ every (fits_in (state_of (tool_from (get_or m.now 0 []))))
        (take n (queue_from (get_or m.now 1 []))) }
{
    (0..n).all(|k| fits(&m[0], request_at(&m[1], k)))
}

// The request at k, with each of the first n after it.
fn apart_after(own: &[u8; TOOL_BYTES], k: usize, n: usize) -> bool
    requires k_bound { k + 1 ≤ n }
    requires n_bound { n ≤ 16 }
    ensures { result ≡ every (apart (get_or (queue_from own.now) k no_request))
        (drop (k + 1) (take n (queue_from own.now))) }
{
    let a = request_at(own, k);
    (k + 1..n).all(|j| other(a, request_at(own, j)))
}

// Every two of the first n.
fn all_apart(own: &[u8; TOOL_BYTES], n: usize) -> bool
    requires { n ≤ 16 }
    ensures { result ≡ every_two apart (take n (queue_from own.now)) }
{
    (0..n).all(|k| apart_after(own, k, n))
}

// There is no request after the first n.
#[tactic(auto, using(crate::proofs::Zero::none_after_is))]
fn none_after(own: &[u8; TOOL_BYTES], n: usize) -> bool
    requires { n ≤ 16 }
    ensures { result ≡ every zero_request (drop n (queue_from own.now)) }
{
    zeros(
        own,
        QUEUE_START + REQUEST_BYTES * n,
        REQUEST_BYTES * (QUEUE - n),
    )
}

// Whether the queue is sound, with document 01's tool, which is.
#[tactic(auto, unfolding(crate::specs::Tests::sound_line))]
pub fn sound_queue(m: &[[u8; TOOL_BYTES]; BLOCKS]) -> bool
    requires { Held (tool_from (get_or m.now 0 [])) }
    ensures { result ≡ sound_line (state_of (tool_from (get_or m.now 0 []))) (waiting_in (get_or m.now 1 []))
        (queue_from (get_or m.now 1 [])) }
{
    let n = usize::from(waiting(&m[1]));
    n <= QUEUE && none_after(&m[1], n) && all_fit(m, n) && all_apart(&m[1], n)
}
