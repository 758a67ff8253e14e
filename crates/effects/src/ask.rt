// What rows ask of what they see, and the kinds of effect.
ghost use Rattle.std.specs.Prelude.{◌≡◌};
ghost use Rattle.rules.specs.Row.{is_port_or_none, reserved_or_tied, other_port, placed, unknown_pod, found_or_new, on_port, on_port_and_gone, on_record, on_both};

use records::carrier::Carrier;
use records::port::Port;
use records::words::*;
use rules::row::{Effect, Seen};

// The port given is one of the tool's, or none is given.
pub fn is_port_or_none(x: Seen) -> bool
    ensures { result ≡ is_port_or_none x }
{
    x.isport || x.noport
}

pub fn reserved_or_tied(x: Seen) -> bool
    ensures { result ≡ reserved_or_tied x }
{
    x.here.reserved == RESERVED || x.tied
}

pub fn other_port(x: Seen, c: Carrier) -> bool
    ensures { result ≡ other_port x c }
{
    !x.noport && x.port != c.port
}

#[tactic(auto, unfolding(rules::specs::Row::placed))]
pub fn placed(x: Seen) -> bool
    ensures { result ≡ placed x }
{
    x.known && x.found.place != EXPECTED
}

#[tactic(auto, unfolding(rules::specs::Row::unknown_pod))]
pub fn unknown_pod(x: Seen) -> bool
    ensures { result ≡ unknown_pod x }
{
    let q = x.here;
    x.isport && q.pod == POD_PRESENT && q.movement == IDLE && q.tag == TAG_FAILED && !x.tied
}

#[tactic(auto, unfolding(rules::specs::Row::found_or_new))]
pub fn found_or_new(x: Seen) -> Carrier
    ensures { result ≡ found_or_new x }
{
    if x.known {
        x.found
    } else {
        Carrier::fresh(x.name, NO_PORT)
    }
}

// Only a port changes; n is the number of records.
pub fn on_port(n: usize, port: u8, becomes: Port) -> Effect
    ensures { result ≡ on_port n port becomes }
{
    on_both(n, port, becomes, n, Carrier::none())
}

// A port changes, and the record at a position goes.
pub fn on_port_and_gone(n: usize, port: u8, becomes: Port, goes: usize) -> Effect
    ensures { result ≡ on_port_and_gone n port becomes goes }
{
    Effect {
        goes,
        ..on_port(n, port, becomes)
    }
}

// Only the record at a position changes.
pub fn on_record(n: usize, changes: usize, next: Carrier) -> Effect
    ensures { result ≡ on_record n changes next }
{
    on_both(n, NO_PORT, Port::none(), changes, next)
}

// A port and the record at a position change.
pub fn on_both(n: usize, port: u8, becomes: Port, changes: usize, next: Carrier) -> Effect
    ensures { result ≡ on_both n port becomes changes next }
{
    Effect {
        port,
        becomes,
        goes: n,
        changes,
        next,
        made: false,
    }
}
