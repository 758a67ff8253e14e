// A port or a carrier, read off the bytes: by where it begins, a port by its number, a record by its position.
ghost use Rattle.std.specs.Prelude.{◌≡◌, ◌≤◌, ◌+◌};
ghost use Rattle.rules.specs.State.{spot_of, port_at, record_at};
ghost use Rattle.image.specs.Image.{bytes_from, name_from, port_from, carrier_from, tool_from};

use crate::layout::*;
use records::carrier::Carrier;
use records::name::Name;
use records::port::Port;
use records::sizes::*;
use records::words::NO_PORT;

// How many ports, buffer places and records.
#[tactic(auto, unfolding(crate::specs::Image::tool_from))]
pub fn used(m: &[u8; TOOL_BYTES]) -> u8
    ensures { result ≡ (tool_from m.now).used }
{
    m[USED_OFFSET]
}

#[tactic(auto, unfolding(crate::specs::Image::tool_from))]
pub fn places(m: &[u8; TOOL_BYTES]) -> u8
    ensures { result ≡ (tool_from m.now).places }
{
    m[PLACES_OFFSET]
}

#[tactic(auto, unfolding(crate::specs::Image::tool_from))]
pub fn count(m: &[u8; TOOL_BYTES]) -> u8
    ensures { result ≡ (tool_from m.now).count }
{
    m[COUNT_OFFSET]
}

// N bytes from o on. Copied one by one: `copy_from_slice` needs memmove, which a board has not (tests/c/archive.sh).
pub fn bytes_from<const N: usize>(m: &[u8; TOOL_BYTES], o: usize) -> [u8; N]
    requires { o + N ≤ 1891 }
    ensures { result ≡ bytes_from m.now o N }
{
    let mut bytes = [0; N];
    for i in 0..N {
        bytes[i] = m[o + i];
    }
    bytes
}

pub fn name_from(m: &[u8; TOOL_BYTES], o: usize) -> Name
    requires { o + 16 ≤ 1891 }
    ensures { result ≡ name_from m.now o }
{
    Name {
        bytes: bytes_from(m, o),
    }
}

pub fn port_from(m: &[u8; TOOL_BYTES], o: usize) -> Port
    requires { o + 22 ≤ 1891 }
    ensures { result ≡ port_from m.now o }
{
    Port {
        transfer: m[o],
        access: m[o + ACCESS_OFFSET],
        reserved: m[o + RESERVED_OFFSET],
        tie: name_from(m, o + TIE_OFFSET),
        movement: m[o + MOVEMENT_OFFSET],
        pod: m[o + POD_OFFSET],
        tag: m[o + TAG_OFFSET],
    }
}

pub fn carrier_from(m: &[u8; TOOL_BYTES], o: usize) -> Carrier
    requires { o + 50 ≤ 1891 }
    ensures { result ≡ carrier_from m.now o }
{
    Carrier {
        name: name_from(m, o),
        place: m[o + PLACE_OFFSET],
        spot: m[o + SPOT_OFFSET],
        port: m[o + PORT_OFFSET],
        opened: m[o + OPENED_OFFSET],
        cancelled: m[o + CANCELLED_OFFSET],
        cameout: m[o + CAMEOUT_OFFSET],
        map: bytes_from(m, o + MAP_OFFSET),
        id: m[o + ID_OFFSET],
        slot: m[o + SLOT_OFFSET],
        accessing: m[o + ACCESSING_OFFSET],
    }
}

// Where port p stands; 0 stands nowhere, which `spot_of` of rules::specs::State says by a position past the last.
pub fn spot_of(p: u8) -> usize
    ensures { result ≡ spot_of p }
{
    if p == NO_PORT {
        PORTS
    } else {
        usize::from(p - 1)
    }
}

#[tactic(auto, using(crate::proofs::Laid::port_is, crate::proofs::Laid::port_out), unfolding(rules::specs::State::port_at))]
pub fn port_at(m: &[u8; TOOL_BYTES], p: u8) -> Port
    ensures { result ≡ port_at (tool_from m.now) p }
{
    let k = spot_of(p);
    if k < PORTS {
        port_from(m, PORTS_START + PORT_BYTES * k)
    } else {
        Port::none()
    }
}

// Past the end there is none: as `request_at` and `prediction_at` of other tables, which differ in place, length and type.
#[tactic(auto, using(crate::proofs::Laid::record_is, crate::proofs::Laid::record_out), unfolding(rules::specs::State::record_at))]
pub fn record_at(m: &[u8; TOOL_BYTES], k: usize) -> Carrier
    ensures { result ≡ record_at (tool_from m.now) k }
{
    if k < RECORDS {
        carrier_from(m, RECORDS_START + CARRIER_BYTES * k)
    } else {
        Carrier::none()
    }
}
