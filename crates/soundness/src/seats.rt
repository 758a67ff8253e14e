// Where the carriers are: places, buffer places and ties.
ghost use Rattle.std.specs.Prelude.{◌≡◌, ◌≤◌, ◌<◌};
ghost use Rattle.passes.specs.Passes.{record_on};
ghost use Rattle.soundness.specs.Seats.{port_on, seat_fits, tie_fits, seats_fit};
ghost use Rattle.rules.specs.Sound.{open_agrees};

use image::layout::*;
use passes::bytes::{same, zeros};
use records::sizes::*;
use records::words::*;

// The record at position k: its place, spot, port and lid fit each other. `&` and `|` in the passes of this crate, so that no
// record is waited for.
fn seat(m: &[u8; TOOL_BYTES], k: usize, used: u8, places: u8) -> bool
    requires { k < 36 }
    ensures { result ≡ seat_fits used places (record_on m.now k) }
{
    let o = RECORDS_START + CARRIER_BYTES * k;
    let place = m[o + PLACE_OFFSET];
    let spot = m[o + SPOT_OFFSET];
    let port = m[o + PORT_OFFSET];
    let within = (((place == IN_BUFFER) & (spot != NO_SPOT))
        | ((place != IN_BUFFER) & (spot == NO_SPOT)))
        & (spot <= places);
    let tied = (place == EXPECTED)
        | (((place == IN_BUFFER) & (port == NO_PORT)) | ((place != IN_BUFFER) & (port != NO_PORT)));
    (place <= IN_BUFFER)
        & within
        & (port <= used)
        & tied
        & ((m[o + OPENED_OFFSET] != OPEN) | (place != EXPECTED))
}

// An open carrier at position k and the port at position p agree.
#[tactic(auto, unfolding(rules::specs::Sound::open_agrees))]
fn opens(m: &[u8; TOOL_BYTES], p: usize, k: usize) -> bool
    requires p_bound { p < 4 }
    requires k_bound { k < 36 }
    ensures { result ≡ open_agrees (port_on m.now p) (record_on m.now k) }
{
    let q = PORTS_START + PORT_BYTES * p;
    let o = RECORDS_START + CARRIER_BYTES * k;
    let place = m[o + PLACE_OFFSET];
    (m[o + OPENED_OFFSET] != OPEN)
        | (place == IN_BUFFER)
        | ((place == AT_PORT) & (m[q + MOVEMENT_OFFSET] == IDLE) & (m[q] == BLOCKED))
}

// The port at position p is tied to the carrier before position a, or where a is 0 to none, as `latest` counts in passes/specs.
#[tactic(auto, unfolding(crate::specs::Seats::tie_fits))]
fn tie(m: &[u8; TOOL_BYTES], p: usize, a: u8) -> bool
    requires p_bound { p < 4 }
    requires a_bound { a ≤ 36 }
    ensures { result ≡ tie_fits m.now p a }
{
    if a == 0 {
        zeros(m, PORTS_START + PORT_BYTES * p + TIE_OFFSET, NAME_BYTES)
    } else {
        let k = usize::from(a - 1);
        same(
            m,
            PORTS_START + PORT_BYTES * p + TIE_OFFSET,
            RECORDS_START + CARRIER_BYTES * k,
        ) & opens(m, p, k)
    }
}

// Each record leaves its position, from 1, in a table of spots and in one of ports: whether a spot or a port is another's is
// one look, and a port finds its carrier.
pub fn seats(m: &[u8; TOOL_BYTES], used: u8, places: u8, n: usize) -> bool
    requires { n ≤ 36 }
    ensures { result ≡ seats_fit m.now used places n }
{
    let mut spots = [0u8; 256];
    let mut ports = [0u8; 256];
    let mut fit = true;
    let mut apart = true;
    let mut alone = true;
    let mut expected = 0;
    for k in 0..n {
        let o = RECORDS_START + CARRIER_BYTES * k;
        let s = usize::from(m[o + SPOT_OFFSET]);
        let p = usize::from(m[o + PORT_OFFSET]);
        fit = seat(m, k, used, places) & fit;
        apart = ((s == 0) | (spots[s] == 0)) & apart;
        alone = ((p == 0) | (ports[p] == 0)) & alone;
        expected += usize::from(m[o + PLACE_OFFSET] == EXPECTED);
        spots[s] = (k + 1) as u8;
        ports[p] = (k + 1) as u8;
    }
    let low = tie(m, 0, ports[1]) & tie(m, 1, ports[2]);
    let high = tie(m, 2, ports[3]) & tie(m, 3, ports[4]);
    (fit & apart & alone & (expected <= EXPECTED_MOST)) & (low & high)
}
