// The whole tool.
// n counts what there is in a block, which C lends whole: it isn't the length of m.
ghost use Rattle.std.specs.Prelude.{◌≡◌, ◌≤◌, ◌<◌};
ghost use Rattle.lists.specs.Lists.{every};
ghost use Rattle.rules.specs.Sound.{sound_tool};
ghost use Rattle.image.specs.Image.{table, tool_from};
ghost use Rattle.soundness.specs.Seats.{port_on, port_fits};

use crate::seats::seats;
use image::layout::*;
use image::read::{count, places, used};
use passes::bytes::zeros;
use passes::lanes::{fields, named};
use passes::names::differ;
use records::words::*;

// The port at position k, but for its tie: that is looked at with the carriers.
#[tactic(auto, unfolding(crate::specs::Seats::port_fits, rules::specs::Sound::port_agrees))]
fn port(m: &[u8; TOOL_BYTES], k: usize) -> bool
    requires { k < 4 }
    ensures { result ≡ port_fits (port_on m.now k) }
{
    let o = PORTS_START + PORT_BYTES * k;
    let transfer = m[o];
    let movement = m[o + MOVEMENT_OFFSET];
    let pod = m[o + POD_OFFSET];
    let fits = (transfer <= BLOCKED)
        & (m[o + ACCESS_OFFSET] <= AUTO)
        & (m[o + RESERVED_OFFSET] <= RESERVED)
        & (movement <= UNLOADING)
        & (pod <= POD_PRESENT)
        & (m[o + TAG_OFFSET] <= TAG_FAILED);
    fits & (((movement == IDLE) | (transfer == BLOCKED))
        & (!((transfer <= READY_TO_LOAD) | (movement == LOADING)) | (pod != POD_PRESENT)))
}

// The first n ports.
fn ports(m: &[u8; TOOL_BYTES], n: usize) -> bool
    requires { n ≤ 4 }
    ensures { result ≡ every port_fits (table n (port_on m.now)) }
{
    let mut ok = true;
    for k in 0..n {
        ok = port(m, k) & ok;
    }
    ok
}

// Whether the bytes hold a sound tool. Every pass is made, also after one that fails: nearly every tool is sound.
pub fn sound(m: &[u8; TOOL_BYTES]) -> bool
    ensures { result ≡ sound_tool (tool_from m.now) }
{
    let used = used(m);
    let places = places(m);
    let count = count(m);
    if 1 <= used && used <= USED_MOST && places <= PLACES_MOST && count <= COUNT_MOST {
        let p = usize::from(used);
        let n = usize::from(count);
        let unused = zeros(
            m,
            PORTS_START + PORT_BYTES * p,
            ALL_PORTS_BYTES - PORT_BYTES * p,
        ) & zeros(
            m,
            RECORDS_START + CARRIER_BYTES * n,
            ALL_RECORDS_BYTES - CARRIER_BYTES * n,
        );
        unused & ports(m, p) & fields(m, n) & named(m, n) & seats(m, used, places, n) & differ(m, n)
    } else {
        false
    }
}
