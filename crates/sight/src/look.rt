// What a row needs of the input and of the state, in one pass over the records.
ghost use Rattle.std.specs.Prelude.{◌≡◌, ◌≤◌, ◌+◌};
ghost use Rattle.rules.specs.State.{state_of};
ghost use Rattle.rules.specs.Held.{Held};
ghost use Rattle.rules.specs.Seen.{input_in, narrow, see};
ghost use Rattle.image.specs.Image.{tool_from};
ghost use Rattle.sight.specs.Pass.{gathered, found_in};

use image::layout::*;
use image::read::{carrier_from, count, places, port_at, record_at, used};
use records::carrier::Carrier;
use records::map::{in_map, is_map};
use records::name::{Name, in_bytes, is_name};
use records::sizes::EXPECTED_MOST;
use records::words::*;
use rules::input::Input;
use rules::row::Seen;

// What the records passed so far show: where the name's record stands and that of the carrier tied to the port, how many
// are expected, whether the buffer place is taken, whether some carrier is open.
#[derive(Clone, Copy)]
pub struct Passed {
    pub stands: usize,
    pub holds: usize,
    pub expected: usize,
    pub taken: bool,
    pub busy: bool,
}

// The records found at the end of the pass: the name's, and the one tied to the port.
#[derive(Clone, Copy)]
pub struct Found {
    pub passed: Passed,
    pub found: Carrier,
    pub held: Carrier,
}

// No port, place or value is as large as 255.
pub fn narrow(n: u32) -> u8
    ensures { result ≡ narrow n }
{
    u8::try_from(n).unwrap_or(255)
}

// One record more, at position k, before those passed.
#[tactic(auto, using(records::proofs::Names::equal_names))]
fn gather(p: Passed, c: Carrier, name: Name, port: u8, value: u8, k: usize) -> Passed
    requires { p.expected ≤ 36 }
    ensures { result ≡ gathered name port value k c p }
{
    // by `&` and `|`, since this runs for each record: no branch
    Passed {
        stands: if c.name == name { k } else { p.stands },
        holds: if (1 <= port) & (c.port == port) {
            k
        } else {
            p.holds
        },
        expected: usize::from(c.place == EXPECTED) + p.expected,
        taken: (c.place == IN_BUFFER) & (c.spot == value) | p.taken,
        busy: (c.opened == OPEN) | p.busy,
    }
}

// The one loop over the records, from the last on, so that the first of a name stands.
fn pass(m: &[u8; TOOL_BYTES], name: Name, port: u8, value: u8) -> Found
    requires { (tool_from m.now).count ≤ 36 }
    ensures { result ≡ found_in (tool_from m.now) name port value }
{
    let n = usize::from(count(m));
    let mut p = Passed {
        stands: n,
        holds: n,
        expected: 0,
        taken: false,
        busy: false,
    };
    for k in (0..n).rev() {
        let c = carrier_from(m, RECORDS_START + CARRIER_BYTES * k);
        p = gather(p, c, name, port, value, k);
    }
    Found {
        passed: p,
        found: record_at(m, p.stands),
        held: record_at(m, p.holds),
    }
}

pub fn look(m: &[u8; TOOL_BYTES], i: Input) -> Seen
    requires { Held (tool_from m.now) }
    ensures { result ≡ see (state_of (tool_from m.now)) (input_in i.entry) }
{
    let port = narrow(i.port);
    let value = narrow(i.value);
    let name = in_bytes(i.name);
    let Found {
        passed,
        found,
        held,
    } = pass(m, name, port, value);
    let count = usize::from(count(m));
    Seen {
        places: places(m),
        count,
        port,
        isport: (1..=used(m)).contains(&port),
        noport: port == NO_PORT,
        value,
        name,
        named: is_name(i.name),
        blank: i.name.is_empty(),
        map: in_map(i.codes),
        mapped: is_map(i.codes),
        here: port_at(m, port),
        stands: passed.stands,
        known: passed.stands < count,
        found,
        home: port_at(m, found.port),
        holds: passed.holds,
        tied: passed.holds < count,
        held,
        full: EXPECTED_MOST <= passed.expected,
        taken: passed.taken,
        busy: passed.busy,
    }
}
