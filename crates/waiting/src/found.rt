// Who waits, and what a search answers.
ghost use Rattle.std.specs.Prelude.{◌≡◌, cond, ltb, position};
ghost use Rattle.waiting.specs.Waiting.{waits, stopped_at};

use records::carrier::Carrier;
use records::words::*;

// position: from 0, and the table's length where none waits; read: how many records were read to know.
#[repr(C)]
#[derive(Clone, Copy)]
pub struct Found {
    pub position: u64,
    pub read: u64,
}

// Whether a carrier waits for the host, by ID or by slot map.
#[tactic(auto, unfolding(crate::specs::Waiting::waits))]
pub fn waits_for_host(c: Carrier) -> bool
    ensures { result ≡ waits c }
{
    c.id == WAITING || c.slot == WAITING
}

// Where the first stands that waits.
pub fn first_waiting(table: &[Carrier]) -> Option<usize>
    ensures { result ≡ position waits table.now }
{
    for k in 0..table.len() {
        if waits_for_host(table[k]) {
            return Some(k);
        }
    }
    None
}

// What a search says that stopped at a position of a table of n records, or at its end.
#[tactic(auto, unfolding(crate::specs::Waiting::stopped_at))]
pub fn stopped_at(at: usize, n: usize) -> Found
    ensures { result ≡ stopped_at at n }
{
    let read = if at < n { at + 1 } else { n };
    Found {
        position: at as u64,
        read: read as u64,
    }
}

// 1 where the search stopped before the end, else 0.
pub fn before_end(at: usize, n: usize) -> u32
    ensures { result ≡ cond (ltb at n) 1 0 }
{
    u32::from(at < n)
}
