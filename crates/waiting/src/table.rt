// Over a table of records by value. The table that the equipment lends is searched by `hm_waiting` of `hawsermole`.
ghost use Rattle.std.specs.Prelude.{◌≡◌, take};
ghost use Rattle.waiting.specs.Waiting.{found_in};

use crate::found::{Found, first_waiting, stopped_at};
use records::carrier::Carrier;
use records::sizes::*;

// The first that waits among the first `count` records of a table: of all 36, where the count is larger.
pub fn waiting_in(table: [Carrier; RECORDS], count: usize) -> Found
    ensures { result ≡ found_in (take count table) }
{
    let n = count.min(RECORDS);
    let first = first_waiting(&table[..n]);
    stopped_at(first.unwrap_or(n), n)
}
