// Rows 1, 3 and 20 as request P1 amends them.
ghost use Rattle.std.specs.Prelude.{◌≡◌, cond};
ghost use Rattle.records.specs.Refusals.{answer};
ghost use Rattle.rules.specs.Row.{judge};
ghost use Rattle.maps.specs.Expected.{no_map, carries};
ghost use Rattle.maps.specs.Rows.{slot_map, row_of};

use effects::ask::on_record;
use maps::codes::Codes;
use records::refusal::Refusal;
use records::sizes::SLOTS;
use records::words::*;
use rows::numbered::{answer_of, effect_of};
use rules::row::{Effect, Seen};

// Bind and CarrierNotification carry a map.
#[tactic(auto, unfolding(maps::specs::Expected::carries))]
fn carries(number: u32) -> bool
    ensures { result ≡ carries number }
{
    number == 1 || number == 3
}

pub fn amended_answer(number: u32, x: Seen, c: Codes) -> Result<(), Refusal>
    ensures { answer result ≡ judge (row_of number x c).grounds }
{
    // by `&`: with `&&`, which reads no plainer, the second answer has two ways to it in the proof
    if carries(number) & !c.fine {
        Err(Refusal::OutOfRange)
    } else {
        answer_of(number, x)
    }
}

// Slot status OK at once where the map equals the one kept, else the host is asked.
fn slot_map_effect(x: Seen, c: Codes) -> Effect
    ensures { result ≡ (slot_map x c).effect }
{
    let slot = if c.equal { OK } else { WAITING };
    on_record(x.count, x.stands, x.found.with_map(x.map, slot))
}

// By number, as C hands it: document 01's numbers are its rows' names.
pub fn amended_effect(number: u32, x: Seen, c: Codes) -> Effect
    ensures { result ≡ (row_of number x c).effect }
{
    if number == 20 {
        slot_map_effect(x, c)
    } else {
        effect_of(number, x)
    }
}

// The map that a new record keeps.
pub fn new_map(number: u32, map: [u8; SLOTS]) -> [u8; SLOTS]
    ensures { result ≡ cond (carries number) map no_map }
{
    if carries(number) { map } else { [0; SLOTS] }
}
