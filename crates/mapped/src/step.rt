// One input to a tool that is known to be sound.
ghost use Rattle.std.specs.Prelude.{◌≡◌, true};
ghost use Rattle.records.specs.Refusals.{answer};
ghost use Rattle.rules.specs.State.{record_at};
ghost use Rattle.rules.specs.Seen.{input_in};
ghost use Rattle.image.specs.Image.{tool_from, reports_from};
ghost use Rattle.follow.specs.Follow.{KeptOutside};
ghost use Rattle.maps.specs.Sound.{sound_tool};
ghost use Rattle.maps.specs.Outcome.{given_in};
ghost use Rattle.mapped.specs.Bytes.{mapped_in, own_in};

use crate::amended::{amended_answer, amended_effect, new_map};
use crate::kept::codes_at;
use crate::layout::*;
use follow::blocks::BLOCKS;
use follow::table::follow;
use image::layout::*;
use image::read::name_from;
use image::report::no_reports;
use machine::step::carry_out;
use records::name::Name;
use records::refusal::Refusal;
use records::sizes::{RECORDS, SLOTS};
use rules::input::Input;
use sight::look::look;

// The answer; for a layer around this one, the position of the record that went (the number of records: none), whether one
// was made, and the name of the one that went (no name: none), which can't be read off the bytes any more. These
// are told of a refused input too (`Given`), so they stand beside the answer.
#[derive(Clone, Copy)]
pub struct Moved<A = Result<(), Refusal>> {
    pub answer: A,
    pub goes: usize,
    pub made: bool,
    pub gone: Name,
}

// The name of the record at a position; no name where none stands.
pub fn name_at(m: &[u8; TOOL_BYTES], k: usize) -> Name
    ensures { result ≡ (record_at (tool_from m.now) k).name }
{
    if k < RECORDS {
        name_from(m, RECORDS_START + CARRIER_BYTES * k)
    } else {
        Name::none()
    }
}

pub fn step_sound(
    m: &mut [[u8; TOOL_BYTES]; BLOCKS],
    o: &mut [u8; REPORTS_BYTES],
    i: Input,
) -> Moved
    requires { sound_tool (mapped_in m.old) ≡ true }
    ensures m_after { mapped_in m.new ≡ (given_in (mapped_in m.old) (input_in i.entry)).tool }
    ensures o_after { reports_from o.new ≡ (given_in (mapped_in m.old) (input_in i.entry)).reports }
    ensures answer_value { answer result.answer ≡ (given_in (mapped_in m.old) (input_in i.entry)).answer }
    ensures goes_value { result.goes ≡ (given_in (mapped_in m.old) (input_in i.entry)).goes }
    ensures made_value { result.made ≡ (given_in (mapped_in m.old) (input_in i.entry)).made }
    ensures gone_value { result.gone ≡ (given_in (mapped_in m.old) (input_in i.entry)).gone }
    ensures kept_outside { KeptOutside 0 900 (own_in m.old) (own_in m.new) }
{
    let x = look(&m[0], i);
    let c = codes_at(&m[1], i.number, x.stands, x.map, i.codes);
    if let Err(refusal) = amended_answer(i.number, x, c) {
        no_reports(o);
        return Moved {
            answer: Err(refusal),
            goes: x.count,
            made: false,
            gone: Name::none(),
        };
    }
    let e = amended_effect(i.number, x, c);
    let new = new_map(i.number, x.map);
    let gone = name_at(&m[0], e.goes);
    carry_out(&mut m[0], o, e);
    follow(&mut m[1], MAPS_START, SLOTS, x.count, e.goes, e.made, &new);
    Moved {
        answer: Ok(()),
        goes: e.goes,
        made: e.made,
        gone,
    }
}
