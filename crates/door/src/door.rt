// An input from outside: its name is shortened, and the whole tool answers.
ghost use Rattle.std.specs.Prelude.{◌≡◌};
ghost use Rattle.records.specs.Refusals.{answer};
ghost use Rattle.image.specs.Image.{reports_from};
ghost use Rattle.wafers.specs.Outcome.{brought_in};
ghost use Rattle.tool.specs.Whole.{whole_in};
ghost use Rattle.door.specs.Door.{outcome};

use follow::blocks::BLOCKS;
use image::layout::*;
use names::check::shortened_length;
use records::refusal::Refusal;
use tool::whole::whole_step;
use wafers::input::Brought;

pub fn door_step(
    m: &mut [[u8; TOOL_BYTES]; BLOCKS],
    o: &mut [u8; REPORTS_BYTES],
    i: Brought,
) -> Result<(), Refusal>
    ensures m_after { whole_in m.new ≡ (outcome (whole_in m.old) (brought_in i.entry)).tool }
    ensures o_after { reports_from o.new ≡ (outcome (whole_in m.old) (brought_in i.entry)).reports }
    ensures value { answer result ≡ (outcome (whole_in m.old) (brought_in i.entry)).answer }
{
    let name = i.timed.input.name;
    let n = shortened_length(name);
    whole_step(m, o, i.called(&name[..n]))
}
