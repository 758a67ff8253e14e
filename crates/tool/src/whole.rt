// Two blocks of bytes: document 01's tool, and what requests add to it.
ghost use Rattle.std.specs.Prelude.{◌≡◌};
ghost use Rattle.records.specs.Refusals.{answer};
ghost use Rattle.image.specs.Image.{reports_from};
ghost use Rattle.wafers.specs.Outcome.{brought_in};
ghost use Rattle.tool.specs.Whole.{whole_in, sound_whole, set_up, outcome};

use crate::layout::*;
use follow::blocks::BLOCKS;
use handled::sound::sound_alarms;
use handled::step::handled_step;
use image::layout::*;
use image::read::count;
use image::report::no_reports;
use line::sound::sound_queue;
use machine::setup::setup;
use mapped::kept::sound_maps;
use passes::bytes::zeros;
use records::refusal::Refusal;
use soundness::whole::sound;
use times::sound::{sound_predictions, sound_times};
use times::words::SPAN_MOST;
use times::write::put_spans;
use wafers::input::Brought;

// Whether all of it is sound: the one place where this is tested.
pub fn whole_sound(m: &[[u8; TOOL_BYTES]; BLOCKS]) -> bool
    ensures { result ≡ sound_whole (whole_in m.now) }
{
    if !sound(&m[0]) {
        return false;
    }
    let maps = sound_maps(&m[1], usize::from(count(&m[0])));
    let queue = sound_queue(m);
    let times = sound_times(&m[1]);
    let predictions = sound_predictions(m);
    let alarms = sound_alarms(m);
    maps & queue & times & predictions & alarms & zeros(&m[1], UNUSED_START, UNUSED_BYTES)
}

pub fn whole_setup(
    m: &mut [[u8; TOOL_BYTES]; BLOCKS],
    ports: u32,
    places: u32,
    setting: u32,
    timeout: u32,
) -> Result<(), Refusal>
    ensures m_after { whole_in m.new ≡ (set_up ports places setting timeout).tool }
    ensures value { answer result ≡ (set_up ports places setting timeout).answer }
{
    m[1] = [0; TOOL_BYTES];
    // no tool has 0 ports: so set-up is refused with it
    let timely = (setting <= SPAN_MOST) & (timeout <= SPAN_MOST);
    let asked = if timely { ports } else { 0 };
    setup(&mut m[0], asked, places)?;
    put_spans(&mut m[1], setting, timeout);
    Ok(())
}

// Any input to any tool: the answer, the tool that follows, and the reports.
pub fn whole_step(
    m: &mut [[u8; TOOL_BYTES]; BLOCKS],
    o: &mut [u8; REPORTS_BYTES],
    i: Brought,
) -> Result<(), Refusal>
    ensures m_after { whole_in m.new ≡ (outcome (whole_in m.old) (brought_in i.entry)).tool }
    ensures o_after { reports_from o.new ≡ (outcome (whole_in m.old) (brought_in i.entry)).reports }
    ensures value { answer result ≡ (outcome (whole_in m.old) (brought_in i.entry)).answer }
{
    if !whole_sound(m) {
        no_reports(o);
        return Err(Refusal::OutOfRange);
    }
    handled_step(m, o, i)
}
