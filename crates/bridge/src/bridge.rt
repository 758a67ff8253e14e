// The text of S3F17 to the whole tool: the reader's refusal, or the tool's answer.
ghost use Rattle.std.specs.Prelude.{◌≡◌};
ghost use Rattle.records.specs.Refusals.{answer};
ghost use Rattle.image.specs.Image.{reports_from};
ghost use Rattle.tool.specs.Whole.{whole_in};
ghost use Rattle.bridge.specs.Bridge.{bridged, items_in};

use door::door::door_step;
use follow::blocks::BLOCKS;
use image::layout::*;
use image::report::no_reports;
use records::refusal::Refusal;
use rules::input::Input;
use secs::request::request_in;
use wafers::input::Brought;

pub fn bridge_step(
    m: &mut [[u8; TOOL_BYTES]; BLOCKS],
    o: &mut [u8; REPORTS_BYTES],
    message: &[u8],
    items: &mut u32,
) -> Result<(), Refusal>
    ensures m_after { whole_in m.new ≡ (bridged (whole_in m.old) message.now).tool }
    ensures o_after { reports_from o.new ≡ (bridged (whole_in m.old) message.now).reports }
    ensures value { answer result ≡ (bridged (whole_in m.old) message.now).answer }
    ensures after { items.new ≡ items_in message.now }
{
    let asked = request_in(message);
    *items = asked.count as u32;
    match asked.said {
        Ok(request) => {
            let input: Input = request.input(message);
            door_step(m, o, Brought::alone(input))
        }
        Err(refusal) => {
            no_reports(o);
            Err(refusal)
        }
    }
}
