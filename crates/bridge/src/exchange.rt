// The text of S3F17 to the whole tool, and the text of S3F18 into room that the caller lends.
ghost use Rattle.std.specs.Prelude.{◌≡◌};
ghost use Rattle.records.specs.Refusals.{answer};
ghost use Rattle.image.specs.Image.{reports_from};
ghost use Rattle.replies.specs.Reply.{room_after, written_in};
ghost use Rattle.tool.specs.Whole.{whole_in};
ghost use Rattle.bridge.specs.Bridge.{items_in};
ghost use Rattle.bridge.specs.Exchange.{exchanged, replied};

use crate::bridge::bridge_step;
use follow::blocks::BLOCKS;
use image::layout::*;
use image::report::no_reports;
use records::refusal::{Refusal, answer};
use replies::reply::reply;
use replies::writer::*;
use secs::request::request_in;

// The shortest reply, which is an accepted input's: in less room no input is taken. A refusal that doesn't fit leaves the tool
// as it was anyway.
pub fn exchange(
    m: &mut [[u8; TOOL_BYTES]; BLOCKS],
    o: &mut [u8; REPORTS_BYTES],
    message: &[u8],
    items: &mut u32,
    room: &mut [u8],
    told: &mut u32,
) -> Result<(), Refusal>
    ensures m_after { whole_in m.new ≡ (exchanged (whole_in m.old) message.now room.old).tool }
    ensures o_after { reports_from o.new
        ≡ (exchanged (whole_in m.old) message.now room.old).reports }
    ensures value { answer result ≡ (exchanged (whole_in m.old) message.now room.old).answer }
    ensures after { items.new ≡ items_in message.now }
    ensures room_after { room.new ≡ room_after room.old (replied (whole_in m.old) message.now) }
    ensures told_after { told.new ≡ written_in room.old (replied (whole_in m.old) message.now) }
{
    if room.len() < ACCEPTED_BYTES {
        *items = request_in(message).count as u32;
        *told = 0;
        no_reports(o);
        return Err(Refusal::RoomTooSmall);
    }
    let said = bridge_step(m, o, message, items);
    match reply(u32::from(answer(said)), room) {
        Ok(many) => {
            *told = many;
            said
        }
        Err(refusal) => {
            *told = 0;
            Err(refusal)
        }
    }
}
