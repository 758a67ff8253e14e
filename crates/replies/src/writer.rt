// The text of S3F18 for an answer, written into room that the caller lends: its length is known before a byte is written.
ghost use Rattle.std.specs.Prelude.{◌≡◌, ◌≤◌, length};
ghost use Rattle.replies.specs.Reply.{acknowledge, code_of, refused_with, text_of, reply_text, head_of, answer_of, many_of, Wrote};

use image::write::put;
use records::refusal::Refusal;

// The text for an accepted input, the shortest of all.
pub const ACCEPTED_BYTES: usize = 7;

#[tactic(auto, unfolding(crate::specs::Reply::acknowledge))]
fn ack_of(number: u32) -> u8
    ensures { result ≡ acknowledge number }
{
    match number {
        0 => 0,
        1 | 20..=26 => 3,
        _ => 5,
    }
}

#[tactic(auto, unfolding(crate::specs::Reply::code_of))]
fn code_of(number: u32) -> u16
    ensures { result ≡ code_of number }
{
    u16::try_from(number).unwrap_or(u16::MAX)
}

// All of a refusal's text but the words: list, acknowledge, list, pair, code, and the head of the words.
fn head_of(number: u32, many: u8) -> [u8; 15]
    ensures { result ≡ head_of number many }
{
    let ack = ack_of(number);
    let [high, low] = code_of(number).to_be_bytes();
    [
        1, 2, 0xA5, 1, ack, 1, 1, 1, 2, 0xA9, 2, high, low, 0x41, many,
    ]
}

pub fn accepted(room: &mut [u8]) -> Result<u32, Refusal>
    ensures { Wrote room.old (reply_text 0) (answer_of result) room.new (many_of result) }
{
    if room.len() < ACCEPTED_BYTES {
        return Err(Refusal::RoomTooSmall);
    }
    put(room, 0, b"\x01\x02\xA5\x01\x00\x01\x00");
    Ok(ACCEPTED_BYTES as u32)
}

pub fn refused(number: u32, words: &[u8], room: &mut [u8]) -> Result<u32, Refusal>
    requires { length words.now ≤ 80 }
    ensures { Wrote room.old (text_of (refused_with number words.now))
        (answer_of result) room.new (many_of result) }
{
    let n = words.len();
    if room.len() < 15 + n {
        return Err(Refusal::RoomTooSmall);
    }
    put(room, 0, &head_of(number, n as u8));
    put(room, 15, words);
    Ok((15 + n) as u32)
}
