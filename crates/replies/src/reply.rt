// The text of S3F18 for an answer.
ghost use Rattle.replies.specs.Reply.{reply_text, answer_of, many_of, Wrote};

use crate::words::words;
use crate::writer::{accepted, refused};
use records::refusal::Refusal;

// How many bytes were written.
#[tactic(auto, using(crate::proofs::Short::words_short), unfolding(crate::specs::Reply::reply_to))]
pub fn reply(number: u32, room: &mut [u8]) -> Result<u32, Refusal>
    ensures { Wrote room.old (reply_text number) (answer_of result) room.new (many_of result) }
{
    if number == 0 {
        accepted(room)
    } else {
        refused(number, words(number), room)
    }
}
