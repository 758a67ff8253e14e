// The head of a log: the mark, the version, P and B.
ghost use Rattle.std.specs.Prelude.{◌≡◌};
ghost use Rattle.logs.specs.Layout.{head, read_head};
ghost use Rattle.logs.specs.InPlace.{read_part, reading_of};

use records::refusal::Refusal;

// What is refused, and where.
#[derive(Clone, Copy)]
pub struct Stop {
    pub refusal: Refusal,
    pub at: usize,
}

// A byte from `least` to `greatest`.
fn part(log: &[u8], at: usize, least: u8, greatest: u8, refusal: Refusal) -> Result<(), Stop>
    ensures { result ≡ read_part log.now at least greatest refusal }
{
    if log.len() <= at {
        return Err(Stop {
            refusal: Refusal::LogCutShort,
            at,
        });
    }
    let byte = log[at];
    if least <= byte && byte <= greatest {
        Ok(())
    } else {
        Err(Stop { refusal, at })
    }
}

// C, M and T; the version, high byte first; P and B.
pub fn read_head(log: &[u8]) -> Result<(), Stop>
    ensures { reading_of result ≡ read_head head 0 log.now }
{
    part(log, 0, 0x43, 0x43, Refusal::MarkOrVersion)?;
    part(log, 1, 0x4D, 0x4D, Refusal::MarkOrVersion)?;
    part(log, 2, 0x54, 0x54, Refusal::MarkOrVersion)?;
    part(log, 3, 0, 0, Refusal::MarkOrVersion)?;
    part(log, 4, 1, 1, Refusal::MarkOrVersion)?;
    part(log, 5, 1, 4, Refusal::SetUp)?;
    part(log, 6, 0, 16, Refusal::SetUp)
}
