// What is said of a log.
ghost use Rattle.std.specs.Prelude.{◌≡◌};
ghost use Rattle.judge.specs.Held.{number_of};

use records::refusal::Refusal;

#[derive(Clone, Copy)]
pub enum Said {
    Agrees,
    // an entry
    Disagrees,
    Refused(Refusal),
}

impl Said {
    // 0, 1, or the refusal's number: 27 to 29.
    pub fn number(self) -> u8
        ensures { result ≡ number_of self }
    {
        match self {
            Said::Agrees => 0,
            Said::Disagrees => 1,
            Said::Refused(refusal) => refusal.number(),
        }
    }
}

// How many entries agree before that; where the judging ended; the answer that document 01 gave last,
// a number, as C reads it and `gave` has it.
#[derive(Clone, Copy)]
pub struct Verdict {
    pub says: Said,
    pub entry: usize,
    pub at: usize,
    pub answer: u8,
}
