// Why an input, a message or a log is refused, and the number that is answered.
ghost use Rattle.std.specs.Prelude.{◌≡◌, cond, Ok, Err};
ghost use Rattle.records.specs.Refusals.{number, answer};

// 1 to 8 are document 01's, in its order.
#[derive(Clone, Copy, PartialEq, Eq)]
pub enum Refusal {
    OutOfRange = 1,
    NoRecord = 2,
    NameTaken = 3,
    ReservedOrTied = 4,
    Conditions = 5,
    ExpectedFull = 6,
    NotVerified = 7,
    PlaceOrOpenerTaken = 8,
    // requests of CarrierOut
    QueueFull = 9,
    QueuedAlready = 10,
    // times
    ClockEarlier = 11,
    TimeOutOfRange = 12,
    // automatic transfer in MANUAL
    AutomaticInManual = 13,
    // the room lent for a reply
    RoomTooSmall = 14,
    // messages of the host bridge
    CutShort = 20,
    UnknownCode = 21,
    BadLength = 22,
    TooDeep = 23,
    TooManyItems = 24,
    BytesLeftOver = 25,
    ShapeOrAction = 26,
    // logs
    MarkOrVersion = 27,
    SetUp = 28,
    LogCutShort = 29,
}

impl Refusal {
    pub fn number(self) -> u8
        ensures { result ≡ number self }
    {
        self as u8
    }
}

// What is answered: 0 where nothing is refused.
pub fn answer(said: Result<(), Refusal>) -> u8
    ensures { result ≡ answer said }
{
    match said {
        Ok(()) => 0,
        Err(refusal) => refusal.number(),
    }
}

// A ground for refusal: a test, and what is answered when it holds.
pub fn when(holds: bool, refusal: Refusal) -> Result<(), Refusal>
    ensures { result ≡ cond holds (Err refusal) (Ok tt) }
{
    if holds { Err(refusal) } else { Ok(()) }
}

// And what is answered unless it does.
pub fn unless(holds: bool, refusal: Refusal) -> Result<(), Refusal>
    ensures { result ≡ cond holds (Ok tt) (Err refusal) }
{
    if holds { Ok(()) } else { Err(refusal) }
}
