// What is predicted of a carrier, and what its transitions ask.

// Its state of model 8, whether it has a predicted time Tp and an estimate Te (0, 1), and these; seconds, 0 where there is none.
// They stay beside their flags, as bytes that C lends: time_or_none in Sound tests them.
#[derive(Clone, Copy)]
pub struct Prediction {
    pub state: u8,
    pub known: u8,
    pub estimated: u8,
    pub tp: u32,
    pub te: u32,
}

// The clock that was accepted last, and what set-up took: setting time and timeout.
#[derive(Clone, Copy)]
pub struct Times {
    pub now: u32,
    pub setting: u32,
    pub timeout: u32,
}

// taken: the carrier comes into access, or is cancelled; unset: the setting time is 0; soon: Tp minus now is at most the setting
// time; late: the timeout isn't 0, and Te is at least Tp plus timeout; impossible: no prediction is; ready: its port is READY TO UNLOAD.
#[derive(Clone, Copy)]
pub struct Facts {
    pub taken: bool,
    pub unset: bool,
    pub soon: bool,
    pub late: bool,
    pub impossible: bool,
    pub ready: bool,
}
