// An input as it was sent, with its clock.
use rules::input::Input;

// 31 to 34 look at the clock, and 32 and 33 at the time beside it, Tp or Te.
#[derive(Clone, Copy)]
pub struct Timed<'a> {
    pub input: Input<'a>,
    pub clock: u32,
    pub time: u32,
}
