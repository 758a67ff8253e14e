// An input as it was sent, with the wafers that it brings.
ghost use Rattle.std.specs.Prelude.{◌≡◌, []};
ghost use Rattle.rules.specs.Seen.{input_in};
ghost use Rattle.prediction.specs.State.{timed};
ghost use Rattle.wafers.specs.Outcome.{brought, brought_in, numbered};
ghost use Rattle.wafers.specs.Named.{called};

use prediction::input::Timed;
use rules::input::Input;
use ticks::seconds::{Sent, no_wafers};

// 35 looks at what is made of the wafers' times.
#[derive(Clone, Copy)]
pub struct Brought<'a> {
    pub timed: Timed<'a>,
    pub wafers: Sent,
}

impl<'a> Brought<'a> {
    // An input that brings no clock, no time and no wafers.
    pub fn alone(input: Input<'a>) -> Brought<'a>
        ensures { brought_in result ≡ brought (timed (input_in input.entry) 0 0) [] }
    {
        let timed = Timed {
            input,
            clock: 0,
            time: 0,
        };
        Brought {
            timed,
            wafers: no_wafers(),
        }
    }

    // The same with another name.
    pub fn called(self, name: &'a [u8]) -> Brought<'a>
        ensures { brought_in result ≡ called name.now (brought_in self.entry) }
    {
        let input = Input {
            name,
            ..self.timed.input
        };
        let timed = Timed {
            input,
            ..self.timed
        };
        Brought { timed, ..self }
    }

    // The same under another number.
    pub fn numbered(self, number: u32) -> Brought<'a>
        ensures { brought_in result ≡ numbered number (brought_in self.entry) }
    {
        let input = Input {
            number,
            ..self.timed.input
        };
        let timed = Timed {
            input,
            ..self.timed
        };
        Brought { timed, ..self }
    }
}
