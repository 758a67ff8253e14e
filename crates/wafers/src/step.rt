// One input to a tool that is known to be sound: 35 is P7's input for Tp, once its wafers are found good.
ghost use Rattle.std.specs.Prelude.{◌≡◌, true, cond, Some, None};
ghost use Rattle.records.specs.Refusals.{answer, number};
ghost use Rattle.rules.specs.Row.{lower};
ghost use Rattle.follow.specs.Follow.{KeptOutside};
ghost use Rattle.mapped.specs.Bytes.{own_in};
ghost use Rattle.prediction.specs.Sound.{sound_tool};
ghost use Rattle.predicted.specs.Bytes.{predicted_in, left};
ghost use Rattle.wafers.specs.Outcome.{brought_in, numbered, tp_of, good, given_in};

use crate::input::Brought;
use follow::blocks::BLOCKS;
use image::layout::*;
use image::report::no_reports;
use predicted::step::predicted_step;
use predicted::timed::answer_alone;
use prediction::input::Timed;
use records::refusal::Refusal;
use rules::input::Input;

const PREDICTED_TIME: u32 = 32;

pub const WAFERS: u32 = 35;

// Tp is the clock plus the total. None where a time is odd, or Tp is past the clock's range.
fn tp_of(i: Brought) -> Option<u32>
    ensures { result ≡ cond (good (brought_in i.entry)) (Some (tp_of (brought_in i.entry))) None }
{
    if i.wafers.timely {
        i.timed.clock.checked_add(i.wafers.seconds)
    } else {
        None
    }
}

// 12 is the highest of the numbers that 35 answers.
fn or_untimely(said: Result<(), Refusal>) -> Refusal
    ensures { number result ≡ lower (answer said) 12 }
{
    let untimely = Refusal::TimeOutOfRange;
    match said {
        Ok(()) => untimely,
        Err(refusal) => {
            if refusal.number() < untimely.number() {
                refusal
            } else {
                untimely
            }
        }
    }
}

// 35: more than 25 wafers are refused first, any other float or a Tp past the clock's range last.
fn wafers_step(
    m: &mut [[u8; TOOL_BYTES]; BLOCKS],
    o: &mut [u8; REPORTS_BYTES],
    i: Brought,
) -> Result<(), Refusal>
    requires { sound_tool (predicted_in m.old) ≡ true }
    ensures result_after { left m.new o.new result ≡ given_in (predicted_in m.old) (numbered 35 (brought_in i.entry)) }
    ensures kept_outside { KeptOutside 0 1597 (own_in m.old) (own_in m.new) }
{
    if !i.wafers.fits {
        no_reports(o);
        return Err(Refusal::OutOfRange);
    }
    let clock = i.timed.clock;
    let input = Input {
        number: PREDICTED_TIME,
        port: 0,
        value: 0,
        name: i.timed.input.name,
        codes: &[],
    };
    match tp_of(i) {
        Some(time) => predicted_step(m, o, Timed { input, clock, time }),
        None => {
            no_reports(o);
            let said = answer_alone(m, input, clock);
            Err(or_untimely(said))
        }
    }
}

pub fn brought_step(
    m: &mut [[u8; TOOL_BYTES]; BLOCKS],
    o: &mut [u8; REPORTS_BYTES],
    i: Brought,
) -> Result<(), Refusal>
    requires { sound_tool (predicted_in m.old) ≡ true }
    ensures result_after { left m.new o.new result ≡ given_in (predicted_in m.old) (brought_in i.entry) }
    ensures kept_outside { KeptOutside 0 1597 (own_in m.old) (own_in m.new) }
{
    if i.timed.input.number == WAFERS {
        wafers_step(m, o, i)
    } else {
        predicted_step(m, o, i.timed)
    }
}
