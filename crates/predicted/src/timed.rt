// The inputs that bring a clock: 31 Clock, 32 PredictedTime, 33 Estimate, 34 NoPrediction.
ghost use Rattle.std.specs.Prelude.{◌≡◌, true, [], ◌∷◌, eqb, ltb, get_or};
ghost use Rattle.records.specs.Refusals.{answer};
ghost use Rattle.rules.specs.Row.{when, unless, judge};
ghost use Rattle.rules.specs.Seen.{input_in};
ghost use Rattle.follow.specs.Follow.{KeptOutside};
ghost use Rattle.mapped.specs.Bytes.{own_in};
ghost use Rattle.prediction.specs.Model.{waiting_for_prediction};
ghost use Rattle.prediction.specs.Predictions.{no_prediction, has_tp};
ghost use Rattle.prediction.specs.Sound.{sound_tool};
ghost use Rattle.prediction.specs.State.{state_of, timed, timed_in, is_fixed};
ghost use Rattle.prediction.specs.Outcome.{is_timed, answer_in, given_in};
ghost use Rattle.times.specs.Bytes.{times_from, predictions_from};
ghost use Rattle.predicted.specs.Bytes.{predicted_in, left, base_in};
ghost use Rattle.predicted.specs.Asked.{timed_grounds};

use crate::moved::moved_along;
use follow::blocks::BLOCKS;
use image::layout::*;
use image::read::places;
use image::report::no_reports;
use model8::facts::says_of;
use prediction::input::Timed;
use prediction::prediction::*;
use records::refusal::{Refusal, unless, when};
use rules::input::Input;
use rules::row::Seen;
use sight::look::look;
use times::read::{prediction_at, times_at};
use times::words::*;
use times::write::put_clock;

// 32: a name with a record, in a fixed buffer tool; WAITING FOR PREDICTION, and no Tp yet; a clock that doesn't run back.
fn tp_answer(x: Seen, fixed: bool, p: Prediction, back: bool) -> Result<(), Refusal>
    ensures { answer result ≡ judge (unless x.named 1 ∷ unless x.known 2 ∷ unless fixed 5
        ∷ unless (eqb p.state waiting_for_prediction) 5 ∷ when (has_tp p) 5 ∷ when back 11 ∷ []) }
{
    unless(x.named, Refusal::OutOfRange)?;
    unless(x.known, Refusal::NoRecord)?;
    unless(fixed, Refusal::Conditions)?;
    unless(p.state == WAITING_FOR_PREDICTION, Refusal::Conditions)?;
    when(p.known == 1, Refusal::Conditions)?;
    when(back, Refusal::ClockEarlier)
}

// 33: the same, with a Tp.
fn te_answer(x: Seen, fixed: bool, p: Prediction, back: bool) -> Result<(), Refusal>
    ensures { answer result ≡ judge (unless x.named 1 ∷ unless x.known 2 ∷ unless fixed 5
        ∷ unless (has_tp p) 5 ∷ when back 11 ∷ []) }
{
    unless(x.named, Refusal::OutOfRange)?;
    unless(x.known, Refusal::NoRecord)?;
    unless(fixed, Refusal::Conditions)?;
    unless(p.known == 1, Refusal::Conditions)?;
    when(back, Refusal::ClockEarlier)
}

// 34: the same, in WAITING FOR PREDICTION.
fn none_answer(x: Seen, fixed: bool, p: Prediction, back: bool) -> Result<(), Refusal>
    ensures { answer result ≡ judge (unless x.named 1 ∷ unless x.known 2 ∷ unless fixed 5
        ∷ unless (eqb p.state waiting_for_prediction) 5 ∷ when back 11 ∷ []) }
{
    unless(x.named, Refusal::OutOfRange)?;
    unless(x.known, Refusal::NoRecord)?;
    unless(fixed, Refusal::Conditions)?;
    unless(p.state == WAITING_FOR_PREDICTION, Refusal::Conditions)?;
    when(back, Refusal::ClockEarlier)
}

// By number.
#[tactic(auto, unfolding(crate::specs::Asked::timed_grounds))]
fn timed_answer(number: u32, x: Seen, fixed: bool, p: Prediction, back: bool) -> Result<(), Refusal>
    ensures { answer result ≡ judge (timed_grounds number x fixed p back) }
{
    match number {
        31 => when(back, Refusal::ClockEarlier),
        32 => tp_answer(x, fixed, p, back),
        33 => te_answer(x, fixed, p, back),
        _ => none_answer(x, fixed, p, back),
    }
}

// The answer to one of the four, by what is seen of its name.
fn seen_answer(
    m: &[[u8; TOOL_BYTES]; BLOCKS],
    number: u32,
    x: Seen,
    clock: u32,
) -> Result<(), Refusal>
    ensures { answer result ≡ judge (timed_grounds number x (is_fixed (base_in m.now))
        (get_or (predictions_from (own_in m.now)) x.stands no_prediction)
        (ltb clock (times_from (own_in m.now)).now)) }
{
    let t = times_at(&m[1]);
    let p = prediction_at(&m[1], x.stands);
    let fixed = places(&m[0]) == 0;
    timed_answer(number, x, fixed, p, clock < t.now)
}

// The answer alone: nothing is taken.
pub fn answer_alone(m: &[[u8; TOOL_BYTES]; BLOCKS], i: Input, clock: u32) -> Result<(), Refusal>
    requires m_value { sound_tool (predicted_in m.now) ≡ true }
    requires number_value { is_timed i.number ≡ true }
    ensures { answer result ≡ answer_in (state_of (predicted_in m.now)) (timed (input_in i.entry) clock 0) }
{
    let x = look(&m[0], i);
    seen_answer(m, i.number, x, clock)
}

// One of the four: the clock is taken, then what it says of the carrier that it names, and every carrier is judged.
pub fn timed_step(
    m: &mut [[u8; TOOL_BYTES]; BLOCKS],
    o: &mut [u8; REPORTS_BYTES],
    i: Timed,
) -> Result<(), Refusal>
    requires m_value { sound_tool (predicted_in m.old) ≡ true }
    requires number_value { is_timed i.input.number ≡ true }
    ensures result_after { left m.new o.new result ≡ given_in (predicted_in m.old)
        (timed_in i.entry) }
    ensures kept_outside { KeptOutside 0 1597 (own_in m.old) (own_in m.new) }
{
    let x = look(&m[0], i.input);
    let t = times_at(&m[1]);
    no_reports(o);
    seen_answer(m, i.input.number, x, i.clock)?;
    put_clock(&mut m[1], i.clock);
    let then = Times { now: i.clock, ..t };
    let k = if says_of(i.input.number) {
        x.stands
    } else {
        x.count
    };
    moved_along(m, o, i.input.number, then, i.time, k);
    Ok(())
}
