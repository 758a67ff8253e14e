// What a carrier's transitions ask, by what an input does to it.
ghost use Rattle.std.specs.Prelude.{◌≡◌, cond};
ghost use Rattle.prediction.specs.Predictions.{is_soon, estimate, is_late, as_it_is, on_access, on_cancel, on_judging, on_none};
ghost use Rattle.prediction.specs.Outcome.{is_timed, says_of, own_facts};

use crate::numbers::*;
use prediction::prediction::*;
use times::words::WAITING_FOR_CARRIER;

// Tp minus now is at most the setting time.
#[tactic(auto, unfolding(prediction::specs::Predictions::is_soon))]
fn is_soon(t: Times, p: Prediction) -> bool
    ensures { result ≡ is_soon t p }
{
    u64::from(p.tp) <= u64::from(t.now) + u64::from(t.setting)
}

// The estimate that was given, or else the current time.
fn estimate(t: Times, p: Prediction) -> u32
    ensures { result ≡ estimate t p }
{
    if p.estimated == 1 { p.te } else { t.now }
}

// The timeout isn't 0, and Te is at least Tp plus timeout.
#[tactic(auto, unfolding(prediction::specs::Predictions::is_late))]
fn is_late(t: Times, p: Prediction) -> bool
    ensures { result ≡ is_late t p }
{
    let te = u64::from(estimate(t, p));
    t.timeout != 0 && u64::from(p.tp) + u64::from(t.timeout) <= te
}

// Nothing but whether it is ready.
fn as_it_is(ready: bool) -> Facts
    ensures { result ≡ as_it_is ready }
{
    Facts {
        taken: false,
        unset: false,
        soon: false,
        late: false,
        impossible: false,
        ready,
    }
}

// It comes into access.
fn on_access(t: Times, ready: bool) -> Facts
    ensures { result ≡ on_access t ready }
{
    Facts {
        taken: true,
        unset: t.setting == 0,
        ..as_it_is(ready)
    }
}

// It is cancelled: from WAITING FOR CARRIER, Tp is now.
fn on_cancel(t: Times, p: Prediction, ready: bool) -> Facts
    ensures { result ≡ on_cancel t p ready }
{
    Facts {
        soon: p.state == WAITING_FOR_CARRIER,
        ..on_access(t, ready)
    }
}

// It is judged, if it has a Tp.
fn on_judging(t: Times, p: Prediction, ready: bool) -> Facts
    ensures { result ≡ on_judging t p ready }
{
    let known = p.known == 1;
    Facts {
        soon: known && is_soon(t, p),
        late: known && is_late(t, p),
        ..as_it_is(ready)
    }
}

// No prediction is possible.
fn on_none(ready: bool) -> Facts
    ensures { result ≡ on_none ready }
{
    Facts {
        impossible: true,
        ..as_it_is(ready)
    }
}

// Of the carrier that an input names.
#[tactic(auto, unfolding(prediction::specs::Outcome::own_facts))]
pub fn own_facts(number: u32, t: Times, p: Prediction, ready: bool) -> Facts
    ensures { result ≡ own_facts number t p ready }
{
    match number {
        CANCEL_CARRIER => on_cancel(t, p, ready),
        ACCESS_START => on_access(t, ready),
        NO_PREDICTION => on_none(ready),
        _ => as_it_is(ready),
    }
}

// Whether an input brings a clock.
pub fn is_timed(number: u32) -> bool
    ensures { result ≡ is_timed number }
{
    CLOCK <= number && number <= NO_PREDICTION
}

// Whether it says something of the carrier that it names.
#[tactic(auto, unfolding(prediction::specs::Outcome::says_of))]
pub fn says_of(number: u32) -> bool
    ensures { result ≡ says_of number }
{
    number == CANCEL_CARRIER
        || number == ACCESS_START
        || PREDICTED_TIME <= number && number <= NO_PREDICTION
}

// Of each carrier afterwards.
pub fn all_facts(timed: bool, t: Times, p: Prediction, ready: bool) -> Facts
    ensures { result ≡ cond timed (on_judging t p ready) (as_it_is ready) }
{
    if timed {
        on_judging(t, p, ready)
    } else {
        as_it_is(ready)
    }
}
