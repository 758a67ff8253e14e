// A prediction as an input writes it.
ghost use Rattle.std.specs.Prelude.{◌≡◌};
ghost use Rattle.prediction.specs.Predictions.{in_state, with_tp, with_te};
ghost use Rattle.prediction.specs.Outcome.{cancels, written};

use crate::numbers::*;
use prediction::prediction::*;
use times::words::WAITING_FOR_CARRIER;

pub fn in_state(state: u8, p: Prediction) -> Prediction
    ensures { result ≡ in_state state p }
{
    Prediction { state, ..p }
}

// Tp and Te: one line each, since no parameter can name a field.
fn with_tp(time: u32, p: Prediction) -> Prediction
    ensures { result ≡ with_tp time p }
{
    Prediction {
        known: 1,
        tp: time,
        ..p
    }
}

fn with_te(time: u32, p: Prediction) -> Prediction
    ensures { result ≡ with_te time p }
{
    Prediction {
        estimated: 1,
        te: time,
        ..p
    }
}

// Cancelled while it waits for its carrier, Tp is now, unless the setting time is 0.
fn cancels(t: Times, p: Prediction) -> Prediction
    ensures { result ≡ cancels t p }
{
    if p.state == WAITING_FOR_CARRIER && t.setting != 0 {
        with_tp(t.now, p)
    } else {
        p
    }
}

#[tactic(auto, unfolding(prediction::specs::Outcome::written))]
pub fn written(number: u32, t: Times, time: u32, p: Prediction) -> Prediction
    ensures { result ≡ written number t time p }
{
    match number {
        CANCEL_CARRIER => cancels(t, p),
        PREDICTED_TIME => with_tp(time, p),
        ESTIMATE => with_te(time, p),
        _ => p,
    }
}
