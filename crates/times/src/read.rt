// Times and a prediction, read off the second block.
ghost use Rattle.std.specs.Prelude.{◌≡◌, ◌≤◌, ◌+◌, get_or};
ghost use Rattle.prediction.specs.Predictions.{no_prediction};
ghost use Rattle.times.specs.Bytes.{seconds_from, times_from, prediction_from, predictions_from};

use crate::layout::*;
use image::layout::TOOL_BYTES;
use prediction::prediction::*;
use records::sizes::RECORDS;

#[tactic(auto, unfolding(crate::specs::Bytes::seconds_from))]
fn seconds_from(m: &[u8; TOOL_BYTES], o: usize) -> u32
    requires { o + 4 ≤ 1891 }
    ensures { result ≡ seconds_from m.now o }
{
    u32::from_le_bytes([m[o], m[o + 1], m[o + 2], m[o + 3]])
}

#[tactic(auto, unfolding(crate::specs::Bytes::times_from))]
pub fn times_at(m: &[u8; TOOL_BYTES]) -> Times
    ensures { result ≡ times_from m.now }
{
    Times {
        now: seconds_from(m, CLOCK_OFFSET),
        setting: seconds_from(m, SETTING_OFFSET),
        timeout: seconds_from(m, TIMEOUT_OFFSET),
    }
}

pub fn no_prediction() -> Prediction
    ensures { result ≡ no_prediction }
{
    Prediction {
        state: 0,
        known: 0,
        estimated: 0,
        tp: 0,
        te: 0,
    }
}

#[tactic(auto, unfolding(crate::specs::Bytes::prediction_from))]
fn prediction_from(m: &[u8; TOOL_BYTES], o: usize) -> Prediction
    requires { o + 11 ≤ 1891 }
    ensures { result ≡ prediction_from m.now o }
{
    Prediction {
        state: m[o],
        known: m[o + KNOWN_OFFSET],
        estimated: m[o + ESTIMATED_OFFSET],
        tp: seconds_from(m, o + TP_OFFSET),
        te: seconds_from(m, o + TE_OFFSET),
    }
}

// The prediction at a position; past the end there is none.
#[tactic(auto, using(crate::proofs::Laid::prediction_is, crate::proofs::Laid::prediction_out))]
pub fn prediction_at(m: &[u8; TOOL_BYTES], k: usize) -> Prediction
    ensures { result ≡ get_or (predictions_from m.now) k no_prediction }
{
    if k < RECORDS {
        prediction_from(m, PREDICTIONS_START + PREDICTION_BYTES * k)
    } else {
        no_prediction()
    }
}

// Its state alone: one byte, where a pass asks no more.
#[tactic(auto, unfolding(crate::specs::Bytes::prediction_from), using(crate::proofs::Laid::prediction_is, crate::proofs::Laid::prediction_out))]
pub fn state_at(m: &[u8; TOOL_BYTES], k: usize) -> u8
    ensures { result ≡ (get_or (predictions_from m.now) k no_prediction).state }
{
    if k < RECORDS {
        m[PREDICTIONS_START + PREDICTION_BYTES * k]
    } else {
        0
    }
}
