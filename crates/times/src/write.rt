// Times and predictions, written in place; and the predictions follow the records.
ghost use Rattle.std.specs.Prelude.{◌≡◌, ◌≤◌, ◌<◌, set};
ghost use Rattle.follow.specs.Follow.{followed_in, KeptOutside};
ghost use Rattle.prediction.specs.Predictions.{no_prediction};
ghost use Rattle.times.specs.Bytes.{seconds_bytes, times_from, prediction_bytes, predictions_from};

use crate::layout::*;
use follow::table::follow;
use image::layout::TOOL_BYTES;
use image::write::put;
use prediction::prediction::*;

#[tactic(auto, unfolding(crate::specs::Bytes::seconds_bytes))]
fn seconds_bytes(n: u32) -> [u8; SECONDS_BYTES]
    ensures value { result ≡ seconds_bytes n }
    ensures n_bound { n < 4294967296 }
{
    n.to_le_bytes()
}

// The clock that an input brought.
pub fn put_clock(m: &mut [u8; TOOL_BYTES], clock: u32)
    ensures m_after { times_from m.new ≡ record {
      now = clock;
      setting = (times_from m.old).setting;
      timeout = (times_from m.old).timeout;
    } }
    ensures kept_outside { KeptOutside 1189 1193 m.old m.new }
{
    put(m, CLOCK_OFFSET, &seconds_bytes(clock));
}

// What set-up takes.
pub fn put_spans(m: &mut [u8; TOOL_BYTES], setting: u32, timeout: u32)
    ensures m_after { times_from m.new ≡ record { now = (times_from m.old).now; setting = setting; timeout = timeout } }
    ensures kept_outside { KeptOutside 1193 1201 m.old m.new }
{
    put(m, SETTING_OFFSET, &seconds_bytes(setting));
    put(m, TIMEOUT_OFFSET, &seconds_bytes(timeout));
}

fn prediction_bytes(p: Prediction) -> [u8; PREDICTION_BYTES]
    ensures value { result ≡ prediction_bytes p }
    ensures tp_bound { p.tp < 4294967296 }
    ensures te_bound { p.te < 4294967296 }
{
    let mut b = [0; PREDICTION_BYTES];
    b[STATE_OFFSET] = p.state;
    b[KNOWN_OFFSET] = p.known;
    b[ESTIMATED_OFFSET] = p.estimated;
    put(&mut b, TP_OFFSET, &seconds_bytes(p.tp));
    put(&mut b, TE_OFFSET, &seconds_bytes(p.te));
    b
}

pub fn put_prediction(m: &mut [u8; TOOL_BYTES], k: usize, p: Prediction)
    requires { k < 36 }
    ensures m_after { predictions_from m.new ≡ set (predictions_from m.old) k p }
    ensures kept_outside { KeptOutside 1201 1597 m.old m.new }
{
    put(
        m,
        PREDICTIONS_START + PREDICTION_BYTES * k,
        &prediction_bytes(p),
    );
}

// Of n records the one at goes is gone (n: none), and if one is made, first is predicted of it.
pub fn predictions_follow(
    m: &mut [u8; TOOL_BYTES],
    n: usize,
    goes: usize,
    made: bool,
    first: Prediction,
)
    requires { n ≤ 36 }
    ensures m_after { predictions_from m.new ≡ followed_in no_prediction n goes made first (predictions_from m.old) }
    ensures kept_outside { KeptOutside 1201 1597 m.old m.new }
{
    follow(
        m,
        PREDICTIONS_START,
        PREDICTION_BYTES,
        n,
        goes,
        made,
        &prediction_bytes(first),
    );
}
