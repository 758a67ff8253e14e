// Whether times and predictions are sound, with document 01's tool.
// n counts what there is in a block, which C lends whole: it isn't the length of m.
ghost use Rattle.std.specs.Prelude.{◌≡◌, [], ◌≤◌, get_or, take, drop};
ghost use Rattle.lists.specs.Lists.{every};
ghost use Rattle.rules.specs.State.{record_at, state_of};
ghost use Rattle.rules.specs.Held.{Held};
ghost use Rattle.image.specs.Image.{tool_from};
ghost use Rattle.prediction.specs.Predictions.{no_prediction};
ghost use Rattle.prediction.specs.Sound.{times_in_range, time_or_none, in_range, is_ready, fits, is_none, each_fits};
ghost use Rattle.times.specs.Bytes.{times_from, predictions_from};
ghost use Rattle.times.specs.Tests.{sound_predictions};

use crate::layout::*;
use crate::read::{prediction_at, times_at};
use crate::words::*;
use follow::blocks::BLOCKS;
use image::layout::TOOL_BYTES;
use image::read::{count, places, port_at, record_at};
use passes::bytes::zeros;
use prediction::prediction::*;
use records::carrier::Carrier;
use records::words::*;

// The setting time and the timeout are at most a day. Any clock is sound.
#[tactic(auto, unfolding(prediction::specs::Sound::times_in_range))]
pub fn sound_times(m: &[u8; TOOL_BYTES]) -> bool
    ensures { result ≡ times_in_range (times_from m.now) }
{
    let t = times_at(m);
    t.setting <= SPAN_MOST && t.timeout <= SPAN_MOST
}

// The port of a carrier is READY TO UNLOAD.
#[tactic(auto, unfolding(prediction::specs::Sound::is_ready), using(rules::proofs::Holding::port_held))]
pub fn is_ready(base: &[u8; TOOL_BYTES], c: Carrier) -> bool
    requires { Held (tool_from base.now) }
    ensures { result ≡ is_ready (state_of (tool_from base.now)) c }
{
    c.place == AT_PORT && port_at(base, c.port).transfer == READY_TO_UNLOAD
}

// A time that is there, or 0.
fn time_or_none(there: u8, n: u32) -> bool
    ensures { result ≡ time_or_none there n }
{
    there <= 1 && (there == 1 || n == 0)
}

#[tactic(auto, unfolding(prediction::specs::Sound::in_range))]
fn in_range(p: Prediction) -> bool
    ensures { result ≡ in_range p }
{
    DISABLED <= p.state
        && p.state <= COMPLETED
        && time_or_none(p.known, p.tp)
        && time_or_none(p.estimated, p.te)
}

// In range; only a carrier at a port has left WAITING FOR CARRIER; none is PREDICTED or ABORTED with its port READY TO UNLOAD.
#[tactic(auto, unfolding(prediction::specs::Sound::fits, prediction::specs::Sound::left_at_port, prediction::specs::Sound::not_overdue))]
fn fits(base: &[u8; TOOL_BYTES], c: Carrier, p: Prediction) -> bool
    requires { Held (tool_from base.now) }
    ensures { result ≡ fits (state_of (tool_from base.now)) c p }
{
    let left = p.state == WAITING_FOR_CARRIER || c.place == AT_PORT;
    let overdue = (p.state == PREDICTED || p.state == ABORTED) && is_ready(base, c);
    in_range(p) && left && !overdue
}

// The prediction at k fits its record. One that waits for its carrier asks nothing of the record.
#[tactic(auto, using(crate::proofs::Fitting::waiting_fits))]
fn fits_at(m: &[[u8; TOOL_BYTES]; BLOCKS], k: usize) -> bool
    requires { Held (tool_from (get_or m.now 0 [])) }
    ensures { result ≡ fits (state_of (tool_from (get_or m.now 0 []))) (record_at (tool_from (get_or m.now 0 [])) k)
        (get_or (predictions_from (get_or m.now 1 [])) k no_prediction) }
{
    let p = prediction_at(&m[1], k);
    if p.state == WAITING_FOR_CARRIER {
        in_range(p)
    } else {
        fits(&m[0], record_at(&m[0], k), p)
    }
}

// Each of the first n fits, in a fixed buffer tool.
fn all_fit(m: &[[u8; TOOL_BYTES]; BLOCKS], n: usize) -> bool
    requires held { Held (tool_from (get_or m.now 0 [])) }
    requires m_value { (tool_from (get_or m.now 0 [])).places ≡ 0 }
    requires n_bound { n ≤ 36 }
    ensures { result ≡ each_fits (state_of (tool_from (get_or m.now 0 [])))
        (take n (tool_from (get_or m.now 0 [])).carriers) (take n (predictions_from (get_or m.now 1 []))) }
{
    (0..n).all(|k| fits_at(m, k))
}

// There is no prediction after the first n.
#[tactic(auto, using(crate::proofs::Zero::none_after_is))]
fn none_after(m: &[u8; TOOL_BYTES], n: usize) -> bool
    requires { n ≤ 36 }
    ensures { result ≡ every is_none (drop n (predictions_from m.now)) }
{
    zeros(
        m,
        PREDICTIONS_START + PREDICTION_BYTES * n,
        ALL_PREDICTIONS_BYTES - PREDICTION_BYTES * n,
    )
}

// Whether the predictions are sound, with document 01's tool, which is. A tool with a buffer has none.
#[tactic(auto, unfolding(crate::specs::Tests::sound_predictions))]
pub fn sound_predictions(m: &[[u8; TOOL_BYTES]; BLOCKS]) -> bool
    requires { Held (tool_from (get_or m.now 0 [])) }
    ensures { result ≡ sound_predictions (state_of (tool_from (get_or m.now 0 [])))
        (tool_from (get_or m.now 0 [])).count (predictions_from (get_or m.now 1 [])) }
{
    if places(&m[0]) == 0 {
        let n = usize::from(count(&m[0]));
        all_fit(m, n) && none_after(&m[1], n)
    } else {
        none_after(&m[1], 0)
    }
}
