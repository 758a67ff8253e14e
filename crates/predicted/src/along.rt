// Predictions move along: that of the carrier which an input names, and then each in record order.
ghost use Rattle.std.specs.Prelude.{◌≡◌, ◌<◌, [], get_or, set};
ghost use Rattle.lists.specs.Lists.{fill};
ghost use Rattle.rules.specs.State.{record_of};
ghost use Rattle.rules.specs.Held.{Held};
ghost use Rattle.image.specs.Image.{tool_from, reports_from};
ghost use Rattle.parts.specs.Told.{note_all};
ghost use Rattle.follow.specs.Follow.{KeptOutside};
ghost use Rattle.mapped.specs.Bytes.{own_in};
ghost use Rattle.prediction.specs.Predictions.{no_prediction};
ghost use Rattle.prediction.specs.Outcome.{along, told, all_along, all_told};
ghost use Rattle.times.specs.Bytes.{predictions_from};
ghost use Rattle.predicted.specs.Bytes.{base_in, used_in, NoneAfter, facts_in, own_moved};

use follow::blocks::BLOCKS;
use image::layout::*;
use image::read::{count, record_at};
use model8::facts::*;
use model8::model::moves_along;
use model8::written::*;
use prediction::prediction::*;
use times::read::{prediction_at, state_at};
use times::sound::is_ready;
use times::words::*;
use times::write::put_prediction;

// The carrier at k, by what an input does to it; past the records there is none.
pub fn own_along(
    m: &mut [[u8; TOOL_BYTES]; BLOCKS],
    o: &mut [u8; REPORTS_BYTES],
    number: u32,
    t: Times,
    time: u32,
    k: usize,
)
    requires held { Held (tool_from (get_or m.old 0 [])) }
    requires none_after { NoneAfter m.old }
    ensures m_unchanged { get_or m.new 0 [] ≡ get_or m.old 0 [] }
    ensures m_after { predictions_from (own_in m.new) ≡ fill 36 no_prediction (set (used_in m.old) k
        (own_moved number t time (base_in m.old) (used_in m.old) k).prediction) }
    ensures o_after { reports_from o.new ≡ note_all (reports_from o.old)
        (told (record_of (base_in m.old) k).name (get_or (used_in m.old) k no_prediction).state
        (own_moved number t time (base_in m.old) (used_in m.old) k).passed) }
    ensures kept_outside { KeptOutside 1201 1597 (own_in m.old) (own_in m.new) }
{
    if k < usize::from(count(&m[0])) {
        let c = record_at(&m[0], k);
        let p = prediction_at(&m[1], k);
        let ready = is_ready(&m[0], c);
        let f = own_facts(number, t, p, ready);
        let w = written(number, t, time, p);
        let last = moves_along(o, f, c.name, w.state);
        put_prediction(&mut m[1], k, in_state(last, w));
    }
}

// The carrier at k, by itself. Nothing moves one that is in no state between WAITING FOR PREDICTION and ABORTED.
fn along_at(
    m: &mut [[u8; TOOL_BYTES]; BLOCKS],
    o: &mut [u8; REPORTS_BYTES],
    timed: bool,
    t: Times,
    k: usize,
)
    requires held { Held (tool_from (get_or m.old 0 [])) }
    requires k_bound { k < 36 }
    ensures m_unchanged { get_or m.new 0 [] ≡ get_or m.old 0 [] }
    ensures m_after { predictions_from (own_in m.new) ≡ set (predictions_from (own_in m.old)) k
        (along (facts_in timed t (base_in m.old) (record_of (base_in m.old) k)
        (get_or (predictions_from (own_in m.old)) k no_prediction))
        (get_or (predictions_from (own_in m.old)) k no_prediction)).prediction }
    ensures o_after { reports_from o.new ≡ note_all (reports_from o.old)
        (told (record_of (base_in m.old) k).name (get_or (predictions_from (own_in m.old)) k no_prediction).state
        (along (facts_in timed t (base_in m.old) (record_of (base_in m.old) k)
        (get_or (predictions_from (own_in m.old)) k no_prediction))
        (get_or (predictions_from (own_in m.old)) k no_prediction)).passed) }
    ensures kept_outside { KeptOutside 1201 1597 (own_in m.old) (own_in m.new) }
{
    let state = state_at(&m[1], k);
    if (WAITING_FOR_PREDICTION..=ABORTED).contains(&state) {
        let c = record_at(&m[0], k);
        let p = prediction_at(&m[1], k);
        let ready = is_ready(&m[0], c);
        let f = all_facts(timed, t, p, ready);
        let last = moves_along(o, f, c.name, p.state);
        put_prediction(&mut m[1], k, in_state(last, p));
    }
}

// Each carrier, in record order.
pub fn all_along(
    m: &mut [[u8; TOOL_BYTES]; BLOCKS],
    o: &mut [u8; REPORTS_BYTES],
    timed: bool,
    t: Times,
)
    requires held { Held (tool_from (get_or m.old 0 [])) }
    requires none_after { NoneAfter m.old }
    ensures m_unchanged { get_or m.new 0 [] ≡ get_or m.old 0 [] }
    ensures m_after { predictions_from (own_in m.new) ≡ fill 36 no_prediction
        (all_along (facts_in timed t (base_in m.old)) (base_in m.old).carriers (used_in m.old)) }
    ensures o_after { reports_from o.new ≡ note_all (reports_from o.old)
        (all_told (facts_in timed t (base_in m.old)) (base_in m.old).carriers (used_in m.old)) }
    ensures kept_outside { KeptOutside 1201 1597 (own_in m.old) (own_in m.new) }
{
    let n = usize::from(count(&m[0]));
    for k in 0..n {
        along_at(m, o, timed, t, k);
    }
}
