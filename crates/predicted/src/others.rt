// Any other input: below first, then the predictions follow the records, and move along.
ghost use Rattle.std.specs.Prelude.{◌≡◌, true, false, cond, not, ◌&&◌, [], ◌++◌, eqb, get_or, ◌≤◌, ◌-◌};
ghost use Rattle.rules.specs.State.{state_of, record_at};
ghost use Rattle.rules.specs.Held.{Held};
ghost use Rattle.rules.specs.Seen.{input_in, see};
ghost use Rattle.rules.specs.Reports.{report_if};
ghost use Rattle.image.specs.Image.{tool_from, reports_from};
ghost use Rattle.parts.specs.Told.{note_all};
ghost use Rattle.follow.specs.Follow.{followed_in, KeptOutside};
ghost use Rattle.mapped.specs.Bytes.{own_in};
ghost use Rattle.prediction.specs.Predictions.{no_prediction, new_prediction};
ghost use Rattle.prediction.specs.State.{timed_in};
ghost use Rattle.prediction.specs.Sound.{sound_tool};
ghost use Rattle.prediction.specs.Outcome.{is_timed, says_of, given_in};
ghost use Rattle.times.specs.Bytes.{predictions_from};
ghost use Rattle.predicted.specs.Bytes.{predicted_in, left};

use crate::moved::moved_along;
use follow::blocks::BLOCKS;
use image::layout::*;
use image::read::{count, places};
use mapped::step::{Moved, name_at};
use model8::facts::says_of;
use model8::model::MODEL;
use parts::report::note_if;
use prediction::input::Timed;
use prediction::prediction::*;
use queued::step::queued_step;
use records::name::Name;
use records::refusal::Refusal;
use records::words::NO_PORT;
use rules::input::Input;
use sight::look::look;
use times::read::{no_prediction, state_at, times_at};
use times::words::WAITING_FOR_CARRIER;
use times::write::predictions_follow;

// Where the carrier stands that an input says something of; the number of records: nobody.
fn spot(m: &[u8; TOOL_BYTES], i: Input) -> usize
    requires { Held (tool_from m.now) }
    ensures { result ≡ cond (says_of i.entry.number) (see (state_of (tool_from m.now)) (input_in i.entry)).stands
        (tool_from m.now).count }
{
    if says_of(i.number) {
        let x = look(m, i);
        x.stands
    } else {
        usize::from(count(m))
    }
}

// The name of the last record; no name where there is none.
fn last_name(m: &[u8; TOOL_BYTES]) -> Name
    ensures { result ≡ (record_at (tool_from m.now) ((tool_from m.now).count - 1)).name }
{
    name_at(m, usize::from(count(m)).saturating_sub(1))
}

// What is predicted of a record that is made.
fn first_prediction(fixed: bool) -> Prediction
    ensures { result ≡ cond fixed new_prediction no_prediction }
{
    if fixed {
        Prediction {
            state: WAITING_FOR_CARRIER,
            ..no_prediction()
        }
    } else {
        no_prediction()
    }
}

// Of n records one is gone, and one is made: each is reported, and the predictions follow.
fn records_follow(
    m: &mut [u8; TOOL_BYTES],
    o: &mut [u8; REPORTS_BYTES],
    n: usize,
    fixed: bool,
    r: Moved,
    name: Name,
)
    requires { n ≤ 36 }
    ensures m_after { predictions_from m.new
        ≡ followed_in no_prediction n r.goes r.made (cond fixed new_prediction no_prediction) (predictions_from m.old) }
    ensures o_after { reports_from o.new ≡ note_all (reports_from o.old)
        (report_if (not (eqb (get_or (predictions_from m.old) r.goes no_prediction).state 0)) 8 0 r.gone
        (get_or (predictions_from m.old) r.goes no_prediction).state 0
        ++ report_if (r.made && fixed) 8 0 name 0 2) }
    ensures kept_outside { KeptOutside 1201 1597 m.old m.new }
{
    let old = state_at(m, r.goes);
    note_if(o, old != 0, MODEL, NO_PORT, r.gone, old, 0);
    // by `&` the argument is one fact; `&&` reads no plainer
    note_if(
        o,
        r.made & fixed,
        MODEL,
        NO_PORT,
        name,
        0,
        WAITING_FOR_CARRIER,
    );
    predictions_follow(m, n, r.goes, r.made, first_prediction(fixed));
}

pub fn other_step(
    m: &mut [[u8; TOOL_BYTES]; BLOCKS],
    o: &mut [u8; REPORTS_BYTES],
    i: Timed,
) -> Result<(), Refusal>
    requires m_value { sound_tool (predicted_in m.old) ≡ true }
    requires number_value { is_timed i.input.number ≡ false }
    ensures result_after { left m.new o.new result ≡ given_in (predicted_in m.old)
        (timed_in i.entry) }
    ensures kept_outside { KeptOutside 0 1597 (own_in m.old) (own_in m.new) }
{
    let n = usize::from(count(&m[0]));
    let fixed = places(&m[0]) == 0;
    let t = times_at(&m[1]);
    let r = queued_step(m, o, i.input);
    r.answer?;
    let new = last_name(&m[0]);
    records_follow(&mut m[1], o, n, fixed, r, new);
    let k = spot(&m[0], i.input);
    moved_along(m, o, i.input.number, t, i.time, k);
    Ok(())
}
