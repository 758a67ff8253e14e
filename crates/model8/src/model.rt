// Model 8: a carrier passes its states, and each is reported.
ghost use Rattle.std.specs.Prelude.{◌≡◌, not, eqb};
ghost use Rattle.rules.specs.Reports.{report_if};
ghost use Rattle.image.specs.Image.{reports_from};
ghost use Rattle.parts.specs.Told.{note_all};
ghost use Rattle.prediction.specs.Model.{transitions, next, course, last_of};
ghost use Rattle.prediction.specs.Outcome.{told};

use image::layout::REPORTS_BYTES;
use parts::report::note_if;
use prediction::prediction::*;
use records::name::Name;
use records::words::NO_PORT;
use times::words::*;

pub const MODEL: u8 = 8;

// Where the first transition leads that applies: 23 to 29, in the table's order.
#[tactic(auto, unfolding(prediction::specs::Model::next))]
fn next(f: Facts, state: u8) -> u8
    ensures { result ≡ next (transitions f) state }
{
    let doomed = f.impossible || f.late;
    match state {
        WAITING_FOR_CARRIER if f.taken && !f.unset => WAITING_FOR_PREDICTION,
        WAITING_FOR_PREDICTION if f.soon && !doomed => PREDICTED,
        PREDICTED if f.ready => COMPLETED,
        WAITING_FOR_CARRIER if f.taken && f.unset => DISABLED,
        WAITING_FOR_PREDICTION if doomed => ABORTED,
        PREDICTED if f.late => ABORTED,
        ABORTED if f.ready => COMPLETED,
        _ => state,
    }
}

// One transition, if any applies, and its report.
fn passes(o: &mut [u8; REPORTS_BYTES], f: Facts, name: Name, state: u8) -> u8
    ensures value { result ≡ next (transitions f) state }
    ensures o_after { reports_from o.new ≡ note_all (reports_from o.old)
        (report_if (not (eqb (next (transitions f) state) state)) 8 0 name state (next (transitions f) state)) }
{
    let new = next(f, state);
    note_if(o, new != state, MODEL, NO_PORT, name, state, new);
    new
}

// All of them, each after the one before: three at most.
pub fn moves_along(o: &mut [u8; REPORTS_BYTES], f: Facts, name: Name, state: u8) -> u8
    ensures value { result ≡ last_of state (course f state) }
    ensures o_after { reports_from o.new ≡ note_all (reports_from o.old) (told name state (course f state)) }
{
    let one = passes(o, f, name, state);
    let two = passes(o, f, name, one);
    passes(o, f, name, two)
}
