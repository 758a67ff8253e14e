// All that moves after an accepted input: the carrier that it names, and then each in record order.
ghost use Rattle.std.specs.Prelude.{◌≡◌, [], get_or};
ghost use Rattle.lists.specs.Lists.{fill};
ghost use Rattle.rules.specs.Held.{Held};
ghost use Rattle.image.specs.Image.{tool_from, reports_from};
ghost use Rattle.parts.specs.Told.{note_all};
ghost use Rattle.follow.specs.Follow.{KeptOutside};
ghost use Rattle.mapped.specs.Bytes.{own_in};
ghost use Rattle.prediction.specs.Predictions.{no_prediction};
ghost use Rattle.times.specs.Bytes.{predictions_from};
ghost use Rattle.predicted.specs.Bytes.{base_in, used_in, NoneAfter, all_after, told_after};

use crate::along::*;
use follow::blocks::BLOCKS;
use image::layout::*;
use model8::facts::is_timed;
use prediction::prediction::Times;

pub fn moved_along(
    m: &mut [[u8; TOOL_BYTES]; BLOCKS],
    o: &mut [u8; REPORTS_BYTES],
    number: u32,
    t: Times,
    time: u32,
    k: usize,
)
    requires held { Held (tool_from (get_or m.old 0 [])) }
    requires none_after { NoneAfter m.old }
    ensures m_unchanged { get_or m.new 0 [] ≡ get_or m.old 0 [] }
    ensures m_after { predictions_from (own_in m.new) ≡ fill 36 no_prediction
        (all_after number t time (base_in m.old) (used_in m.old) k) }
    ensures o_after { reports_from o.new ≡ note_all (reports_from o.old)
        (told_after number t time (base_in m.old) (used_in m.old) k) }
    ensures kept_outside { KeptOutside 1201 1597 (own_in m.old) (own_in m.new) }
{
    own_along(m, o, number, t, time, k);
    all_along(m, o, is_timed(number), t);
}
