// What the process module sent, and the whole seconds that are enough for it.
ghost use Rattle.std.specs.Prelude.{◌≡◌, ◌≤◌, []};
ghost use Rattle.ticks.specs.Times.{Counts, ticks};
ghost use Rattle.ticks.specs.Wafers.{rounded_up, wafers_from};

use crate::sizes::*;
use crate::wafers::*;

// fits: whole wafers, and at most 25; timely: and each time is a whole multiple in range. Where either fails, no seconds.
// Flags with a number beside: the definitions by which a step goes read each of them (wafers' specs, Outcome.fits and Outcome.good).
#[derive(Clone, Copy)]
pub struct Sent {
    pub fits: bool,
    pub timely: bool,
    pub seconds: u32,
}

// A total that is a whole number of 1/1024ths, rounded up to a second.
fn rounded_up(t: f64) -> u32
    requires counts { Counts t (ticks t) }
    requires t_bound { ticks t ≤ 53687091200 }
    ensures { result ≡ rounded_up (ticks t) }
{
    let n = std::num::truncating_f64_to_u64(t * 1024.0);
    n.div_ceil(SECOND_TICKS) as u32
}

// The times of wafers as they were sent, process time and handling time in turn.
pub fn wafers_from(times: &[f64]) -> Sent
    ensures value { result ≡ wafers_from times.now }
    ensures seconds_bound { result.seconds ≤ 52428800 }
{
    let n = times.len() / WAFER_TIMES;
    let whole = times.len() % WAFER_TIMES == 0;
    let fits = whole & (n <= WAFERS);
    if fits {
        let ws = wafers_in(times, n);
        let good = all_timely(ws, n);
        if good {
            let t = total(ws, n);
            let s = rounded_up(t);
            Sent {
                fits: true,
                timely: true,
                seconds: s,
            }
        } else {
            Sent {
                fits: true,
                timely: false,
                seconds: 0,
            }
        }
    } else {
        Sent {
            fits: false,
            timely: false,
            seconds: 0,
        }
    }
}

// No wafers.
pub fn no_wafers() -> Sent
    ensures { result ≡ wafers_from [] }
{
    Sent {
        fits: true,
        timely: true,
        seconds: 0,
    }
}
