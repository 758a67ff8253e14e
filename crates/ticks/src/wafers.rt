// Up to 25 wafers by value, as document 01 asks for them: read off what was sent, tested, and their times added.
ghost use Rattle.std.specs.Prelude.{◌≡◌, ◌/◌, ◌≤◌, true, length, take};
ghost use Rattle.ticks.specs.Times.{Counts};
ghost use Rattle.ticks.specs.Wafers.{wafers_in, all_timely, total_of, f64_total};

use crate::sizes::*;
use crate::time::is_timely;

#[derive(Clone, Copy)]
pub struct Wafer {
    pub process: f64,
    pub handling: f64,
}

// The wafers that were sent, process time and handling time in turn. What stands after the first n is never looked at.
pub fn wafers_in(times: &[f64], n: usize) -> [Wafer; WAFERS]
    requires n_value { n ≡ length times.now / 2 }
    requires n_bound { n ≤ 25 }
    ensures { take n result ≡ wafers_in times.now }
{
    let none = Wafer {
        process: 0.0,
        handling: 0.0,
    };
    let mut ws = [none; WAFERS];
    for i in 0..n {
        ws[i] = Wafer {
            process: times[WAFER_TIMES * i],
            handling: times[WAFER_TIMES * i + 1],
        };
    }
    ws
}

// Whether both times of each of the first n wafers are whole multiples of 1/1024 in range.
pub fn all_timely(ws: [Wafer; WAFERS], n: usize) -> bool
    requires { n ≤ 25 }
    ensures { result ≡ all_timely (take n ws) }
{
    let mut good = true;
    for i in 0..n {
        let w = ws[i];
        let p = is_timely(w.process);
        let h = is_timely(w.handling);
        good = good & (p & h);
    }
    good
}

// Both times of the first n wafers, added as f64: this is exactly the whole-number total of their 1/1024ths.
pub fn total(ws: [Wafer; WAFERS], n: usize) -> f64
    requires n_bound { n ≤ 25 }
    requires ws_value { all_timely (take n ws) ≡ true }
    ensures value { result ≡ f64_total (take n ws) }
    ensures counts { Counts result (total_of (take n ws)) }
{
    let mut t = 0.0;
    for i in 0..n {
        let w = ws[i];
        t = t + w.process;
        t = t + w.handling;
    }
    t
}
