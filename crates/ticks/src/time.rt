// One time, in seconds as f64: whether it is a whole multiple of 1/1024 from 0 up to but not including 1,048,576.
ghost use Rattle.std.specs.Prelude.{◌≡◌};
ghost use Rattle.ticks.specs.Times.{time_of, timely};

use crate::sizes::*;

// The time in whole 1/1024ths; none where it is any other float. Cut to a whole number of them it has to be the time again.
pub fn time_of(x: f64) -> Option<u64>
    ensures { result ≡ time_of x }
{
    let y = x * 1024.0;
    // The two tests under which a float is cut to a u64. A NaN passes none, minus zero passes both.
    if y > -1.0 && y < 18446744073709551616.0 {
        let n = std::num::truncating_f64_to_u64(y);
        if n < TICKS_END && (n as f64) / 1024.0 == x {
            return Some(n);
        }
    }
    None
}

#[tactic(auto, unfolding(crate::specs::Times::time_of))]
pub fn is_timely(x: f64) -> bool
    ensures { result ≡ timely x }
{
    time_of(x).is_some()
}
