// Where requests stand.
ghost use Rattle.std.specs.Prelude.{◌≤◌, take};
ghost use Rattle.line.specs.Bytes.{queue_from};
ghost use Rattle.line.specs.Tests.{FirstAt};

use crate::read::request_at;
use image::layout::TOOL_BYTES;
use queue::request::*;

// Where the oldest of the first n stands that passes a test.
pub fn position_of<F: Fn(Request) -> bool>(m: &[u8; TOOL_BYTES], n: usize, test: F) -> Option<usize>
    requires n_bound { n ≤ 16 }
    requires callable { F.IsAlwaysCallable test }
    ensures { FirstAt (F.post test) (take n (queue_from m.now)) result }
{
    (0..n).position(|k| test(request_at(m, k)))
}
