// Where the parts of an entry end.
ghost use Rattle.std.specs.Prelude.{◌≡◌, ◌+◌, ◌^◌, ◌≤◌, ◌<◌, drop};
ghost use Rattle.logs.specs.Layout.{codes_size, on_name, input_size, report_size, reports_size, entry_size};

use crate::bytes::*;
use records::sizes::*;

const SLOT_MAP: usize = 20;

// Row 20 alone has codes.
pub fn codes_size(number: usize) -> usize
    ensures value { result ≡ codes_size number }
    ensures upper_bound { result ≤ 25 }
{
    if number == SLOT_MAP { SLOTS } else { 0 }
}

// Models 5 to 7 have a name.
pub fn on_name(model: usize) -> bool
    ensures { result ≡ on_name model }
{
    5 <= model && model <= 7
}

#[tactic(auto, using(crate::proofs::InPlace::input_size_is))]
pub fn input_size(log: &[u8], at: usize) -> usize
    requires { at + 3 < 2 ^ 64 }
    ensures value { result ≡ input_size (drop at log.now) }
    ensures upper_bound { result < 285 }
{
    4 + byte(log, at + 3) + codes_size(byte(log, at))
}

#[tactic(auto, using(crate::proofs::InPlace::report_named, crate::proofs::InPlace::report_unnamed))]
fn report_size(log: &[u8], at: usize) -> usize
    requires { at + 1 < 2 ^ 64 }
    ensures value { result ≡ report_size (drop at log.now) }
    ensures upper_bound { result < 260 }
{
    let model = byte(log, at);
    if on_name(model) {
        4 + byte(log, at + 1)
    } else {
        4
    }
}

// Where n reports end that begin at a position.
fn reports_end(log: &[u8], from: usize, n: usize) -> usize
    requires { (n < 256) × (from < 2 ^ 63 + 1000) }
    ensures { result ≡ from + reports_size n (drop from log.now) }
{
    let mut at = from;
    for _done in 0..n {
        at += report_size(log, at);
    }
    at
}

// Where the entry ends that begins at a position.
pub fn entry_end(log: &[u8], at: usize) -> usize
    requires { at < 2 ^ 63 }
    ensures { result ≡ at + entry_size (drop at log.now) }
{
    let answer = at + input_size(log, at);
    let count = byte(log, answer + 1);
    reports_end(log, answer + 2, count)
}
