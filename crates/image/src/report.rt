// A report list as the bytes that its caller lends.
ghost use Rattle.std.specs.Prelude.{◌≡◌, ◌+◌, ◌*◌, ◌<◌, length};
ghost use Rattle.std.proofs.lemmas.List.Edits.{sets};
ghost use Rattle.rules.specs.Reports.{no_reports};
ghost use Rattle.image.specs.Image.{report_bytes, report_start, reports_from};

use crate::layout::*;
use crate::write::{clear, put};
use rules::report::Report;

fn report_bytes(r: Report) -> [u8; REPORT_BYTES]
    ensures { result ≡ report_bytes r }
{
    let mut b = [0; REPORT_BYTES];
    put(&mut b, SUBJECT_NAME_OFFSET, &r.name.bytes);
    b[MODEL_OFFSET] = r.model;
    b[SUBJECT_PORT_OFFSET] = r.port;
    b[OLD_OFFSET] = r.old;
    b[NEW_OFFSET] = r.new;
    b
}

// The entry at position k.
pub fn put_report(m: &mut [u8; REPORTS_BYTES], k: usize, r: Report)
    requires { k < 10 }
    ensures m_after { m.new ≡ sets m.old (report_start k) (report_bytes r) }
    ensures m_len { length m.old ≡ 201 }
{
    put(m, REPORTS_START + REPORT_BYTES * k, &report_bytes(r));
}

// How many reports there are.
#[tactic(auto, unfolding(crate::specs::Image::reports_from))]
pub fn reported(m: &[u8; REPORTS_BYTES]) -> u8
    ensures { result ≡ (reports_from m.now).count }
{
    m[REPORTED_OFFSET]
}

// No report: all zeros.
pub fn no_reports(m: &mut [u8; REPORTS_BYTES])
    ensures { reports_from m.new ≡ no_reports }
{
    clear(m);
}
