// Bytes against their bounds. The same byte of every record shares a lane, and the lanes are judged once, at the end: no
// record is waited for, and the lanes of one record are looked at together. Names and fields have a pass each: one pass for
// both, with what it asks of a byte as a closure, would have to state all that the closure answers, and reads no plainer.
// n counts the records in a block, which C lends whole: it isn't the length of m.
ghost use Rattle.std.specs.Prelude.{◌≡◌, ◌+◌, ◌≤◌, false, ◌&&◌, length, slice_index, slice_index_or};
ghost use Rattle.lists.specs.Lists.{every, between};
ghost use Rattle.image.specs.Image.{table, byte_at};
ghost use Rattle.passes.specs.Passes.{record_on, itself, name_lane, named_by, fields_fit};

use image::layout::*;
use records::sizes::*;
use records::words::*;

// A carrier's fields after place and spot: how many bytes, and where the first record's begin.
const FIELDS: usize = CARRIER_BYTES - PORT_OFFSET;

const FIELDS_START: usize = RECORDS_START + PORT_OFFSET;

fn all(good: &[bool]) -> bool
    ensures { result ≡ every itself good.now }
{
    let mut ok = true;
    for lane in good {
        ok = ok & *lane;
    }
    ok
}

// The name at o.
fn name_lanes(
    good: &mut [bool],
    m: &[u8; TOOL_BYTES],
    o: usize,
    first: &[u8; NAME_BYTES],
    last: &[u8; NAME_BYTES],
)
    requires good_len { length good.old ≡ 16 }
    requires o_bound { o + 17 ≤ 1891 }
    ensures { good.new ≡ table 16 (λ i. slice_index_or good.old i false
        && name_lane (slice_index first.now i) (slice_index last.now i) (byte_at m.now (o + i))
        (byte_at m.now (o + i + 1))) }
{
    for i in 0..NAME_BYTES {
        let b = m[o + i];
        let next = m[o + i + 1];
        let ends = (b == 0) & ((last[i] == 1) | (next == 0));
        good[i] = good[i]
            & ((ends | ((NAME_BYTE_LEAST <= b) & (b <= NAME_BYTE_GREATEST))) & (first[i] <= b));
    }
}

// The fields from o on.
fn field_lanes(
    good: &mut [bool],
    m: &[u8; TOOL_BYTES],
    o: usize,
    least: &[u8; FIELDS],
    most: &[u8; FIELDS],
)
    requires good_len { length good.old ≡ 32 }
    requires o_bound { o + 32 ≤ 1891 }
    ensures { good.new ≡ table 32 (λ i. slice_index_or good.old i false
        && between (slice_index least.now i) (byte_at m.now (o + i)) (slice_index most.now i)) }
{
    for i in 0..FIELDS {
        let b = m[o + i];
        good[i] = good[i] & ((least[i] <= b) & (b <= most[i]));
    }
}

// The first n records hold names.
pub fn named(m: &[u8; TOOL_BYTES], n: usize) -> bool
    requires { n ≤ 36 }
    ensures { result ≡ every named_by (table n (record_on m.now)) }
{
    let mut first = [0u8; NAME_BYTES];
    let mut last = [0u8; NAME_BYTES];
    first[0] = 1;
    last[15] = 1;
    let mut good = [true; NAME_BYTES];
    for k in 0..n {
        name_lanes(
            &mut good,
            m,
            RECORDS_START + CARRIER_BYTES * k,
            &first,
            &last,
        );
    }
    all(&good)
}

// Their fields after place and spot are in range.
pub fn fields(m: &[u8; TOOL_BYTES], n: usize) -> bool
    requires { n ≤ 36 }
    ensures { result ≡ every fields_fit (table n (record_on m.now)) }
{
    // port; opened, cancelled and came-out; 25 codes; three statuses
    let mut least = [0u8; FIELDS];
    let mut most = [CODE_GREATEST; FIELDS];
    most[0] = USED_MOST;
    most[1] = OPEN;
    most[2] = ON;
    most[3] = ON;
    least[29] = NOT_READ;
    least[30] = NOT_READ;
    least[31] = NOT_ACCESSED;
    most[29] = FAILED;
    most[30] = FAILED;
    most[31] = STOPPED;
    let mut good = [true; FIELDS];
    for k in 0..n {
        field_lanes(
            &mut good,
            m,
            FIELDS_START + CARRIER_BYTES * k,
            &least,
            &most,
        );
    }
    all(&good)
}
