// A table of 36 entries of w bytes each, from o on, follows the records.
ghost use Rattle.std.specs.Prelude.{◌≡◌, ◌≤◌, ◌+◌, ◌*◌, length};
ghost use Rattle.image.specs.Image.{table};
ghost use Rattle.follow.specs.Follow.{dropped, added, left_of, followed_in, entries_from, blank, KeptOutside, closed_up};

use image::layout::TOOL_BYTES;
use image::write::put;
use records::sizes::RECORDS;

// An entry goes: what is after it closes up, and the last w bytes before e are zero. Bytes that are only moved go one by one,
// as in image::write.
pub fn close_up(m: &mut [u8], o: usize, w: usize, e: usize)
    requires o_le_e { o ≤ e }
    requires w_bound { w ≤ 1891 }
    requires e_in_bounds { e ≤ length m.old }
    requires m_len_bound { length m.old ≤ 1891 }
    ensures { m.new ≡ table (length m.old) (closed_up m.old o w e e) }
{
    let end = if o + w < e { e - w } else { o };
    for j in o..end {
        m[j] = m[j + w];
    }
    m[end..e].fill(0);
}

#[tactic(auto, unfolding(crate::specs::Follow::left_of))]
fn left_of(n: usize, g: usize) -> usize
    ensures { result ≡ left_of n g }
{
    if g < n { n - 1 } else { n }
}

// Of n entries in use the one at g goes.
fn entry_dropped(m: &mut [u8; TOOL_BYTES], o: usize, w: usize, n: usize, g: usize)
    requires w_bound { o + w * 36 ≤ 1891 }
    requires n_bound { n ≤ 36 }
    ensures w_after { entries_from m.new o w ≡ dropped (blank w) n g (entries_from m.old o w) }
    ensures kept_outside { KeptOutside o (o + w * 36) m.old m.new }
{
    if g < n {
        close_up(m, o + w * g, w, o + w * RECORDS);
    }
}

// If one is made, x is its entry, at k.
fn entry_added(m: &mut [u8; TOOL_BYTES], o: usize, w: usize, k: usize, made: bool, x: &[u8])
    requires w_bound { o + w * 36 ≤ 1891 }
    requires x_len { length x.now ≡ w }
    ensures w_after { entries_from m.new o w ≡ added k made x.now (entries_from m.old o w) }
    ensures kept_outside { KeptOutside o (o + w * 36) m.old m.new }
{
    if made && k < RECORDS {
        put(m, o + w * k, x);
    }
}

// Of n records the one at goes is gone (n: none), and if one is made its entry is x: a position and a flag, as in `followed_in`.
pub fn follow(
    m: &mut [u8; TOOL_BYTES],
    o: usize,
    w: usize,
    n: usize,
    goes: usize,
    made: bool,
    x: &[u8],
)
    requires w_bound { o + w * 36 ≤ 1891 }
    requires n_bound { n ≤ 36 }
    requires x_len { length x.now ≡ w }
    ensures w_after { entries_from m.new o w
        ≡ followed_in (blank w) n goes made x.now (entries_from m.old o w) }
    ensures kept_outside { KeptOutside o (o + w * 36) m.old m.new }
{
    entry_dropped(m, o, w, n, goes);
    entry_added(m, o, w, left_of(n, goes), made, x);
}
