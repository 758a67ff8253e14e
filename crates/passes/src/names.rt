// Names differ. Each leaves a mark, and only where that is taken is a name compared with those before it.
// n counts what there is in a block, which C lends whole: it isn't the length of m.
ghost use Rattle.std.specs.Prelude.{◌≡◌, ℕ, ◌+◌, ◌<◌, ◌≤◌};
ghost use Rattle.lists.specs.Lists.{every, every_two};
ghost use Rattle.rules.specs.Sound.{other_name};
ghost use Rattle.image.specs.Image.{table, byte_at};
ghost use Rattle.passes.specs.Passes.{record_on, word, mark};

use image::layout::*;
use image::read::bytes_from;

// Eight bytes as one number.
fn word(m: &[u8; TOOL_BYTES], o: usize) -> u64
    requires { o + 8 ≤ 1891 }
    ensures value { result ≡ word m.now o }
    ensures by_index { (i : ℕ) → i < 8 → byte_at m.now (o + i) < 256 }
{
    u64::from_le_bytes(bytes_from(m, o))
}

// The mark of the name at o. 907 and 36: names that differ in one byte, or in two by less than 14 each, leave different marks.
#[tactic(auto, unfolding(crate::specs::Passes::mark))]
fn mark(m: &[u8; TOOL_BYTES], o: usize) -> usize
    requires { o + 16 ≤ 1891 }
    ensures value { result ≡ mark m.now o }
    ensures upper_bound { result < 1024 }
{
    let x = word(m, o).wrapping_add(word(m, o + 8) % 907 * 36);
    (x % 907) as usize
}

// The record at position k has another name than each of the first n.
fn alone(m: &[u8; TOOL_BYTES], k: usize, n: usize) -> bool
    requires k_bound { k < 36 }
    requires n_bound { n ≤ 36 }
    ensures { result ≡ every (λ c. other_name c (record_on m.now k)) (table n (record_on m.now)) }
{
    let a = word(m, RECORDS_START + CARRIER_BYTES * k);
    let b = word(m, RECORDS_START + CARRIER_BYTES * k + 8);
    for j in 0..n {
        let o = RECORDS_START + CARRIER_BYTES * j;
        if word(m, o) == a && word(m, o + 8) == b {
            return false;
        }
    }
    true
}

// Where a mark is new, no earlier name is the same; else those up to the latest that left it are compared.
pub fn differ(m: &[u8; TOOL_BYTES], n: usize) -> bool
    requires { n ≤ 36 }
    ensures { result ≡ every_two other_name (table n (record_on m.now)) }
{
    let mut marks = [0u8; 1024];
    let mut ok = true;
    for k in 0..n {
        let h = mark(m, RECORDS_START + CARRIER_BYTES * k);
        let before = usize::from(marks[h]);
        if 0 < before {
            ok = alone(m, k, before) & ok;
        }
        marks[h] = (k + 1) as u8;
    }
    ok
}
