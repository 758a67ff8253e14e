// Expected maps in the bytes: whether codes are one, whether a slot map equals one, and whether those kept are sound.
// n counts what there is in a block, which C lends whole: it isn't the length of m.
ghost use Rattle.std.specs.Prelude.{◌≡◌, ◌&&◌, ◌≤◌, ◌+◌, get_or, take, drop, eqb};
ghost use Rattle.lists.specs.Lists.{every, same_list};
ghost use Rattle.image.specs.Image.{table, bytes_from};
ghost use Rattle.maps.specs.Expected.{is_slot, is_expected, no_map, is_none, is_kept, equals};
ghost use Rattle.mapped.specs.Bytes.{maps_from, codes_at};

use image::layout::TOOL_BYTES;
use maps::codes::*;
use passes::bytes::zeros;
use records::sizes::*;

// 25 codes, each 1 or 3, or no map.
fn is_expected(codes: &[u8]) -> bool
    ensures { result ≡ is_expected codes.now }
{
    codes.is_empty()
        || codes.len() == SLOTS && (0..SLOTS).all(|i| codes[i] == EMPTY || codes[i] == OCCUPIED)
}

// The 25 bytes from o on are each 1 or 3: `&` and `|`, since this runs over each record's map without a branch.
fn slots(m: &[u8; TOOL_BYTES], o: usize) -> bool
    requires { o + 25 ≤ 1891 }
    ensures { result ≡ every is_slot (bytes_from m.now o 25) }
{
    let mut ok = true;
    for i in 0..SLOTS {
        let code = m[o + i];
        ok = ((code == EMPTY) | (code == OCCUPIED)) & ok;
    }
    ok
}

// They are those of a slot map.
fn same_codes(m: &[u8; TOOL_BYTES], o: usize, map: &[u8; SLOTS]) -> bool
    requires { o + 25 ≤ 1891 }
    ensures { result ≡ same_list (bytes_from m.now o 25) (table 25 (λ i. get_or map.now i 0)) }
{
    let mut ok = true;
    for i in 0..SLOTS {
        ok = (m[o + i] == map[i]) & ok;
    }
    ok
}

// The map kept at k is there, and a slot map equals it.
fn equals_at(m: &[u8; TOOL_BYTES], k: usize, map: [u8; SLOTS]) -> bool
    ensures { result ≡ equals (get_or (maps_from m.now) k no_map) map }
{
    if k < RECORDS {
        // by `&` both are told as one fact; `&&` reads no plainer, and gives the proof one way out more
        let none = zeros(m, SLOTS * k, SLOTS);
        !none & same_codes(m, SLOTS * k, &map)
    } else {
        false
    }
}

// What a row sees of the codes: only SlotMap looks at the map kept.
pub fn codes_at(
    m: &[u8; TOOL_BYTES],
    number: u32,
    k: usize,
    map: [u8; SLOTS],
    codes: &[u8],
) -> Codes
    ensures { result ≡ codes_at number (maps_from m.now) k map codes.now }
{
    let equal = number == 20 && equals_at(m, k, map);
    Codes {
        fine: is_expected(codes),
        equal,
    }
}

// They are no map, or 25 codes of 1 and 3: the first tells which they can be, so that they are passed once.
fn kept_at(m: &[u8; TOOL_BYTES], o: usize) -> bool
    requires { o + 25 ≤ 1891 }
    ensures { result ≡ is_kept (bytes_from m.now o 25) }
{
    if m[o] == 0 {
        zeros(m, o, SLOTS)
    } else {
        slots(m, o)
    }
}

// Each of the first n is no map, or 25 codes of 1 and 3.
fn all_kept(m: &[u8; TOOL_BYTES], n: usize) -> bool
    requires { n ≤ 36 }
    ensures { result ≡ every is_kept (take n (maps_from m.now)) }
{
    let mut ok = true;
    for k in 0..n {
        ok = kept_at(m, SLOTS * k) & ok;
    }
    ok
}

// There is no map after the first n.
fn none_after(m: &[u8; TOOL_BYTES], n: usize) -> bool
    requires { n ≤ 36 }
    ensures { result ≡ every is_none (drop n (maps_from m.now)) }
{
    let mut ok = true;
    for k in (n..RECORDS).rev() {
        ok = zeros(m, SLOTS * k, SLOTS) & ok;
    }
    ok
}

// Whether the maps of n records are sound.
pub fn sound_maps(m: &[u8; TOOL_BYTES], n: usize) -> bool
    requires { n ≤ 36 }
    ensures { result ≡ (every is_kept (take n (maps_from m.now)) && every is_none (drop n (maps_from m.now))) }
{
    all_kept(m, n) && none_after(m, n)
}
