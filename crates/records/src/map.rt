// A slot map: 25 codes, each 0 to 5.
ghost use Rattle.std.specs.Prelude.{◌≡◌};
ghost use Rattle.records.specs.Maps.{is_map, in_map};

use crate::sizes::*;
use crate::table::in_table;

// Whether codes of any length are a slot map.
pub fn is_map(codes: &[u8]) -> bool
    ensures { result ≡ is_map codes.now }
{
    codes.len() == SLOTS && (0..SLOTS).all(|i| codes[i] <= CODE_GREATEST)
}

// The first 25 codes, with zeros after fewer.
#[tactic(auto, unfolding(crate::specs::Maps::in_map))]
pub fn in_map(codes: &[u8]) -> [u8; SLOTS]
    ensures { result ≡ in_map codes.now }
{
    in_table(codes)
}
