// A name: 1 to 16 bytes, each 0x21 to 0x7E, kept in sixteen bytes with zeros after it.
ghost use Rattle.std.specs.Prelude.{◌≡◌};
ghost use Rattle.records.specs.Names.{no_name, graphic, is_name, in_bytes};

use crate::sizes::*;
use crate::table::in_table;

#[repr(C)]
#[derive(Clone, Copy, PartialEq, Eq)]
pub struct Name {
    pub bytes: [u8; NAME_BYTES],
}

impl Name {
    pub fn none() -> Name
        ensures { result ≡ no_name }
    {
        Name {
            bytes: [0; NAME_BYTES],
        }
    }
}

// Whether a byte may stand in a name.
fn is_graphic(byte: u8) -> bool
    ensures { result ≡ graphic byte }
{
    matches!(byte, NAME_BYTE_LEAST..=NAME_BYTE_GREATEST)
}

// Whether a text of any length is a name.
pub fn is_name(text: &[u8]) -> bool
    ensures { result ≡ is_name text.now }
{
    match text.len() {
        1..=NAME_BYTES => (0..text.len()).all(|i| is_graphic(text[i])),
        _ => false,
    }
}

// A text's first sixteen bytes, with zeros after a shorter one.
#[tactic(auto, unfolding(crate::specs::Names::in_bytes))]
pub fn in_bytes(text: &[u8]) -> Name
    ensures { result ≡ in_bytes text.now }
{
    Name {
        bytes: in_table(text),
    }
}
