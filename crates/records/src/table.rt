// A list in a table of a fixed length.
ghost use Rattle.std.specs.Prelude.{◌≡◌};
ghost use Rattle.lists.specs.Lists.{fill};

use crate::fill::fill;

// What fits of a list, with zeros after a shorter one.
pub fn in_table<const N: usize>(list: &[u8]) -> [u8; N]
    ensures { result ≡ fill N 0 list.now }
{
    let mut table = [0; N];
    fill(&mut table, list);
    table
}
