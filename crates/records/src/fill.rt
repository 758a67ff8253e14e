// A list in lent bytes.
ghost use Rattle.std.specs.Prelude.{◌≡◌, length, replicate};
ghost use Rattle.lists.specs.Lists.{fill};

// What fits of a list, into a table of zeros.
pub fn fill(table: &mut [u8], list: &[u8])
    requires { table.old ≡ replicate (length table.old) 0 }
    ensures { table.new ≡ fill (length table.old) 0 list.now }
{
    // a loop, since `copy_from_slice` of a length that varies isn't fit for boards (`tools/board.awk`)
    for i in 0..table.len().min(list.len()) {
        table[i] = list[i];
    }
}
