// Bytes of the tool: zeros, and two names.
ghost use Rattle.std.specs.Prelude.{◌≡◌, ◌+◌, ◌≤◌};
ghost use Rattle.lists.specs.Lists.{every};
ghost use Rattle.records.specs.Names.{same_name};
ghost use Rattle.image.specs.Image.{bytes_from, name_from};
ghost use Rattle.passes.specs.Passes.{is_zero};

use image::layout::TOOL_BYTES;
use records::sizes::NAME_BYTES;

// n bytes from o on are zero. `&` and no early exit, so that many bytes are looked at together.
pub fn zeros(m: &[u8; TOOL_BYTES], o: usize, n: usize) -> bool
    requires { o + n ≤ 1891 }
    ensures { result ≡ every is_zero (bytes_from m.now o n) }
{
    let part = &m[o..o + n];
    let mut ok = true;
    for b in part {
        ok = ok & (*b == 0);
    }
    ok
}

// The names at o and p are the same.
pub fn same(m: &[u8; TOOL_BYTES], o: usize, p: usize) -> bool
    requires o_bound { o + 16 ≤ 1891 }
    requires p_bound { p + 16 ≤ 1891 }
    ensures { result ≡ same_name (name_from m.now o) (name_from m.now p) }
{
    m[o..o + NAME_BYTES] == m[p..p + NAME_BYTES]
}
