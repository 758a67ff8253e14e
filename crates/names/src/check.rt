// Names padded with blanks: trailing blanks are dropped, and what remains is a name or is refused.
ghost use Rattle.std.specs.Prelude.{◌≡◌, length};
ghost use Rattle.names.specs.Check.{name_length, shortened};

use records::sizes::*;

pub const BLANK: u8 = 0x20;

pub const TEXT_MOST: usize = 32;

// The name check: how many bytes of a text are its name, 0 where the text is refused, which is what hm_name hands to C.
// Engineers review it on paper: one pass, byte by byte, in the order of the rule's words, and no call.
pub fn name_length(text: &[u8]) -> usize
    ensures { result ≡ name_length text.now }
{
    // More than 32 bytes: refused.
    if TEXT_MOST < text.len() {
        return 0;
    }
    // Trailing blanks are dropped: only other bytes are counted as left.
    let mut left = 0;
    for i in 0..text.len() {
        let byte = text[i];
        if byte != BLANK {
            // A blank elsewhere, before this byte: refused.
            if left < i {
                return 0;
            }
            // A byte that no name has: refused.
            if (byte < NAME_BYTE_LEAST) | (NAME_BYTE_GREATEST < byte) {
                return 0;
            }
            left = i + 1;
        }
    }
    // Nothing left, or more than 16 left: refused.
    let refused = (left == 0) | (NAME_BYTES < left);
    if refused { 0 } else { left }
}

// How many bytes of a text rows see: its name, or all of it where it is refused.
pub fn shortened_length(text: &[u8]) -> usize
    ensures { result ≡ length (shortened text.now) }
{
    let n = name_length(text);
    if n == 0 { text.len() } else { n }
}
