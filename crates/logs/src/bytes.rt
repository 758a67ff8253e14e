// Bytes of a log.
ghost use Rattle.std.specs.Prelude.{◌≡◌, ◌<◌};
ghost use Rattle.image.specs.Image.{byte_at};

// The byte at a position, 0 past the end.
pub fn byte(log: &[u8], at: usize) -> usize
    ensures value { result ≡ byte_at log.now at }
    ensures upper_bound { result < 256 }
{
    if at < log.len() {
        usize::from(log[at])
    } else {
        0
    }
}
