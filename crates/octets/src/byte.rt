// Single bytes.
ghost use Rattle.std.specs.Prelude.{◌≡◌, slice_index};

// The byte at `at`, or 0 behind the end.
pub fn byte_at(bytes: &[u8], at: usize) -> u8
    ensures { result ≡ slice_index bytes.now at }
{
    if at < bytes.len() {
        return bytes[at];
    }
    0
}
