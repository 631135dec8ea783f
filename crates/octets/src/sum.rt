// The checksum of frames.
ghost use Rattle.std.specs.Prelude.{◌≡◌, ◌+◌, ◌%◌, ◌≤◌, length};
ghost use Rattle.octets.specs.Buffer.{part_at};
ghost use Rattle.octets.specs.Sum.{total, checksum_of};

// `start` with the eight bytes from `at` on added to it.
fn with_eight(bytes: &[u8], at: usize, start: u8) -> u8
    requires { at + 8 ≤ length bytes.now }
    ensures { result ≡ (start + total (part_at at 8 bytes.now)) % 256 }
{
    let mut sum = std::num::wrapping_add_u8(start, bytes[at]);
    sum = std::num::wrapping_add_u8(sum, bytes[at + 1]);
    sum = std::num::wrapping_add_u8(sum, bytes[at + 2]);
    sum = std::num::wrapping_add_u8(sum, bytes[at + 3]);
    sum = std::num::wrapping_add_u8(sum, bytes[at + 4]);
    sum = std::num::wrapping_add_u8(sum, bytes[at + 5]);
    sum = std::num::wrapping_add_u8(sum, bytes[at + 6]);
    std::num::wrapping_add_u8(sum, bytes[at + 7])
}

// `start` with the bytes of `rest` added to it, one by one.
fn with_rest(rest: &[u8], start: u8) -> u8
    ensures { result ≡ (start + total rest.now) % 256 }
{
    let mut sum = start;
    for byte in rest {
        sum = std::num::wrapping_add_u8(sum, *byte);
    }
    sum
}

// The checksum of `bytes`: a running sum that wraps, equal to the sum over whole numbers modulo 256. Eight bytes are
// added in a turn while at least eight are left, then the rest. The turns are counted beforehand and the rest is handed
// on as a part, which suits boards without wide instructions (docs/PERFORMANCE.md).
pub fn checksum(bytes: &[u8]) -> u8
    ensures { result ≡ checksum_of bytes.now }
{
    let turns = bytes.len() / 8;
    let mut sum: u8 = 0;
    for turn in 0..turns {
        sum = with_eight(bytes, turn * 8, sum);
    }
    let behind = turns * 8;
    with_rest(&bytes[behind..], sum)
}
