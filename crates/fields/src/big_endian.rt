// Numbers in bytes, most significant byte first, in fields of two or four bytes.
ghost use Rattle.std.specs.Prelude.{◌≡◌, [], ◌∷◌, ◌+◌, ◌≤◌, ◌<◌, length};
ghost use Rattle.fields.specs.BigEndian.{number_of, bytes_of, number_at, with_number};
ghost use Rattle.octets.specs.Buffer.{put};

// The number in two bytes.
pub fn number_of_two(high: u8, low: u8) -> u16
    ensures { result ≡ number_of (high ∷ low ∷ []) }
{
    u16::from_be_bytes([high, low])
}

// The number in four bytes.
pub fn number_of_four(a: u8, b: u8, c: u8, d: u8) -> u32
    ensures { result ≡ number_of (a ∷ b ∷ c ∷ d ∷ []) }
{
    u32::from_be_bytes([a, b, c, d])
}

// The number in the `width` bytes from `at` on: 0 for a width other than 2 and 4, and where the bytes end before.
pub fn number_at(bytes: &[u8], at: usize, width: usize) -> u32
    ensures { result ≡ number_at width at bytes.now }
{
    let n = bytes.len();
    if n < at {
        return 0;
    }
    if n - at < width {
        return 0;
    }
    match width {
        2 => u32::from(number_of_two(bytes[at], bytes[at + 1])),
        4 => number_of_four(bytes[at], bytes[at + 1], bytes[at + 2], bytes[at + 3]),
        _ => 0,
    }
}

fn write_two(out: &mut [u8], at: usize, number: u32)
    requires { at + 2 ≤ length out.old }
    ensures { out.new ≡ put at (bytes_of 2 number) out.old }
{
    let [_, _, high, low] = number.to_be_bytes();
    out[at..at + 2].copy_from_slice(&[high, low]);
}

fn write_four(out: &mut [u8], at: usize, number: u32)
    requires { at + 4 ≤ length out.old }
    ensures { out.new ≡ put at (bytes_of 4 number) out.old }
{
    out[at..at + 4].copy_from_slice(&number.to_be_bytes());
}

// Writes `number` into the `width` bytes from `at` on; nothing for another width than 2 and 4, or where the bytes end
// before.
pub fn write_number(out: &mut [u8], at: usize, width: usize, number: u32)
    ensures { out.new ≡ with_number width at number out.old }
{
    let n = out.len();
    if n < at {
        return;
    }
    if n - at < width {
        return;
    }
    match width {
        2 => write_two(out, at, number),
        4 => write_four(out, at, number),
        _ => {}
    }
}
