// Writing frames, for any two addresses: the general form, and the start of communication, which has no LEN.
ghost use Rattle.std.specs.Prelude.{◌≡◌, [], ◌∷◌, ◌++◌, ◌+◌, ◌≤◌, ◌<◌, length, take};
ghost use Rattle.octets.specs.Numbers.{written};
ghost use Rattle.octets.specs.Sum.{checksum_of};
ghost use Rattle.octets.specs.Buffer.{front, put};
ghost use Rattle.frame.specs.Frame.{write_result, write_out, send_result, send_out};
ghost use Rattle.frame.specs.Messages.{start_frame};

use crate::{Addresses, End, GENERAL, WITHOUT_LEN};
use octets::refusal::Refusal;
use octets::wire::START_COMMUNICATION;

// The four bytes before the data.
fn write_header(out: &mut [u8], target: u8, source: u8, len: u8)
    requires { 4 ≤ length out.old }
    ensures { out.new ≡ front (0x80 ∷ target ∷ source ∷ len ∷ []) out.old }
{
    out[0] = GENERAL;
    out[1] = target;
    out[2] = source;
    out[3] = len;
}

// `bytes` in `out` from `at` on: the tail is lent on to the copy.
fn put_at(out: &mut [u8], at: usize, bytes: &[u8])
    requires { at + length bytes.now ≤ length out.old }
    ensures { out.new ≡ put at bytes.now out.old }
{
    octets::buffer::copy_in(&mut out[at..], bytes);
}

// The checksum of the bytes before `last` goes to `last`.
fn write_checksum(out: &mut [u8], last: usize)
    requires { last < length out.old }
    ensures { out.new ≡ put last (checksum_of (take last out.old) ∷ []) out.old }
{
    out[last] = octets::sum::checksum(&out[..last]);
}

// Writes the frame to `end` whose data is `head` and then `rest` at the front of `out` and gives its length, so that a
// small header needs no copy of the rest.
pub fn write_two(
    addresses: Addresses,
    head: &[u8],
    rest: &[u8],
    end: End,
    out: &mut [u8],
) -> Result<usize, Refusal>
    ensures value { written result ≡ write_result (head.now ++ rest.now) (length out.old) }
    ensures out_after { out.new
        ≡ write_out addresses «end» (head.now ++ rest.now) out.old }
{
    let first = head.len();
    let len = first + rest.len();
    if len == 0 {
        return Err(Refusal::FrameCount);
    }
    if 255 < len {
        return Err(Refusal::FrameCount);
    }
    if out.len() < len + 5 {
        return Err(Refusal::BufferShort);
    }
    let target = crate::check::target_of(addresses, end);
    let source = crate::check::source_of(addresses, end);
    write_header(out, target, source, len as u8);
    put_at(out, 4, head);
    put_at(out, first + 4, rest);
    write_checksum(out, len + 4);
    Ok(len + 5)
}

// Writes the frame to `end` with this data at the front of `out`: 1 for no data or over 255 bytes, 4 where `out` is
// shorter than the frame.
pub fn write(addresses: Addresses, data: &[u8], end: End, out: &mut [u8]) -> Result<usize, Refusal>
    ensures value { written result ≡ write_result «data».now (length out.old) }
    ensures out_after { out.new ≡ write_out addresses «end» «data».now out.old }
{
    write_two(addresses, b"", data, end, out)
}

// The five-byte start frame: both addresses, and the CS that follows from them.
fn start_frame(addresses: Addresses) -> [u8; 5]
    ensures { result ≡ start_frame addresses }
{
    let unit = addresses.unit;
    let tool = addresses.tool;
    let body = [WITHOUT_LEN, unit, tool, START_COMMUNICATION];
    [
        WITHOUT_LEN,
        unit,
        tool,
        START_COMMUNICATION,
        octets::sum::checksum(&body),
    ]
}

// Writes it at the front of `out`; 4 where it is shorter.
pub fn write_start(addresses: Addresses, out: &mut [u8]) -> Result<usize, Refusal>
    ensures value { written result ≡ send_result (start_frame addresses) (length out.old) }
    ensures out_after { out.new ≡ send_out (start_frame addresses) out.old }
{
    if out.len() < 5 {
        return Err(Refusal::BufferShort);
    }
    octets::buffer::copy_in(out, &start_frame(addresses));
    Ok(5)
}
