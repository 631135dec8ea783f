// Joining: what a frame's data contributes to the answer that is being received.
ghost use Rattle.std.specs.Prelude.{◌≡◌, drop};
ghost use Rattle.split.specs.Join.{is_answer, is_whole, received_as, carried_by};

use crate::{Received, SubMessage};
use octets::wire::ANSWER;

fn is_answer(data: &[u8], trep: u8) -> bool
    ensures { result ≡ is_answer trep «data».now }
{
    if data.len() < 2 {
        return false;
    }
    if data[0] != ANSWER {
        return false;
    }
    data[1] == trep
}

// The bytes behind a header.
fn behind(data: &[u8], header: usize) -> &[u8]
    ensures { result.now ≡ drop header «data».now }
{
    let n = data.len();
    if n < header {
        return &data[n..n];
    }
    &data[header..n]
}

// The answer's data in a frame's data, once it is known what it is.
pub fn carried(data: &[u8], received: Received) -> &[u8]
    ensures { result.now ≡ carried_by received «data».now }
{
    match received {
        Received::Whole => behind(data, 2),
        Received::Full => behind(data, 4),
        Received::Last => behind(data, 4),
        Received::Above => behind(data, data.len()),
        Received::Other => behind(data, data.len()),
    }
}

fn is_whole(expected: u32, len: usize) -> bool
    ensures { result ≡ is_whole expected len }
{
    (expected == 1) & (len < 255)
}

// What the data of a frame is, with `expected` expected.
pub fn receive(data: &[u8], trep: u8, expected: SubMessage) -> Received
    ensures { result ≡ received_as trep expected.0 «data».now }
{
    let n = data.len();
    let e = expected.0 as u32;
    if !is_answer(data, trep) {
        return Received::Other;
    }
    if is_whole(e, n) {
        return Received::Whole;
    }
    if n < 4 {
        return Received::Other;
    }
    let k = fields::big_endian::number_at(data, 2, 2);
    if k < e {
        return Received::Other;
    }
    if e < k {
        return Received::Above;
    }
    if n < 255 {
        Received::Last
    } else {
        Received::Full
    }
}
