// Writing one sub message as a frame to the tool, for any two addresses.
ghost use Rattle.std.specs.Prelude.{◌≡◌, length};
ghost use Rattle.octets.specs.Numbers.{written};
ghost use Rattle.split.specs.Split.{sub_result, sub_out};

use crate::SubMessage;
use frame::{Addresses, End};
use octets::refusal::Refusal;
use octets::wire::ANSWER;

// Writes sub message `message` of the answer with this TREP and data at the front of `out`; an unsplit answer is its
// number 1. Refused by 8, 10 and 4, in this order.
pub fn write_sub_message(
    addresses: Addresses,
    data: &[u8],
    trep: u8,
    message: SubMessage,
    out: &mut [u8],
) -> Result<usize, Refusal>
    ensures value { written result ≡ sub_result trep message.0 «data».now (length out.old) }
    ensures out_after { out.new ≡ sub_out addresses trep message.0 «data».now out.old }
{
    let piece = crate::pieces::locate(data.len(), message)?;
    if !crate::pieces::is_split(data.len()) {
        let header = [ANSWER, trep];
        return frame::write::write_two(addresses, &header, data, End::Tool, out);
    }
    let [high, low] = message.0.to_be_bytes();
    let header = [ANSWER, trep, high, low];
    frame::write::write_two(addresses, &header, piece.of(data), End::Tool, out)
}
