// The call that writes a sub message, with both addresses as given (document 02, Req 05).
ghost use Rattle.std.specs.Prelude.{◌≡◌, length};
ghost use Rattle.octets.specs.Numbers.{written};
ghost use Rattle.split.specs.Split.{sub_result_given, sub_out_given};

use crate::SubMessage;
use frame::Addresses;
use octets::refusal::Refusal;

// Writes sub message `message` of the answer with this TREP and data at the front of `out`; an unsplit answer is its
// number 1. Refused by 2 (equal addresses), 8, 10 and 4, in this order.
pub fn write_sub_message(
    addresses: Addresses,
    data: &[u8],
    trep: u8,
    message: SubMessage,
    out: &mut [u8],
) -> Result<usize, Refusal>
    ensures value { written result
        ≡ sub_result_given addresses trep message.0 «data».now (length out.old) }
    ensures out_after { out.new
        ≡ sub_out_given addresses trep message.0 «data».now out.old }
{
    addresses.differ()?;
    crate::write::write_sub_message(addresses, data, trep, message, out)
}
