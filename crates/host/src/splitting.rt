// Splitting an answer's data.
ghost use Rattle.std.specs.Prelude.{◌≡◌, length};
ghost use Rattle.frame.specs.Frame.{lab};
ghost use Rattle.split.specs.Split.{sub_messages, sub_result_given, sub_out_given};
ghost use Rattle.host.specs.Ends.{given};

use frame::{Addresses, LAB};
use octets::{Counted, Written};
use split::SubMessage;

// How many sub messages so many data bytes take.
#[unsafe(no_mangle)]
pub extern "C" fn tacho_sub_messages(data_len: usize) -> Counted
    ensures { result ≡ sub_messages data_len }
{
    split::pieces::sub_messages(data_len).into()
}

// Writes one sub message as a frame to the tool, at the addresses given.
#[unsafe(no_mangle)]
pub extern "C" fn tacho_sub_message_at(
    unit: u8,
    tool: u8,
    data: &[u8],
    trep: u8,
    number: u16,
    out: &mut [u8],
) -> Written
    ensures value { result
        ≡ sub_result_given (given unit tool) trep number «data».now (length out.old) }
    ensures out_after { out.new
        ≡ sub_out_given (given unit tool) trep number «data».now out.old }
{
    split::call::write_sub_message(
        Addresses { unit, tool },
        data,
        trep,
        SubMessage(number),
        out,
    )
    .into()
}

// The same at the lab's.
#[unsafe(no_mangle)]
pub extern "C" fn tacho_sub_message(data: &[u8], trep: u8, number: u16, out: &mut [u8]) -> Written
    ensures value { result ≡ sub_result_given lab trep number «data».now (length out.old) }
    ensures out_after { out.new ≡ sub_out_given lab trep number «data».now out.old }
{
    split::call::write_sub_message(LAB, data, trep, SubMessage(number), out).into()
}
