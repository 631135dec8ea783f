// Splitting an answer's data, for C.
ghost use Rattle.std.specs.Prelude.{◌≡◌, length};
ghost use Rattle.frame.specs.Frame.{lab};
ghost use Rattle.split.specs.Split.{sub_messages, sub_result_given, sub_out_given};
ghost use Rattle.host.specs.Ends.{given};

use octets::{Counted, Written};

#[unsafe(no_mangle)]
pub extern "C" fn tacho_sub_messages(data_len: usize) -> Counted
    ensures { result ≡ sub_messages data_len }
{
    host::splitting::tacho_sub_messages(data_len)
}

#[unsafe(no_mangle)]
pub extern "C" fn tacho_sub_message_at(
    unit: u8,
    tool: u8,
    data: &[u8],
    trep: u8,
    number: u16,
    out: &mut [u8],
) -> Written
    ensures value { result
        ≡ sub_result_given (given unit tool) trep number «data».now (length out.old) }
    ensures out_after { out.new
        ≡ sub_out_given (given unit tool) trep number «data».now out.old }
{
    host::splitting::tacho_sub_message_at(unit, tool, data, trep, number, out)
}

#[unsafe(no_mangle)]
pub extern "C" fn tacho_sub_message(data: &[u8], trep: u8, number: u16, out: &mut [u8]) -> Written
    ensures value { result ≡ sub_result_given lab trep number «data».now (length out.old) }
    ensures out_after { out.new ≡ sub_out_given lab trep number «data».now out.old }
{
    host::splitting::tacho_sub_message(data, trep, number, out)
}
