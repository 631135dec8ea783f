// The frames that the tool sends, for any two addresses.
ghost use Rattle.std.specs.Prelude.{◌≡◌, ◌-◌, ◌≤◌, length};
ghost use Rattle.octets.specs.Numbers.{written};
ghost use Rattle.frame.specs.Frame.{frame_of, send_result, send_out};
ghost use Rattle.frame.specs.declared.End.TheVariants as ends;
ghost use Rattle.split.specs.Codes.{sub};
ghost use Rattle.requests.specs.Sent.{transfer_request, acknowledgement, transfer_data, frame_sent};

use catalog::AnswerName;
use frame::messages::{EXIT, SESSION, STOP, UPLOAD};
use frame::{Addresses, End};
use octets::refusal::Refusal;
use octets::wire::{ACKNOWLEDGE, ANSWER, TRANSFER_DATA};
use progress::Request;
use split::{AckCode, SubMessage};

// Each writer puts its frame at the front of `out`; 4 where `out` is shorter.
fn write_data(addresses: Addresses, data: &[u8], out: &mut [u8]) -> Result<usize, Refusal>
    requires in_bounds { 1 ≤ length «data».now }
    requires data_len_bound { length «data».now ≤ 255 }
    ensures value { written result ≡ send_result (frame_of addresses ends.Unit «data».now) (length out.old) }
    ensures out_after { out.new ≡
        send_out (frame_of addresses ends.Unit «data».now) out.old }
{
    frame::write::write(addresses, data, End::Unit, out)
}

// 36, the TRTP and, for activities, the second of the day as it was given.
fn write_transfer_request(
    addresses: Addresses,
    name: AnswerName,
    out: &mut [u8],
) -> Result<usize, Refusal>
    ensures value { written result ≡
        send_result (frame_of addresses ends.Unit (transfer_request name)) (length out.old) }
    ensures out_after { out.new ≡
        send_out (frame_of addresses ends.Unit (transfer_request name)) out.old }
{
    let trep = name.trep;
    let day = name.day;
    if !catalog::is_activities(trep) {
        return write_data(addresses, &[TRANSFER_DATA, trep], out);
    }
    let [day_0, day_1, day_2, day_3] = day.to_be_bytes();
    let data = [TRANSFER_DATA, trep, day_0, day_1, day_2, day_3];
    write_data(addresses, &data, out)
}

// 83 76 and a code (DDP_017).
pub fn write_acknowledgement(
    addresses: Addresses,
    code: AckCode,
    out: &mut [u8],
) -> Result<usize, Refusal>
    ensures value { written result ≡
        send_result (frame_of addresses ends.Unit (acknowledgement code)) (length out.old) }
    ensures out_after { out.new ≡
        send_out (frame_of addresses ends.Unit (acknowledgement code)) out.old }
{
    let [high, low] = code.0.to_be_bytes();
    let data = [ACKNOWLEDGE, ANSWER, high, low];
    write_data(addresses, &data, out)
}

// The sub message before this one; before 0 there is none.
fn before(expected: SubMessage) -> SubMessage
    ensures { result ≡ sub (expected.0 - 1) }
{
    let e = expected.0;
    if e == 0 {
        return SubMessage(0);
    }
    SubMessage(e - 1)
}

// With 1 expected the transfer request is out, else the acknowledgement of the sub message before.
fn write_transfer(
    addresses: Addresses,
    name: AnswerName,
    expected: SubMessage,
    out: &mut [u8],
) -> Result<usize, Refusal>
    ensures value { written result ≡
        send_result (frame_of addresses ends.Unit (transfer_data name expected.0)) (length out.old) }
    ensures out_after { out.new ≡
        send_out (frame_of addresses ends.Unit (transfer_data name expected.0)) out.old }
{
    if expected.0 == 1 {
        return write_transfer_request(addresses, name, out);
    }
    write_acknowledgement(addresses, split::codes::acknowledge(before(expected)), out)
}

// The frame of a request, in a transfer with this number expected.
pub fn write_request(
    addresses: Addresses,
    request: Request,
    name: AnswerName,
    expected: SubMessage,
    out: &mut [u8],
) -> Result<usize, Refusal>
    ensures value { written result ≡ send_result (frame_sent addresses request name expected.0) (length out.old) }
    ensures out_after { out.new ≡ send_out (frame_sent addresses request name expected.0) out.old }
{
    match request {
        Request::Start => frame::write::write_start(addresses, out),
        Request::Session => write_data(addresses, &SESSION, out),
        Request::Upload => write_data(addresses, &UPLOAD, out),
        Request::Exit => write_data(addresses, &EXIT, out),
        Request::Stop => write_data(addresses, &STOP, out),
        Request::Transfer => write_transfer(addresses, name, expected, out),
    }
}
