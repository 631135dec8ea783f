// The SID that a refusal names, and the replies that the tool waits for.
ghost use Rattle.std.specs.Prelude.{◌≡◌, ◌-◌};
ghost use Rattle.octets.specs.Buffer.{same_bytes};
ghost use Rattle.arrival.specs.Replies.{sid_sent, reply_wanted};

use frame::messages::{EXITED, SESSION_OPENED, STARTED, STOPPED, UPLOAD_GRANTED};
use octets::wire::{
    ACKNOWLEDGE, DIAGNOSTIC_SESSION, REQUEST_UPLOAD, START_COMMUNICATION, STOP_COMMUNICATION,
    TRANSFER_DATA, TRANSFER_EXIT,
};
use progress::Request;
use split::SubMessage;

// The SID that a refusal of the last frame names.
pub(crate) fn sid_sent(request: Request, expected: SubMessage) -> u8
    ensures { result ≡ sid_sent request expected.0 }
{
    match request {
        Request::Start => START_COMMUNICATION,
        Request::Session => DIAGNOSTIC_SESSION,
        Request::Upload => REQUEST_UPLOAD,
        Request::Exit => TRANSFER_EXIT,
        Request::Stop => STOP_COMMUNICATION,
        Request::Transfer => {
            if expected.0 == 1 {
                TRANSFER_DATA
            } else {
                ACKNOWLEDGE
            }
        }
    }
}

// Whether the data is the reply to a fixed request, byte by byte; a transfer has no such reply.
pub(crate) fn is_reply(request: Request, data: &[u8]) -> bool
    ensures { result ≡ same_bytes «data».now (reply_wanted request) }
{
    match request {
        Request::Start => octets::buffer::same(data, &STARTED),
        Request::Session => octets::buffer::same(data, &SESSION_OPENED),
        Request::Upload => octets::buffer::same(data, &UPLOAD_GRANTED),
        Request::Exit => octets::buffer::same(data, &EXITED),
        Request::Stop => octets::buffer::same(data, &STOPPED),
        Request::Transfer => octets::buffer::same(data, b""),
    }
}
