// Writing replies: fixed ones, refusals by wire code, and sub messages straight from the store.
ghost use Rattle.std.specs.Prelude.{◌≡◌, ◌≤◌, ◌<◌, length};
ghost use Rattle.octets.specs.Buffer.{front};
ghost use Rattle.frame.specs.Frame.{frame_most};
ghost use Rattle.split.specs.Split.{sub_field};
ghost use Rattle.unit.specs.Call.{data_in, reply_data, reply_to};
ghost use Rattle.unit.specs.Piece.{piece_at, piece_sent};

use frame::messages::{EXITED, RATE_OFFERED, SESSION_OPENED, STARTED, STOPPED, UPLOAD_GRANTED};
use frame::{Addresses, End};
use octets::Part;
use octets::wire::NEGATIVE;
use services::Reaction;
use split::SubMessage;

// The bound on `reply` stays a clause: each method of a struct around the lent buffer would take it apart to write.
fn send(addresses: Addresses, data: &[u8], reply: &mut [u8]) -> usize
    requires nonzero { 0 < length «data».now }
    requires data_len_bound { length «data».now ≤ 255 }
    requires frame_most_in_bounds { frame_most ≤ length reply.old }
    ensures value { result ≡ length (reply_to addresses «data».now) }
    ensures reply_after { reply.new ≡ front (reply_to addresses «data».now) reply.old }
{
    frame::write::write(addresses, data, End::Tool, reply).unwrap_or(0)
}

// A sub message of the answer that is this part of the store. Its data lies behind 76 and TREP.
fn send_answer(
    addresses: Addresses,
    store: &[u8],
    trep: u8,
    message: SubMessage,
    answer: Part,
    reply: &mut [u8],
) -> usize
    requires answer_value { piece_at store.now message.0 answer ≡ 0 }
    requires frame_most_in_bounds { frame_most ≤ length reply.old }
    ensures value { result ≡ length (reply_to addresses (sub_field trep message.0 (data_in store.now answer))) }
    ensures reply_after { reply.new
        ≡ front (reply_to addresses (sub_field trep message.0 (data_in store.now answer)))
        reply.old }
{
    let start = answer.start;
    let first = start + 2;
    let end = start + answer.len;
    let data = &store[first..end];
    split::write::write_sub_message(addresses, data, trep, message, reply).unwrap_or(0)
}

// The reply to a good frame at the front of `reply`, and its length: 0 for silence.
pub(crate) fn write_reply(
    addresses: Addresses,
    reaction: Reaction,
    store: &[u8],
    reply: &mut [u8],
) -> usize
    requires reaction_value { piece_sent store.now reaction ≡ 0 }
    requires frame_most_in_bounds { frame_most ≤ length reply.old }
    ensures value { result ≡ length (reply_to addresses (reply_data store.now reaction)) }
    ensures reply_after { reply.new
        ≡ front (reply_to addresses (reply_data store.now reaction)) reply.old }
{
    match reaction {
        Reaction::Ignored => 0,
        Reaction::CommunicationStarted => send(addresses, &STARTED, reply),
        Reaction::SessionOpened => send(addresses, &SESSION_OPENED, reply),
        Reaction::RateOffered(_) => send(addresses, &RATE_OFFERED, reply),
        Reaction::RateChanged => 0,
        Reaction::UploadGranted => send(addresses, &UPLOAD_GRANTED, reply),
        Reaction::AnswerSent(name, message, answer) => {
            send_answer(addresses, store, name.trep, message, answer, reply)
        }
        Reaction::AnswerStopped => 0,
        Reaction::TransferExited => send(addresses, &EXITED, reply),
        Reaction::CommunicationStopped => send(addresses, &STOPPED, reply),
        Reaction::Negative(sid, code) => send(addresses, &[NEGATIVE, sid, code], reply),
    }
}
