// Transfer data (36) and acknowledge (83): the answers of the store.
ghost use Rattle.std.specs.Prelude.{◌≡◌};
ghost use Rattle.services.specs.Services.{request_length, request_name, name_asked, answer_from, on_transfer};
ghost use Rattle.services.specs.Services.{send_next, on_code, on_sending, on_acknowledge};

use crate::{Phase, Reaction};
use catalog::{AnswerName, NO_ANSWER};
use octets::wire::{
    ACKNOWLEDGE, ANSWER, CONDITIONS_WRONG, DATA_NOT_AVAILABLE, LENGTH_WRONG, OUT_OF_RANGE,
    SUB_FUNCTION_UNKNOWN, TRANSFER_DATA,
};
use octets::{Part, Place};
use split::{AckCode, SubMessage};

// How long a request is: activities carry a day.
fn request_length(activities: bool) -> usize
    ensures { result ≡ request_length activities }
{
    if activities { 6 } else { 2 }
}

// The answer that a request names: 36 TRTP (day).
fn request_name(data: &[u8]) -> AnswerName
    ensures { result ≡ request_name «data».now }
{
    AnswerName {
        trep: octets::byte::byte_at(data, 1),
        day: fields::big_endian::number_at(data, 2, 4),
    }
}

fn answer_from(name: AnswerName, message: SubMessage, place: Place) -> Reaction
    ensures { result ≡ answer_from name message place }
{
    if place.number != 0 {
        return Reaction::Negative(TRANSFER_DATA, DATA_NOT_AVAILABLE);
    }
    Reaction::AnswerSent(name, message, crate::state::part_at(place))
}

// The answer that a frame's data asks for.
pub fn name_asked(data: &[u8]) -> AnswerName
    ensures { result ≡ name_asked «data».now }
{
    if octets::byte::byte_at(data, 0) == TRANSFER_DATA {
        request_name(data)
    } else {
        NO_ANSWER
    }
}

// Transfer data: 36 TRTP (day). `asked` is the place of the answer that it names.
pub(crate) fn on_transfer(kind: u8, phase: Phase, asked: Place, data: &[u8]) -> Reaction
    ensures { result ≡ on_transfer kind phase asked «data».now }
{
    if data.len() < 2 {
        return Reaction::Negative(TRANSFER_DATA, LENGTH_WRONG);
    }
    let trtp = data[1];
    if !catalog::known_to(kind, trtp) {
        return Reaction::Negative(TRANSFER_DATA, SUB_FUNCTION_UNKNOWN);
    }
    if data.len() != request_length(catalog::is_activities(trtp)) {
        return Reaction::Negative(TRANSFER_DATA, LENGTH_WRONG);
    }
    if !phase.is_granted() {
        return Reaction::Negative(TRANSFER_DATA, CONDITIONS_WRONG);
    }
    answer_from(request_name(data), SubMessage(1), asked)
}

// The sub message behind the last one, or 12 if there is none.
fn send_next(name: AnswerName, last: SubMessage, sent: Part) -> Reaction
    ensures { result ≡ send_next name last sent }
{
    let next = last.0 as usize + 1;
    if split::pieces::count_of(crate::state::data_length(sent)) < next {
        return Reaction::Negative(ACKNOWLEDGE, SUB_FUNCTION_UNKNOWN);
    }
    Reaction::AnswerSent(name, split::codes::next(last), sent)
}

// A code while an answer is being sent (DDP_017).
fn on_code(name: AnswerName, last: SubMessage, sent: Part, code: AckCode) -> Reaction
    ensures { result ≡ on_code name last sent code }
{
    let c = code.0;
    if c == split::codes::repeat(last).0 {
        return Reaction::AnswerSent(name, last, sent);
    }
    if c == split::codes::acknowledge(last).0 {
        return send_next(name, last, sent);
    }
    if c == split::codes::stop().0 {
        return Reaction::AnswerStopped;
    }
    Reaction::Negative(ACKNOWLEDGE, CONDITIONS_WRONG)
}

// A unit in a possible state holds the answer that it is sending.
#[tactic(auto, unfolding(crate::specs::Services::on_sending))]
fn on_sending(phase: Phase, sent: Place, code: AckCode) -> Reaction
    ensures { result ≡ on_sending phase sent code }
{
    match phase {
        Phase::Sending(name, last) => on_code(name, last, crate::state::part_at(sent), code),
        _ => Reaction::Negative(ACKNOWLEDGE, CONDITIONS_WRONG),
    }
}

// Acknowledge: 83 76 and a code. `sent` is the place of the answer that is being sent.
pub(crate) fn on_acknowledge(phase: Phase, sent: Place, data: &[u8]) -> Reaction
    ensures { result ≡ on_acknowledge phase sent «data».now }
{
    if data.len() != 4 {
        return Reaction::Negative(ACKNOWLEDGE, LENGTH_WRONG);
    }
    if data[1] != ANSWER {
        return Reaction::Negative(ACKNOWLEDGE, OUT_OF_RANGE);
    }
    on_sending(
        phase,
        sent,
        AckCode(fields::big_endian::number_of_two(data[2], data[3])),
    )
}
