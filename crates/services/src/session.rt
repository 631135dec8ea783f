// The services around a transfer: session, link control, upload, exit and stop. Each takes the data of a good frame
// heard when not closed.
ghost use Rattle.std.specs.Prelude.{◌≡◌, not, ◌&&◌, ◌||◌, eqb, leb, get_or};
ghost use Rattle.services.specs.State.{in_session, is_granted};
ghost use Rattle.services.specs.Services.{on_session, on_rate_offer, on_rate_change, on_link_control};
ghost use Rattle.services.specs.Services.{on_upload, on_exit};
ghost use Rattle.services.specs.Services.{on_stop};

use crate::{Phase, Reaction};
use octets::wire::{
    CONDITIONS_WRONG, DIAGNOSTIC_SESSION, LENGTH_WRONG, LINK_CONTROL, OUT_OF_RANGE, REQUEST_UPLOAD,
    STOP_COMMUNICATION, SUB_FUNCTION_UNKNOWN, TRANSFER_EXIT,
};

// Diagnostic session: 10 81.
pub(crate) fn on_session(data: &[u8]) -> Reaction
    requires { get_or «data».now 0 0 ≡ 0x10 }
    ensures { result ≡ on_session «data».now }
{
    if data.len() < 2 {
        return Reaction::Negative(DIAGNOSTIC_SESSION, LENGTH_WRONG);
    }
    if data[1] != 0x81 {
        return Reaction::Negative(DIAGNOSTIC_SESSION, SUB_FUNCTION_UNKNOWN);
    }
    if !octets::buffer::same(data, &frame::messages::SESSION) {
        return Reaction::Negative(DIAGNOSTIC_SESSION, LENGTH_WRONG);
    }
    Reaction::SessionOpened
}

fn is_rate_offer(identifier: u8, rate: u8) -> bool
    ensures { result ≡ (eqb identifier 0x01 && (leb 1 rate && leb rate 5)) }
{
    (identifier == 0x01) & ((1 <= rate) & (rate <= 5))
}

// Link control: 87 01 01 and a rate.
fn on_rate_offer(phase: Phase, data: &[u8]) -> Reaction
    ensures { result ≡ on_rate_offer phase «data».now }
{
    if data.len() != 4 {
        return Reaction::Negative(LINK_CONTROL, LENGTH_WRONG);
    }
    let rate = data[3];
    if !is_rate_offer(data[2], rate) {
        return Reaction::Negative(LINK_CONTROL, OUT_OF_RANGE);
    }
    if !phase.in_session() {
        return Reaction::Negative(LINK_CONTROL, CONDITIONS_WRONG);
    }
    Reaction::RateOffered(rate)
}

fn may_change_rate(phase: Phase, pending: u8) -> bool
    ensures { result ≡ (in_session phase && not (eqb pending 0)) }
{
    phase.in_session() & (pending != 0)
}

// Link control: 87 02 03.
fn on_rate_change(phase: Phase, pending: u8, data: &[u8]) -> Reaction
    ensures { result ≡ on_rate_change phase pending «data».now }
{
    if data.len() != 3 {
        return Reaction::Negative(LINK_CONTROL, LENGTH_WRONG);
    }
    if data[2] != 0x03 {
        return Reaction::Negative(LINK_CONTROL, OUT_OF_RANGE);
    }
    if !may_change_rate(phase, pending) {
        return Reaction::Negative(LINK_CONTROL, CONDITIONS_WRONG);
    }
    Reaction::RateChanged
}

// The second byte of link control is its sub function.
#[tactic(auto, unfolding(crate::specs::Services::on_link_control))]
pub(crate) fn on_link_control(phase: Phase, pending: u8, data: &[u8]) -> Reaction
    ensures { result ≡ on_link_control phase pending «data».now }
{
    if data.len() < 3 {
        return Reaction::Negative(LINK_CONTROL, LENGTH_WRONG);
    }
    match data[1] {
        0x01 => on_rate_offer(phase, data),
        0x02 => on_rate_change(phase, pending, data),
        _ => Reaction::Negative(LINK_CONTROL, SUB_FUNCTION_UNKNOWN),
    }
}

fn may_upload(phase: Phase) -> bool
    ensures { result ≡ (in_session phase || is_granted phase) }
{
    phase.in_session() | phase.is_granted()
}

// Request upload: 35, five 00, four FF.
pub(crate) fn on_upload(phase: Phase, data: &[u8]) -> Reaction
    ensures { result ≡ on_upload phase «data».now }
{
    if data.len() != 10 {
        return Reaction::Negative(REQUEST_UPLOAD, LENGTH_WRONG);
    }
    if !octets::buffer::same(data, &frame::messages::UPLOAD) {
        return Reaction::Negative(REQUEST_UPLOAD, OUT_OF_RANGE);
    }
    if !may_upload(phase) {
        return Reaction::Negative(REQUEST_UPLOAD, CONDITIONS_WRONG);
    }
    Reaction::UploadGranted
}

// Transfer exit: 37.
pub(crate) fn on_exit(phase: Phase, data: &[u8]) -> Reaction
    requires { get_or «data».now 0 0 ≡ 0x37 }
    ensures { result ≡ on_exit phase «data».now }
{
    if !octets::buffer::same(data, &frame::messages::EXIT) {
        return Reaction::Negative(TRANSFER_EXIT, LENGTH_WRONG);
    }
    if !phase.is_granted() {
        return Reaction::Negative(TRANSFER_EXIT, CONDITIONS_WRONG);
    }
    Reaction::TransferExited
}

// Stop communication: 82.
pub(crate) fn on_stop(data: &[u8]) -> Reaction
    requires { get_or «data».now 0 0 ≡ 0x82 }
    ensures { result ≡ on_stop «data».now }
{
    if !octets::buffer::same(data, &frame::messages::STOP) {
        return Reaction::Negative(STOP_COMMUNICATION, LENGTH_WRONG);
    }
    Reaction::CommunicationStopped
}
