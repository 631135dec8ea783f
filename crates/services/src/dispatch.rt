// Which service the data of a frame asks for.
ghost use Rattle.std.specs.Prelude.{◌≡◌};
ghost use Rattle.services.specs.Services.{on_data};

use crate::{Reaction, UnitState};
use octets::Place;
use octets::wire::{
    ACKNOWLEDGE, DIAGNOSTIC_SESSION, LINK_CONTROL, REQUEST_UPLOAD, SERVICE_UNKNOWN,
    STOP_COMMUNICATION, TRANSFER_DATA, TRANSFER_EXIT,
};

// The service by its SID, in the order of document 01's table. `sent` and `asked` are the places of the answer that is
// being sent and of the one that is asked for.
#[tactic(auto, unfolding(crate::specs::Services::on_data))]
pub fn on_data(state: UnitState, sent: Place, asked: Place, data: &[u8]) -> Reaction
    ensures { result ≡ on_data sent asked state «data».now }
{
    let phase = state.phase;
    let sid = octets::byte::byte_at(data, 0);
    match sid {
        DIAGNOSTIC_SESSION => crate::session::on_session(data),
        LINK_CONTROL => crate::session::on_link_control(phase, state.pending, data),
        REQUEST_UPLOAD => crate::session::on_upload(phase, data),
        TRANSFER_DATA => crate::transfer::on_transfer(state.kind, phase, asked, data),
        TRANSFER_EXIT => crate::session::on_exit(phase, data),
        STOP_COMMUNICATION => crate::session::on_stop(data),
        ACKNOWLEDGE => crate::transfer::on_acknowledge(phase, sent, data),
        _ => Reaction::Negative(sid, SERVICE_UNKNOWN),
    }
}
