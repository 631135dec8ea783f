// The unit's state and its services (document 01, The unit): what each makes of the data of a good frame, and what
// becomes of the state. Of the store they know the places of two answers alone.
#![tactic(auto)]

pub mod after;
pub mod dispatch;
mod session;
pub mod state;
pub mod transfer;

use catalog::AnswerName;
use octets::Part;
use split::SubMessage;

// Closed, started, session, granted, or sending: which answer, and the last number sent.
#[derive(Clone, Copy, Debug, PartialEq, Eq, Hash)]
pub enum Phase {
    Closed,
    Started,
    Session,
    Granted,
    Sending(AnswerName, SubMessage),
}

// The phase lies in the state beside kind, baud rate (1 to 5) and a pending rate, 0 for none.
#[derive(Clone, Copy, Debug, PartialEq, Eq, Hash)]
pub struct UnitState {
    pub kind: u8,
    pub rate: u8,
    pub pending: u8,
    pub phase: Phase,
}

// What the unit does at a good frame: what it answers, and what becomes of its state.
#[derive(Clone, Copy, Debug, PartialEq, Eq, Hash)]
pub enum Reaction {
    // closed, and no start communication: silence
    Ignored,
    CommunicationStarted,
    SessionOpened,
    RateOffered(u8),
    RateChanged,
    UploadGranted,
    // this sub message of the answer that is this part of the store
    AnswerSent(AnswerName, SubMessage, Part),
    // code FFFF: silence
    AnswerStopped,
    TransferExited,
    CommunicationStopped,
    // 7F, SID, code
    Negative(u8, u8),
}
