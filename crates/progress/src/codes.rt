// Requests as numbers, as hosts give them and packed states hold them.
ghost use Rattle.std.specs.Prelude.{◌≡◌};
ghost use Rattle.octets.specs.declared.refusal.Refusal.TheVariants as refusals;
ghost use Rattle.progress.specs.Codes.{request_byte, Requests};

use crate::Request;
use octets::refusal::Refusal;
use std::error::Error;
use std::fmt;

// A number of no request: it is above 5.
#[derive(Clone, Copy, Debug, PartialEq, Eq, Hash)]
pub struct UnknownRequest(pub u8);

impl From<Request> for u8 {
    ghost from_gives = { λ request byte. byte ≡ request_byte request };

    fn from(request: Request) -> u8 {
        match request {
            Request::Start => 0,
            Request::Session => 1,
            Request::Upload => 2,
            Request::Exit => 3,
            Request::Stop => 4,
            Request::Transfer => 5,
        }
    }
}

impl TryFrom<u8> for Request {
    type Error = UnknownRequest;

    ghost try_from_gives = { Requests };

    fn try_from(byte: u8) -> Result<Self, UnknownRequest> {
        match byte {
            0 => Ok(Request::Start),
            1 => Ok(Request::Session),
            2 => Ok(Request::Upload),
            3 => Ok(Request::Exit),
            4 => Ok(Request::Stop),
            5 => Ok(Request::Transfer),
            _ => Err(UnknownRequest(byte)),
        }
    }
}

// "12: answer or request not in the table"
impl From<UnknownRequest> for Refusal {
    ghost from_gives = { λ _ refusal. refusal ≡ refusals.NotInTable };

    fn from(_unknown: UnknownRequest) -> Refusal {
        Refusal::NotInTable
    }
}

impl fmt::Display for UnknownRequest {
    fn fmt<W: fmt::Write>(&self, f: &mut fmt::Formatter<W>) -> fmt::Result {
        write!(f, "no request has number {}", self.0)
    }
}

impl Error for UnknownRequest {}
