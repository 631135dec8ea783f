// Why a call is refused, and what of that a host is given: the house numbers of document 01, and from 13 on those of
// document 02.
ghost use Rattle.std.specs.Prelude.{◌≡◌};
ghost use Rattle.octets.specs.Numbers.{number, judgement, written, placed, counted};

use crate::{Counted, Part, Place, Written};
use std::error::Error;
use std::fmt;

// Each refusal is declared with its number. 0 stands for "not refused"; 5 is given by no call.
#[derive(Clone, Copy, Debug, PartialEq, Eq, Hash)]
pub enum Refusal {
    FrameCount = 1,
    FormatOrAddress = 2,
    ChecksumWrong = 3,
    BufferShort = 4,
    NotHeld = 6,
    AlreadyHeld = 7,
    OverBound = 8,
    NotArrays = 9,
    NoSuch = 10,
    OutOfTurn = 11,
    NotInTable = 12,
    // what is broken in a store (Req 06)
    StoreShort = 13,
    StoreBounds = 14,
    StoreEntry = 15,
    StoreAnswer = 16,
    StoreTwice = 17,
}

impl From<Refusal> for u8 {
    ghost from_gives = { λ refusal n. n ≡ number refusal };

    fn from(refusal: Refusal) -> u8 {
        refusal as u8
    }
}

// The number that a host is given of a call that only judges.
pub fn number_of(judged: Result<(), Refusal>) -> u8
    ensures { result ≡ judgement judged }
{
    match judged {
        Ok(()) => 0,
        Err(refusal) => refusal.into(),
    }
}

impl fmt::Display for Refusal {
    fn fmt<W: fmt::Write>(&self, f: &mut fmt::Formatter<W>) -> fmt::Result {
        f.write_str(match self {
            Refusal::FrameCount => "wrong count of bytes in a frame",
            Refusal::FormatOrAddress => "wrong format or address",
            Refusal::ChecksumWrong => "wrong checksum",
            Refusal::BufferShort => "buffer too short",
            Refusal::NotHeld => "answer not held",
            Refusal::AlreadyHeld => "answer already held",
            Refusal::OverBound => "over a bound of the store or of splitting",
            Refusal::NotArrays => "no run of record arrays",
            Refusal::NoSuch => "no such array, record or sub message",
            Refusal::OutOfTurn => "impossible state, or a call out of turn",
            Refusal::NotInTable =>
                "not in the table of transfer types, or a day that may not be named",
            Refusal::StoreShort => "store shorter than its header says",
            Refusal::StoreBounds => "store over its bounds",
            Refusal::StoreEntry => "wrong entry in a store",
            Refusal::StoreAnswer => "wrong answer in a store",
            Refusal::StoreTwice => "the same answer twice in a store",
        })
    }
}

impl Error for Refusal {}

impl From<Result<usize, Refusal>> for Written {
    ghost from_gives = { λ given w. w ≡ written given };

    fn from(given: Result<usize, Refusal>) -> Written {
        match given {
            Ok(len) => Written { number: 0, len },
            Err(refusal) => Written {
                number: refusal.into(),
                len: 0,
            },
        }
    }
}

impl From<Result<Part, Refusal>> for Place {
    ghost from_gives = { λ given place. place ≡ placed given };

    fn from(given: Result<Part, Refusal>) -> Place {
        match given {
            Ok(part) => Place {
                number: 0,
                start: part.start,
                len: part.len,
            },
            Err(refusal) => crate::refused_place(refusal.into()),
        }
    }
}

impl From<Result<usize, Refusal>> for Counted {
    ghost from_gives = { λ given c. c ≡ counted given };

    fn from(given: Result<usize, Refusal>) -> Counted {
        match given {
            Ok(count) => Counted { number: 0, count },
            Err(refusal) => Counted {
                number: refusal.into(),
                count: 0,
            },
        }
    }
}
