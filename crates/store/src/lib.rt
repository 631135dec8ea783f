// The bench store (document 01, Bench store and stream; DDP_034): its layout, its check, and reading it.
#![tactic(auto)]

pub mod answer;
pub mod check;
pub mod layout;
pub mod read;

ghost use Rattle.std.specs.Prelude.{◌≡◌};
ghost use Rattle.store.specs.Check.{fault_of};

use catalog::AnswerName;
use octets::Part;
use octets::refusal::Refusal;

// The most answers that a store holds, and the most bytes of its stream.
pub const ANSWERS_MOST: usize = 64;

pub const STREAM_MOST: usize = 60000;

// What is broken in a store (document 02, Req 06), and where: the header's count of answers, 0 where the buffer is too
// short for a header, or the entry from 0.
#[derive(Clone, Copy, Debug, PartialEq, Eq)]
pub struct Broken {
    pub refusal: Refusal,
    pub position: usize,
}

// The same for a host. Number 0 and position 0: nothing.
#[repr(C)]
#[derive(Clone, Copy, Debug, PartialEq, Eq, Hash)]
pub struct Fault {
    pub number: u8,
    pub position: usize,
}

impl From<Broken> for Refusal {
    ghost from_gives = { λ broken refusal. refusal ≡ broken.refusal };

    fn from(broken: Broken) -> Refusal {
        broken.refusal
    }
}

impl From<Result<(), Broken>> for Fault {
    ghost from_gives = { λ checked fault. fault ≡ fault_of checked };

    fn from(checked: Result<(), Broken>) -> Fault {
        match checked {
            Ok(()) => Fault {
                number: 0,
                position: 0,
            },
            Err(broken) => Fault {
                number: broken.refusal.into(),
                position: broken.position,
            },
        }
    }
}

// Where two answers lie, none where one is not held.
#[derive(Clone, Copy, Debug, PartialEq, Eq, Hash)]
pub struct TwoParts {
    pub first: Option<Part>,
    pub second: Option<Part>,
}

// An answer that a store holds: its name and its part of the buffer.
#[derive(Clone, Copy, Debug, PartialEq, Eq, Hash)]
pub struct HeldAnswer {
    pub name: AnswerName,
    pub part: Part,
}
