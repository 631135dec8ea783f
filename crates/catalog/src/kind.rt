// The kinds of unit, as numbers in states and in the calls for hosts.
ghost use Rattle.std.specs.Prelude.{◌≡◌};
ghost use Rattle.octets.specs.declared.refusal.Refusal.TheVariants as refusals;
ghost use Rattle.catalog.specs.Kinds.{kind_number, Kinds};

use octets::refusal::Refusal;
use std::error::Error;
use std::fmt;

// In the order of the table's columns.
#[derive(Clone, Copy, Debug, PartialEq, Eq, Hash)]
pub enum Kind {
    Generation1,
    Generation2Version1,
    Generation2Version2,
}

// A number of no kind: it is above 2.
#[derive(Clone, Copy, Debug, PartialEq, Eq, Hash)]
pub struct UnknownKind(pub u8);

impl From<Kind> for u8 {
    ghost from_gives = { λ kind n. n ≡ kind_number kind };

    fn from(kind: Kind) -> u8 {
        kind as u8
    }
}

impl TryFrom<u8> for Kind {
    type Error = UnknownKind;

    ghost try_from_gives = { Kinds };

    fn try_from(n: u8) -> Result<Self, UnknownKind> {
        match n {
            0 => Ok(Kind::Generation1),
            1 => Ok(Kind::Generation2Version1),
            2 => Ok(Kind::Generation2Version2),
            _ => Err(UnknownKind(n)),
        }
    }
}

// "A state is impossible if kind or a rate is outside its range": 11
impl From<UnknownKind> for Refusal {
    ghost from_gives = { λ _ refusal. refusal ≡ refusals.OutOfTurn };

    fn from(_unknown: UnknownKind) -> Refusal {
        Refusal::OutOfTurn
    }
}

impl fmt::Display for UnknownKind {
    fn fmt<W: fmt::Write>(&self, f: &mut fmt::Formatter<W>) -> fmt::Result {
        write!(f, "no kind of unit has number {}", self.0)
    }
}

impl Error for UnknownKind {}
