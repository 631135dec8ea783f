// Transfer types by kind of unit (document 01, Transfer types; DDP_011), and the names of answers.
#![tactic(auto)]

pub mod kind;

ghost use Rattle.std.specs.Prelude.{◌&&◌, ◌≡◌};
ghost use Rattle.octets.specs.Numbers.{judgement};
ghost use Rattle.catalog.specs.Kinds.{kind_number};
ghost use Rattle.catalog.specs.Table.{trtp_of, known_to, listed, in_row, is_activities};
ghost use Rattle.catalog.specs.Name.{first_second, day_named, name_number, day_stored, rounded, same_answer};

use kind::Kind;
use octets::refusal::Refusal;

// The numbers of the kinds of unit, and how many kinds there are.
pub const GENERATION_1: u8 = Kind::Generation1 as u8;

pub const GENERATION_2_VERSION_1: u8 = Kind::Generation2Version1 as u8;

pub const GENERATION_2_VERSION_2: u8 = Kind::Generation2Version2 as u8;

pub const KINDS: u8 = 3;

// The rows of the table, and the one of activities.
const TRANSFER_TYPES: u8 = 6;

const ACTIVITIES: u8 = 2;

// Where a kind has no such transfer type. FF is no TRTP, so an absent entry never looks present.
pub const ABSENT: u8 = 0xFF;

// TRTP by transfer type (rows) and kind (columns), as document 01 prints it.
const TRTP: [u8; 18] = [
    // interface version
    0xFF, 0xFF, 0x00,
    // overview
    0x01, 0x21, 0x31,
    // activities of a day
    0x02, 0x22, 0x32,
    // events and faults
    0x03, 0x23, 0x33,
    // detailed speed
    0x04, 0x24, 0x24,
    // technical data
    0x05, 0x25, 0x35,
];

// An answer's name: which data, and for activities any second of the day.
#[derive(Clone, Copy, Debug, PartialEq, Eq, Hash)]
pub struct AnswerName {
    pub trep: u8,
    pub day: u32,
}

// A name that no answer has.
pub const NO_ANSWER: AnswerName = AnswerName { trep: 0xFF, day: 0 };

// The TRTP of the transfer type in this row at a kind, FF where there is none.
fn entry(row: u8, kind: Kind) -> u8
    ensures { result ≡ trtp_of row (kind_number kind) }
{
    if row >= TRANSFER_TYPES {
        return ABSENT;
    }
    let column = u8::from(kind);
    let i = (row as usize) * 3 + (column as usize);
    TRTP[i]
}

// The same for the number of a kind, FF for a number of none too.
pub fn trtp(row: u8, kind: u8) -> u8
    ensures { result ≡ trtp_of row kind }
{
    match Kind::try_from(kind) {
        Ok(kind) => entry(row, kind),
        Err(_) => ABSENT,
    }
}

// Whether a unit of this kind knows the TRTP. Every TRTP of the table has its row as low digit, so it is looked for
// there alone.
pub fn known_to(kind: u8, byte: u8) -> bool
    ensures { result ≡ known_to kind byte }
{
    if byte == ABSENT {
        return false;
    }
    trtp(byte % 16, kind) == byte
}

// Whether the byte stands in this row, at any kind.
fn in_row(row: u8, byte: u8) -> bool
    ensures { result ≡ in_row byte row }
{
    (entry(row, Kind::Generation1) == byte)
        | (entry(row, Kind::Generation2Version1) == byte)
        | (entry(row, Kind::Generation2Version2) == byte)
}

// Whether any kind knows the TRTP. With every row named, the compiler makes one test of bits of the whole table
// (docs/PERFORMANCE.md).
pub fn is_listed(byte: u8) -> bool
    ensures { result ≡ listed byte }
{
    if byte == ABSENT {
        return false;
    }
    in_row(0, byte)
        | in_row(1, byte)
        | in_row(2, byte)
        | in_row(3, byte)
        | in_row(4, byte)
        | in_row(5, byte)
}

// Whether it is a TRTP of activities, which carry a day.
pub fn is_activities(byte: u8) -> bool
    ensures { result ≡ is_activities byte }
{
    if byte == ABSENT {
        return false;
    }
    in_row(ACTIVITIES, byte)
}

// The first second of the day that a second falls in.
pub fn first_second(second: u32) -> u32
    ensures { result ≡ first_second second }
{
    second - second % 86400
}

// Whether this second may be named beside the TREP: any for activities, else zero alone.
fn day_named(name: AnswerName) -> bool
    ensures { result ≡ day_named name }
{
    is_activities(name.trep) | (name.day == 0)
}

// Number 12's rule for a name.
pub fn check_name(name: AnswerName) -> Result<(), Refusal>
    ensures { judgement result ≡ name_number name }
{
    if !is_listed(name.trep) {
        return Err(Refusal::NotInTable);
    }
    if !day_named(name) {
        return Err(Refusal::NotInTable);
    }
    Ok(())
}

// Whether this day may stand in a store's entry: a multiple of 86,400 for activities, else zero. By its first second,
// since the compiler makes a shorter store check of that than of the remainder (docs/PERFORMANCE.md).
fn day_stored(name: AnswerName) -> bool
    ensures { result ≡ day_stored name }
{
    let day = name.day;
    if is_activities(name.trep) {
        first_second(day) == day
    } else {
        day == 0
    }
}

// Whether an entry may have this name: its TREP is listed, and its day may stand there.
pub fn name_stored(name: AnswerName) -> bool
    ensures { result ≡ (listed name.trep && day_stored name) }
{
    if !is_listed(name.trep) {
        return false;
    }
    day_stored(name)
}

// The name under which a store keeps the answer: activities under the first second of the day.
pub fn rounded(name: AnswerName) -> AnswerName
    ensures { result ≡ rounded name }
{
    let trep = name.trep;
    if is_activities(trep) {
        return AnswerName {
            trep,
            day: first_second(name.day),
        };
    }
    name
}

// Whether two names of a store mean the same answer.
pub fn same_answer(a: AnswerName, b: AnswerName) -> bool
    ensures { result ≡ same_answer a b }
{
    (a.trep == b.trep) & (a.day == b.day)
}
