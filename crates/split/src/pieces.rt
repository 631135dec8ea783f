// How many sub messages an answer takes, and which of its data bytes each one carries.
ghost use Rattle.std.specs.Prelude.{◌≡◌};
ghost use Rattle.octets.specs.Numbers.{judgement, placed, counted};
ghost use Rattle.split.specs.Split.{is_split, count_of, sub_messages, piece_number, piece_place};

use crate::SubMessage;
use octets::Part;
use octets::refusal::Refusal;

// The most data bytes of an answer.
pub const DATA_MOST: usize = 59998;

// The most data bytes that go in one frame unsplit.
pub const SINGLE_MOST: usize = 252;

// The data bytes of a full sub message.
pub const PIECE: usize = 251;

// Whether an answer with `len` data bytes is split.
pub fn is_split(len: usize) -> bool
    ensures { result ≡ is_split len }
{
    SINGLE_MOST < len
}

// How many sub messages `len` data bytes take, whatever their bound.
pub fn count_of(len: usize) -> usize
    ensures { result ≡ count_of len }
{
    if is_split(len) { len / PIECE + 1 } else { 1 }
}

// How many sub messages an answer with `len` data bytes takes; 8 for over 59,998 bytes.
pub fn sub_messages(len: usize) -> Result<usize, Refusal>
    ensures { counted result ≡ sub_messages len }
{
    if DATA_MOST < len {
        return Err(Refusal::OverBound);
    }
    Ok(count_of(len))
}

fn check_piece(len: usize, message: usize) -> Result<(), Refusal>
    ensures { judgement result ≡ piece_number len message }
{
    if DATA_MOST < len {
        return Err(Refusal::OverBound);
    }
    if message < 1 {
        return Err(Refusal::NoSuch);
    }
    if count_of(len) < message {
        return Err(Refusal::NoSuch);
    }
    Ok(())
}

// Which of `len` data bytes the sub message carries: 8, then 10 where there is no such sub message.
pub fn locate(len: usize, message: SubMessage) -> Result<Part, Refusal>
    ensures { placed result ≡ piece_place len message.0 }
{
    let k = message.0 as usize;
    check_piece(len, k)?;
    if !is_split(len) {
        return Ok(Part { start: 0, len });
    }
    let start = (k - 1) * PIECE;
    if len - start < PIECE {
        return Ok(Part {
            start,
            len: len - start,
        });
    }
    Ok(Part { start, len: PIECE })
}
