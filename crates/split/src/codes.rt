// From sub message numbers to acknowledge codes (DDP_017).
ghost use Rattle.std.specs.Prelude.{◌≡◌};
ghost use Rattle.split.specs.Codes.{next_of, acknowledge_of, repeat_of, stop_code};

use crate::{AckCode, SubMessage};

// The sub message behind this one.
pub fn next(last: SubMessage) -> SubMessage
    ensures { result ≡ next_of last }
{
    SubMessage(last.0.wrapping_add(1))
}

// Acknowledges this sub message and asks for the next one.
pub fn acknowledge(last: SubMessage) -> AckCode
    ensures { result ≡ acknowledge_of last }
{
    AckCode(next(last).0)
}

// Asks for this sub message again.
pub fn repeat(last: SubMessage) -> AckCode
    ensures { result ≡ repeat_of last }
{
    AckCode(last.0)
}

// Ends the transfer of the answer.
pub fn stop() -> AckCode
    ensures { result ≡ stop_code }
{
    AckCode(0xFFFF)
}
