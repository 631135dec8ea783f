// Answers in one frame or in several sub messages (document 01, Splitting; DDP_003, DDP_004), and their joining. The
// call that writes one, with both addresses as given (document 02, Req 05), is in `call`; `write` is what stands behind
// its test of the two.
#![tactic(auto)]

pub mod call;
pub mod codes;
pub mod join;
pub mod pieces;
pub mod write;

// The number of a sub message, from 1.
#[derive(Clone, Copy, Debug, PartialEq, Eq, Hash)]
pub struct SubMessage(pub u16);

// The code of an acknowledgement (DDP_017). Never a sub message number: the ways from one to the other are in `codes`.
#[derive(Clone, Copy, Debug, PartialEq, Eq, Hash)]
pub struct AckCode(pub u16);

// What the data of a good frame is to a tool that expects a sub message of a TREP.
#[derive(Clone, Copy, Debug, PartialEq, Eq, Hash)]
pub enum Received {
    // the whole answer, unsplit
    Whole,
    // the sub message expected, with more to follow
    Full,
    // the sub message expected, and the last one
    Last,
    // a sub message with a number above the one expected
    Above,
    // anything else
    Other,
}
