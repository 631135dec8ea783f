// Frames of the download protocol (document 01, Frames; DDP_002): judging, reading and writing them. The calls are in
// `call`, with both addresses as given (document 02, Req 05); `check` and `write` are what stands behind their test of
// the two, for crates whose own calls make it.
#![tactic(auto)]

ghost use Rattle.std.specs.Prelude.{◌≡◌};
ghost use Rattle.octets.specs.Order.{unless};
ghost use Rattle.octets.specs.Numbers.{done, format_or_address, judgement};
ghost use Rattle.frame.specs.Given.{different};

use octets::refusal::Refusal;

pub mod call;
pub mod check;
pub mod front;
pub mod messages;
pub mod write;

// The two ends of the line.
#[derive(Clone, Copy, Debug, PartialEq, Eq, Hash)]
pub enum End {
    Unit,
    Tool,
}

// The addresses of both ends.
#[derive(Clone, Copy, Debug, PartialEq, Eq, Hash)]
pub struct Addresses {
    pub unit: u8,
    pub tool: u8,
}

impl Addresses {
    // Two equal ones are 2 in every call with them (document 02, Req 05).
    pub fn differ(self) -> Result<(), Refusal>
        ensures { judgement result ≡ unless (different self) format_or_address done }
    {
        if self.unit == self.tool {
            return Err(Refusal::FormatOrAddress);
        }
        Ok(())
    }
}

// The first byte of a frame: the general form, and the one without LEN, of start communication alone.
pub(crate) const GENERAL: u8 = 0x80;

pub const WITHOUT_LEN: u8 = 0x81;

// The lab's. Unit address EE, tool address F0.
pub const LAB: Addresses = Addresses {
    unit: 0xEE,
    tool: 0xF0,
};
