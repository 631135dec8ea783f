// The calls on frames, with both addresses as given: two equal ones are 2 before any other check (document 02, Req 05).
ghost use Rattle.std.specs.Prelude.{◌≡◌, length};
ghost use Rattle.octets.specs.Numbers.{judgement, placed, written};
ghost use Rattle.frame.specs.Given.{judged_given, data_place_given, data_given, write_result_given, write_out_given};

use crate::{Addresses, End};
use octets::Part;
use octets::refusal::Refusal;

// Judges a frame that arrives at `end`: refused by 1, 2 or 3.
pub fn check(addresses: Addresses, frame: &[u8], end: End) -> Result<(), Refusal>
    ensures { judgement result ≡ judged_given addresses «end» frame.now }
{
    addresses.differ()?;
    crate::check::judge(addresses, frame, end)
}

// Where the data of a good frame lies.
pub fn locate(addresses: Addresses, frame: &[u8], end: End) -> Result<Part, Refusal>
    ensures { placed result ≡ data_place_given addresses «end» frame.now }
{
    addresses.differ()?;
    crate::check::locate(addresses, frame, end)
}

// The data of a good frame, as that part of it; empty where `check` refuses it.
pub fn data_of(addresses: Addresses, frame: &[u8], end: End) -> &[u8]
    ensures { result.now ≡ data_given addresses «end» frame.now }
{
    octets::buffer::found(frame, locate(addresses, frame, end))
}

// Writes the frame to `end` with this data at the front of `out` and gives its length: 1 for no data or over 255 bytes,
// 4 where `out` is shorter than the frame.
pub fn write(addresses: Addresses, data: &[u8], end: End, out: &mut [u8]) -> Result<usize, Refusal>
    ensures value { written result ≡ write_result_given addresses «data».now (length out.old) }
    ensures out_after { out.new
        ≡ write_out_given addresses «end» «data».now out.old }
{
    addresses.differ()?; // before 1 and 4
    crate::write::write(addresses, data, end, out)
}
