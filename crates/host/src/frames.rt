// Judging, reading and writing frames. A flag says which end: true is the tool, false the unit. The addresses are those
// given, or the lab's.
ghost use Rattle.std.specs.Prelude.{◌≡◌, length};
ghost use Rattle.octets.specs.Sum.{checksum_of};
ghost use Rattle.frame.specs.Frame.{lab};
ghost use Rattle.frame.specs.Given.{judged_given, data_place_given, write_result_given, write_out_given};
ghost use Rattle.frame.specs.Front.{frame_length};
ghost use Rattle.host.specs.Ends.{end_of, given};

use frame::{Addresses, End, LAB};
use octets::{Place, Written};

fn end_of(tool: bool) -> End
    ensures { result ≡ end_of tool }
{
    if tool { End::Tool } else { End::Unit }
}

// The sum of the bytes modulo 256, as frames carry it.
#[unsafe(no_mangle)]
pub extern "C" fn tacho_checksum(bytes: &[u8]) -> u8
    ensures { result ≡ checksum_of bytes.now }
{
    octets::sum::checksum(bytes)
}

// The length of the frame at the front of the bytes received so far, 0 while more are needed to tell.
#[unsafe(no_mangle)]
pub extern "C" fn tacho_frame_length(received: &[u8]) -> usize
    ensures { result ≡ frame_length received.now }
{
    frame::front::frame_length(received).unwrap_or(0)
}

// The number of a frame judged at that end: 0 where it is good, else 1, 2 or 3. Equal addresses are 2 before any other
// check, here and in every call with them.
#[unsafe(no_mangle)]
pub extern "C" fn tacho_frame_check_at(unit: u8, tool: u8, frame: &[u8], at_tool: bool) -> u8
    ensures { result ≡ judged_given (given unit tool) (end_of at_tool) frame.now }
{
    octets::refusal::number_of(frame::call::check(Addresses { unit, tool }, frame, end_of(at_tool)))
}

#[unsafe(no_mangle)]
pub extern "C" fn tacho_frame_check(frame: &[u8], at_tool: bool) -> u8
    ensures { result ≡ judged_given lab (end_of at_tool) frame.now }
{
    octets::refusal::number_of(frame::call::check(LAB, frame, end_of(at_tool)))
}

// Where the data of a good frame lies.
#[unsafe(no_mangle)]
pub extern "C" fn tacho_frame_data_at(unit: u8, tool: u8, frame: &[u8], at_tool: bool) -> Place
    ensures { result ≡ data_place_given (given unit tool) (end_of at_tool) frame.now }
{
    frame::call::locate(Addresses { unit, tool }, frame, end_of(at_tool)).into()
}

#[unsafe(no_mangle)]
pub extern "C" fn tacho_frame_data(frame: &[u8], at_tool: bool) -> Place
    ensures { result ≡ data_place_given lab (end_of at_tool) frame.now }
{
    frame::call::locate(LAB, frame, end_of(at_tool)).into()
}

// Writes the frame to that end with this data.
#[unsafe(no_mangle)]
pub extern "C" fn tacho_frame_write_at(
    unit: u8,
    tool: u8,
    data: &[u8],
    to_tool: bool,
    out: &mut [u8],
) -> Written
    ensures value { result ≡ write_result_given (given unit tool) «data».now (length out.old) }
    ensures out_after { out.new
        ≡ write_out_given (given unit tool) (end_of to_tool) «data».now out.old }
{
    frame::call::write(Addresses { unit, tool }, data, end_of(to_tool), out).into()
}

#[unsafe(no_mangle)]
pub extern "C" fn tacho_frame_write(data: &[u8], to_tool: bool, out: &mut [u8]) -> Written
    ensures value { result ≡ write_result_given lab «data».now (length out.old) }
    ensures out_after { out.new
        ≡ write_out_given lab (end_of to_tool) «data».now out.old }
{
    frame::call::write(LAB, data, end_of(to_tool), out).into()
}
