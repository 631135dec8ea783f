// Judging, reading and writing frames, for C.
ghost use Rattle.std.specs.Prelude.{◌≡◌, length};
ghost use Rattle.octets.specs.Sum.{checksum_of};
ghost use Rattle.frame.specs.Frame.{lab};
ghost use Rattle.frame.specs.Given.{judged_given, data_place_given, write_result_given, write_out_given};
ghost use Rattle.frame.specs.Front.{frame_length};
ghost use Rattle.host.specs.Ends.{end_of, given};

use octets::{Place, Written};

#[unsafe(no_mangle)]
pub extern "C" fn tacho_checksum(bytes: &[u8]) -> u8
    ensures { result ≡ checksum_of bytes.now }
{
    host::frames::tacho_checksum(bytes)
}

#[unsafe(no_mangle)]
pub extern "C" fn tacho_frame_length(received: &[u8]) -> usize
    ensures { result ≡ frame_length received.now }
{
    host::frames::tacho_frame_length(received)
}

#[unsafe(no_mangle)]
pub extern "C" fn tacho_frame_check_at(unit: u8, tool: u8, frame: &[u8], at_tool: bool) -> u8
    ensures { result ≡ judged_given (given unit tool) (end_of at_tool) frame.now }
{
    host::frames::tacho_frame_check_at(unit, tool, frame, at_tool)
}

#[unsafe(no_mangle)]
pub extern "C" fn tacho_frame_check(frame: &[u8], at_tool: bool) -> u8
    ensures { result ≡ judged_given lab (end_of at_tool) frame.now }
{
    host::frames::tacho_frame_check(frame, at_tool)
}

#[unsafe(no_mangle)]
pub extern "C" fn tacho_frame_data_at(unit: u8, tool: u8, frame: &[u8], at_tool: bool) -> Place
    ensures { result ≡ data_place_given (given unit tool) (end_of at_tool) frame.now }
{
    host::frames::tacho_frame_data_at(unit, tool, frame, at_tool)
}

#[unsafe(no_mangle)]
pub extern "C" fn tacho_frame_data(frame: &[u8], at_tool: bool) -> Place
    ensures { result ≡ data_place_given lab (end_of at_tool) frame.now }
{
    host::frames::tacho_frame_data(frame, at_tool)
}

#[unsafe(no_mangle)]
pub extern "C" fn tacho_frame_write_at(
    unit: u8,
    tool: u8,
    data: &[u8],
    to_tool: bool,
    out: &mut [u8],
) -> Written
    ensures value { result ≡ write_result_given (given unit tool) «data».now (length out.old) }
    ensures out_after { out.new
        ≡ write_out_given (given unit tool) (end_of to_tool) «data».now out.old }
{
    host::frames::tacho_frame_write_at(unit, tool, data, to_tool, out)
}

#[unsafe(no_mangle)]
pub extern "C" fn tacho_frame_write(data: &[u8], to_tool: bool, out: &mut [u8]) -> Written
    ensures value { result ≡ write_result_given lab «data».now (length out.old) }
    ensures out_after { out.new
        ≡ write_out_given lab (end_of to_tool) «data».now out.old }
{
    host::frames::tacho_frame_write(data, to_tool, out)
}
