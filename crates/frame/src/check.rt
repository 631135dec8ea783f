// Judging a frame at the end that it arrives at, and where its data lies, for any two addresses.
ghost use Rattle.std.specs.Prelude.{◌≡◌, ◌≤◌, length};
ghost use Rattle.octets.specs.Numbers.{judgement, placed};
ghost use Rattle.frame.specs.Frame.{target, source, known_format, count_right, start_right, form_right, addressed};
ghost use Rattle.frame.specs.Frame.{checksum_right, judged, data_start, data_length, data_place};

use crate::{Addresses, End, GENERAL, WITHOUT_LEN};
use octets::Part;
use octets::refusal::Refusal;
use octets::wire::START_COMMUNICATION;

// The address that a frame arriving at `end` goes to.
pub(crate) fn target_of(addresses: Addresses, end: End) -> u8
    ensures { result ≡ target addresses «end» }
{
    match end {
        End::Unit => addresses.unit,
        End::Tool => addresses.tool,
    }
}

// The address that it comes from.
pub(crate) fn source_of(addresses: Addresses, end: End) -> u8
    ensures { result ≡ source addresses «end» }
{
    match end {
        End::Unit => addresses.tool,
        End::Tool => addresses.unit,
    }
}

fn known_format(first: u8) -> bool
    ensures { result ≡ known_format first }
{
    (first == GENERAL) | (first == WITHOUT_LEN)
}

// A frame that is long enough for every field but the data: the five bytes of the start have no LEN, but the SID there.
#[derive(Clone, Copy)]
struct Fields<'a> {
    frame: &'a [u8],
    ghost five: { 5 ≤ length frame.now },
}

impl<'a> Fields<'a> {
    fn count_right(self) -> bool
        ensures { result ≡ count_right self.entry.frame.now }
    {
        let frame = self.frame;
        let len = frame[3];
        if frame[0] == WITHOUT_LEN {
            return frame.len() == 5;
        }
        if len == 0 {
            return false;
        }
        frame.len() == usize::from(len) + 5
    }

    fn start_right(self, end: End) -> bool
        ensures { result ≡ start_right «end» self.entry.frame.now }
    {
        match end {
            End::Unit => self.frame[3] == START_COMMUNICATION,
            End::Tool => false,
        }
    }

    // The form without LEN is right for the start alone, at the unit; the general form always is.
    fn form_right(self, end: End) -> bool
        ensures { result ≡ form_right «end» self.entry.frame.now }
    {
        if self.frame[0] != WITHOUT_LEN {
            return true;
        }
        self.start_right(end)
    }

    // The form comes first: the count has just asked for it, so that the compiler joins the two tests.
    fn addressed_to(self, addresses: Addresses, end: End) -> bool
        ensures { result ≡ addressed addresses «end» self.entry.frame.now }
    {
        let target = target_of(addresses, end);
        let source = source_of(addresses, end);
        let to = self.frame[1];
        let from = self.frame[2];
        if !self.form_right(end) {
            return false;
        }
        if to != target {
            return false; // it goes elsewhere
        }
        from == source
    }

    fn checksum_right(self) -> bool
        ensures { result ≡ checksum_right self.entry.frame.now }
    {
        let frame = self.frame;
        let last = frame.len() - 1;
        octets::sum::checksum(&frame[..last]) == frame[last]
    }

    // Where the data of a good frame lies: behind the header, or the SID of the five-byte start.
    fn data_in(self) -> Part
        ensures { result
            ≡ record { start = data_start self.entry.frame.now; len = data_length self.entry.frame.now } }
    {
        if self.frame[0] == WITHOUT_LEN {
            return Part { start: 3, len: 1 };
        }
        Part {
            start: 4,
            len: usize::from(self.frame[3]),
        }
    }
}

// Judges a frame that arrives at `end`: refused by 1, 2 or 3.
pub(crate) fn judge(addresses: Addresses, frame: &[u8], end: End) -> Result<(), Refusal>
    ensures { judgement result ≡ judged addresses «end» frame.now }
{
    if frame.len() < 5 {
        return Err(Refusal::FrameCount);
    }
    if !known_format(frame[0]) {
        return Err(Refusal::FormatOrAddress);
    }
    let fields = Fields { frame };
    if !fields.count_right() {
        return Err(Refusal::FrameCount);
    }
    if !fields.addressed_to(addresses, end) {
        return Err(Refusal::FormatOrAddress);
    }
    if !fields.checksum_right() {
        return Err(Refusal::ChecksumWrong);
    }
    Ok(())
}

// Where the data of a good frame lies.
pub fn locate(addresses: Addresses, frame: &[u8], end: End) -> Result<Part, Refusal>
    ensures { placed result ≡ data_place addresses «end» frame.now }
{
    judge(addresses, frame, end)?;
    Ok(Fields { frame }.data_in())
}
