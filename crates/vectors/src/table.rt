// The frames of the table in section 2.2.2 of source document 003.
use crate::hex::Hex;
use crate::{compared, number};
use frame::{End, LAB};
use octets::Part;
use octets::refusal::Refusal;
use octets::wire::{ANSWER, FRAME_MOST, NEGATIVE};
use std::io;

// A name and bytes.
type Row = (&'static str, &'static [u8]);

// The frames that the table gives whole, to the unit and to the tool.
const TO_UNIT: [Row; 12] = [
    ("start communication", b"\x81\xee\xf0\x81\xe0"),
    ("start diagnostic session", b"\x80\xee\xf0\x02\x10\x81\xf1"),
    ("verify 9600 Bd", b"\x80\xee\xf0\x04\x87\x01\x01\x01\xec"),
    ("verify 19200 Bd", b"\x80\xee\xf0\x04\x87\x01\x01\x02\xed"),
    ("verify 38400 Bd", b"\x80\xee\xf0\x04\x87\x01\x01\x03\xee"),
    ("verify 57600 Bd", b"\x80\xee\xf0\x04\x87\x01\x01\x04\xef"),
    ("verify 115200 Bd", b"\x80\xee\xf0\x04\x87\x01\x01\x05\xf0"),
    ("transition baud rate", b"\x80\xee\xf0\x03\x87\x02\x03\xed"),
    (
        "request upload",
        b"\x80\xee\xf0\x0a\x35\x00\x00\x00\x00\x00\xff\xff\xff\xff\x99",
    ),
    (
        "download interface version",
        b"\x80\xee\xf0\x02\x36\x00\x96",
    ),
    ("request transfer exit", b"\x80\xee\xf0\x01\x37\x96"),
    ("stop communication", b"\x80\xee\xf0\x01\x82\xe1"),
];

const TO_TOOL: [Row; 6] = [
    (
        "positive response start communication",
        b"\x80\xf0\xee\x03\xc1\xea\x8f\x9b",
    ),
    (
        "positive response start diagnostic",
        b"\x80\xf0\xee\x02\x50\x81\x31",
    ),
    (
        "positive response verify baud rate",
        b"\x80\xf0\xee\x02\xc7\x01\x28",
    ),
    (
        "positive response request upload",
        b"\x80\xf0\xee\x03\x75\x00\xff\xd5",
    ),
    (
        "positive response request transfer exit",
        b"\x80\xf0\xee\x01\x77\xd6",
    ),
    (
        "positive response stop communication",
        b"\x80\xf0\xee\x01\xc2\x21",
    ),
];

// The data of frames of which the table leaves bytes open.
const REQUESTS: [Row; 19] = [
    ("overview", b"\x36\x01"),
    ("overview", b"\x36\x21"),
    ("overview", b"\x36\x31"),
    ("activities", b"\x36\x02\x00\x01\x51\x80"),
    ("activities", b"\x36\x22\x00\x01\x51\x80"),
    ("activities", b"\x36\x32\x00\x01\x51\x80"),
    ("events and faults", b"\x36\x03"),
    ("events and faults", b"\x36\x23"),
    ("events and faults", b"\x36\x33"),
    ("detailed speed", b"\x36\x04"),
    ("detailed speed", b"\x36\x24"),
    ("technical data", b"\x36\x05"),
    ("technical data", b"\x36\x25"),
    ("technical data", b"\x36\x35"),
    ("card download", b"\x36\x06"),
    ("card download", b"\x36\x06\x01"),
    ("card download", b"\x36\x06\x02"),
    ("acknowledge sub message", b"\x83\x76\x00\x02"),
    ("acknowledge sub message", b"\x83\x76\xff\xff"),
];

const TREPS: [u8; 15] = *b"\x00\x01\x02\x03\x04\x05\x21\x22\x23\x24\x25\x31\x32\x33\x35";

const SIDS: [u8; 8] = *b"\x81\x10\x87\x35\x36\x37\x82\x83";

const CODES: [u8; 9] = *b"\x10\x11\x12\x13\x22\x31\x50\x78\xfa";

fn other(end: End) -> End {
    match end {
        End::Unit => End::Tool,
        End::Tool => End::Unit,
    }
}

// The number of the frame at its end and at the other one.
fn judged(rt: &impl Print, name: &str, frame: &[u8], end: End) -> io::Result<()> {
    print!(rt;
        "{name}{}: at its end {}, at the other end {}",
        Hex(frame),
        number(&frame::call::check(LAB, frame, end)),
        number(&frame::call::check(LAB, frame, other(end)))
    )
}

// Writes a frame anew from its data; the start of communication has a form of its own.
fn anew(frame: &[u8], end: End, out: &mut [u8]) -> Result<usize, Refusal> {
    if frame.len() == 5 {
        return frame::write::write_start(LAB, out);
    }
    frame::call::write(LAB, frame::call::data_of(LAB, frame, end), end, out)
}

// A frame that the table gives whole: judged, and written anew.
fn whole(rt: &impl Print, name: &str, frame: &[u8], end: End) -> io::Result<()> {
    let mut out = [0; FRAME_MOST];
    judged(rt, name, frame, end)?;
    let written = anew(frame, end, &mut out);
    let len = written.unwrap_or(0);
    println!(rt;
        ", written anew {}, {}",
        number(&written),
        compared(Part { start: 0, len }.of(&out), frame)
    )
}

// A frame of which the table leaves bytes open: written from its data, judged, and its data read back.
fn of_data(rt: &impl Print, name: &str, data: &[u8], end: End) -> io::Result<()> {
    let mut out = [0; FRAME_MOST];
    let len = frame::call::write(LAB, data, end, &mut out).unwrap_or(0);
    let frame = Part { start: 0, len }.of(&out);
    judged(rt, name, frame, end)?;
    let read = frame::call::data_of(LAB, frame, end);
    println!(rt; ", data read back, {}", compared(read, data))
}

fn all_whole(rt: &impl Print, rows: &[Row], end: End) -> io::Result<()> {
    for (name, frame) in rows {
        whole(rt, name, frame, end)?;
    }
    Ok(())
}

fn requests(rt: &impl Print) -> io::Result<()> {
    for (name, data) in REQUESTS {
        of_data(rt, name, data, End::Unit)?;
    }
    Ok(())
}

pub(crate) fn rows(rt: &impl Print) -> io::Result<()> {
    all_whole(rt, &TO_UNIT, End::Unit)?;
    requests(rt)?;
    all_whole(rt, &TO_TOOL, End::Tool)
}

// One data byte for each TREP.
pub(crate) fn transfer_responses(rt: &impl Print) -> io::Result<()> {
    for trep in TREPS {
        let data = [ANSWER, trep, 0x5A];
        of_data(rt, "positive response transfer data", &data, End::Tool)?;
    }
    Ok(())
}

// Every code to the request with this SID.
fn refusals(rt: &impl Print, sid: u8) -> io::Result<()> {
    for code in CODES {
        of_data(rt, "negative response", &[NEGATIVE, sid, code], End::Tool)?;
    }
    Ok(())
}

pub(crate) fn negative_responses(rt: &impl Print) -> io::Result<()> {
    for sid in SIDS {
        refusals(rt, sid)?;
    }
    Ok(())
}
