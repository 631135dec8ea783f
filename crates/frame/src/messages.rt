// The fixed messages of the protocol as byte strings: the data of requests that the tool writes and the unit compares,
// of replies the other way round, and the start at the lab's addresses, which `write::write_start` writes at any two.
ghost use Rattle.std.specs.Prelude.{◌≡◌};
ghost use Rattle.frame.specs.Frame.{lab};
ghost use Rattle.frame.specs.Messages.{start_frame};

// Start communication at the lab's addresses: the whole frame, the one without LEN.
pub const START: [u8; 5] = *b"\x81\xee\xf0\x81\xe0";

// The data of the other fixed requests.
pub const SESSION: [u8; 2] = *b"\x10\x81";

pub const UPLOAD: [u8; 10] = *b"\x35\x00\x00\x00\x00\x00\xff\xff\xff\xff";

pub const EXIT: [u8; 1] = *b"\x37";

pub const STOP: [u8; 1] = *b"\x82";

// The data of the fixed replies.
pub const STARTED: [u8; 3] = *b"\xc1\xea\x8f";

pub const SESSION_OPENED: [u8; 2] = *b"\x50\x81";

pub const RATE_OFFERED: [u8; 2] = *b"\xc7\x01";

pub const UPLOAD_GRANTED: [u8; 3] = *b"\x75\x00\xff";

pub const EXITED: [u8; 1] = *b"\x77";

pub const STOPPED: [u8; 1] = *b"\xc2";

// The start at the lab's addresses, as that fixed string.
pub fn lab_start() -> [u8; 5]
    ensures { result ≡ start_frame lab }
{
    START
}
