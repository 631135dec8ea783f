// The bytes of the protocol on the wire (Appendix 7): SIDs, replies, the codes of refusals, and the longest frame.
pub const START_COMMUNICATION: u8 = 0x81;

pub const DIAGNOSTIC_SESSION: u8 = 0x10;

pub const LINK_CONTROL: u8 = 0x87;

pub const REQUEST_UPLOAD: u8 = 0x35;

pub const TRANSFER_DATA: u8 = 0x36;

pub const TRANSFER_EXIT: u8 = 0x37;

pub const STOP_COMMUNICATION: u8 = 0x82;

pub const ACKNOWLEDGE: u8 = 0x83;

// Every answer begins with it: the reply to transfer data.
pub const ANSWER: u8 = 0x76;

// A refusal by wire code is 7F, SID, code.
pub const NEGATIVE: u8 = 0x7F;

pub const SERVICE_UNKNOWN: u8 = 0x11;

pub const SUB_FUNCTION_UNKNOWN: u8 = 0x12;

pub const LENGTH_WRONG: u8 = 0x13;

pub const CONDITIONS_WRONG: u8 = 0x22;

pub const OUT_OF_RANGE: u8 = 0x31;

pub const RESPONSE_PENDING: u8 = 0x78;

pub const DATA_NOT_AVAILABLE: u8 = 0xFA;

// "a frame has 6 to 260 bytes"
pub const FRAME_MOST: usize = 260;
