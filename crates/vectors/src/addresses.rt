// Addresses (document 02, Req 05): the examples of its reading, at EE and FB, at 00 and 01, and at two equal ones.
use crate::hex::Hex;
use crate::{compared, number};
use catalog::AnswerName;
use catalog::kind::Kind;
use frame::{Addresses, End, LAB};
use octets::wire::FRAME_MOST;
use octets::{Part, Step};
use progress::Request;
use split::AckCode;
use std::io;

const REMOTE: Addresses = Addresses {
    unit: 0xEE,
    tool: 0xFB,
};

const ZERO_ONE: Addresses = Addresses {
    unit: 0x00,
    tool: 0x01,
};

const EQUAL: Addresses = Addresses {
    unit: 0x55,
    tool: 0x55,
};

// An empty store: no answers and no stream bytes.
const EMPTY: [u8; 4] = [0; 4];

fn start_frame(addresses: Addresses) -> [u8; 5] {
    let mut out = [0; 5];
    let _ = frame::write::write_start(addresses, &mut out); // five bytes are room enough
    out
}

fn start(rt: &impl Print, addresses: Addresses) -> io::Result<()> {
    let both = [addresses.unit, addresses.tool];
    println!(rt; "start at{}:{}", Hex(&both), Hex(&start_frame(addresses)))
}

// The start at the lab's addresses is the fixed string.
fn fixed(rt: &impl Print) -> io::Result<()> {
    let out = start_frame(LAB);
    let same = compared(&out, &frame::messages::lab_start());
    println!(rt; "start at EE F0:{}, {same}", Hex(&out))
}

// A frame at a closed unit of EE and FB. Refused, the state stays and there is no reply.
fn heard(rt: &impl Print, what: &str, frame: &[u8]) -> io::Result<()> {
    let state = services::state::fresh(Kind::Generation1.into());
    let mut reply = [0; FRAME_MOST];
    let given = unit::call::step(REMOTE, state, &EMPTY, frame, &mut reply);
    let number = number(&given);
    let Step { state, len } = given.unwrap_or(Step { state, len: 0 });
    let state = states::pack_unit::pack(state);
    println!(rt;
        "unit at EE FB, {what}: number {number}, reply{}, state{}",
        Hex(Part { start: 0, len }.of(&reply)),
        Hex(&state)
    )
}

fn code(rt: &impl Print) -> io::Result<()> {
    let mut out = [0; FRAME_MOST];
    let len = requests::sent::write_acknowledgement(REMOTE, AckCode(2), &mut out).unwrap_or(0);
    let frame = Part { start: 0, len }.of(&out);
    println!(rt;
        "code 2 from EE FB:{}: at EE FB {}, at EE F0 {}",
        Hex(frame),
        number(&frame::call::check(REMOTE, frame, End::Unit)),
        number(&frame::call::check(LAB, frame, End::Unit))
    )
}

// At two equal addresses these calls are 2: a broken store, a short reply buffer, no data, a name not in the table.
fn equal(rt: &impl Print) -> io::Result<()> {
    let mut short = [0; 3];
    let name = AnswerName { trep: 0x99, day: 0 };
    let step = unit::call::step(EQUAL, services::state::fresh(9), b"", b"", &mut short);
    let written = frame::call::write(EQUAL, b"", End::Tool, &mut short);
    let begun = tool::call::begin(
        EQUAL,
        progress::state::fresh(),
        Request::Transfer,
        name,
        &mut short,
    );
    println!(rt;
        "at 55 55: unit step {}, frame write {}, begin {}",
        number(&step),
        number(&written),
        number(&begun)
    )
}

pub(crate) fn addresses(rt: &impl Print) -> io::Result<()> {
    fixed(rt)?;
    start(rt, REMOTE)?;
    start(rt, ZERO_ONE)?;
    heard(rt, "its start", b"\x81\xee\xfb\x81\xeb")?;
    heard(rt, "the lab's start", b"\x81\xee\xf0\x81\xe0")?;
    code(rt)?;
    equal(rt)
}
