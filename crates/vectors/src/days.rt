// Days (document 02, Req 03): seconds at the ends of days, and the examples of its reading.
use crate::hex::{Few, Hex};
use crate::number;
use catalog::AnswerName;
use catalog::kind::Kind;
use frame::LAB;
use octets::wire::{ANSWER, FRAME_MOST};
use octets::{Part, Place, Step};
use progress::Request;
use services::{Phase, UnitState};
use std::io;
use store::Fault;

const SECONDS: [u32; 10] = [
    0, 86399, 86400, 86401, 129600, 172799, 172800, 0xFFFFA4FF, 0xFFFFA500, 0xFFFFFFFF,
];

// 36 02 and the second 86,401, to the unit.
const REQUEST: [u8; 11] = *b"\x80\xee\xf0\x06\x36\x02\x00\x01\x51\x81\x6f";

// The answer 76 02 AA under the second 86,401, which no entry has.
const BROKEN: [u8; 15] = *b"\x00\x01\x00\x03\x00\x01\x51\x81\x00\x00\x00\x03\x76\x02\xaa";

// The day of each second, and the second under which a store keeps it.
fn seconds(rt: &impl Print) -> io::Result<()> {
    for n in SECONDS {
        let first = catalog::first_second(n);
        println!(rt; "second {n}: day {}, kept under {first}", first / 86400)?;
    }
    Ok(())
}

fn appended(rt: &impl Print, store: &mut [u8], answer: &[u8], day: u32) -> io::Result<()> {
    let given = append::append(store, answer, day);
    let len = given.unwrap_or(0);
    println!(rt;
        "append by {day}: number {}, length {len}{}",
        number(&given),
        Few(Part { start: 0, len }.of(store))
    )
}

fn found(rt: &impl Print, store: &[u8], day: u32) -> io::Result<()> {
    let name = AnswerName { trep: 0x02, day };
    let Place { number, start, len } = store::read::locate(store, name).into();
    println!(rt; "lookup by {day}: number {number}, start {start}, length {len}")
}

// The reply, all its bytes where they are few, and the state that the host keeps.
fn asked(rt: &impl Print, what: &str, store: &[u8], phase: Phase) -> io::Result<()> {
    let state = UnitState {
        kind: Kind::Generation1.into(),
        rate: 1,
        pending: 0,
        phase,
    };
    let mut reply = [0; FRAME_MOST];
    let given = unit::call::step(LAB, state, store, &REQUEST, &mut reply);
    let Step { state, len } = given.unwrap_or(Step { state, len: 0 });
    let state = states::pack_unit::pack(state);
    println!(rt;
        "unit {what} sends {len} bytes{}, state{}",
        Few(Part { start: 0, len }.of(&reply)),
        Hex(&state)
    )
}

fn begun(rt: &impl Print) -> io::Result<()> {
    let state = progress::state::fresh();
    let name = AnswerName {
        trep: 0x02,
        day: 86401,
    };
    let mut out = [0; FRAME_MOST];
    let given = tool::call::begin(LAB, state, Request::Transfer, name, &mut out);
    let Step { state, len } = given.unwrap_or(Step { state, len: 0 });
    let state = states::pack_tool::pack(state);
    println!(rt;
        "tool begins by 86401:{}, state{}",
        Hex(Part { start: 0, len }.of(&out)),
        Hex(&state)
    )
}

fn short(rt: &impl Print) -> io::Result<()> {
    let mut store = [0; 20];
    appended(rt, &mut store, b"\x76\x02\xaa", 86401)?;
    found(rt, &store, 172799)?;
    found(rt, &store, 86399)?;
    appended(rt, &mut store, b"\x76\x02", 86400)?;
    asked(rt, "granted", &store, Phase::Granted)?;
    asked(rt, "in session", &store, Phase::Session)
}

// An answer of 253 data bytes, which is split.
fn split(rt: &impl Print) -> io::Result<()> {
    let mut store = [0; 300];
    let mut answer = [0; 255];
    answer[0] = ANSWER;
    answer[1] = 0x02;
    let _ = append::append(&mut store, &answer, 86401); // the reply shows what became of it
    asked(rt, "with 253 data bytes", &store, Phase::Granted)
}

pub(crate) fn days(rt: &impl Print) -> io::Result<()> {
    seconds(rt)?;
    short(rt)?;
    split(rt)?;
    begun(rt)?;
    let Fault { number, position } = store::check::fault(&BROKEN).into();
    println!(rt; "entry of 86401: number {number}, position {position}")
}
