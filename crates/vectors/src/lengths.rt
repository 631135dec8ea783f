// The lengths of W7 to W10 and of the longest answer: sub messages written, read and joined again.
use crate::{compared, number};
use frame::{End, LAB};
use octets::Part;
use octets::wire::FRAME_MOST;
use split::SubMessage;
use std::io;

const LENGTHS: [usize; 6] = [252, 253, 501, 502, 59998, 59999];

const TREP: u8 = 0x31;

// Sub message k of `data`, as the tool reads it, put behind the bytes that `room` holds; how many it holds then.
fn step(rt: &impl Print, data: &[u8], k: u16, room: &mut [u8], held: usize) -> io::Result<usize> {
    let message = SubMessage(k);
    let mut out = [0; FRAME_MOST];
    let len = split::call::write_sub_message(LAB, data, TREP, message, &mut out).unwrap_or(0);
    let field = frame::call::data_of(LAB, Part { start: 0, len }.of(&out), End::Tool);
    let new = split::join::carried(field, split::join::receive(field, TREP, message));
    if k < 4 || field.len() < 255 {
        print!(rt; ", LEN {}", field.len())?;
    }
    let Some(place) = room
        .get_mut(held..)
        .and_then(|rest| rest.get_mut(..new.len()))
    else {
        return Ok(held);
    };
    place.copy_from_slice(new);
    Ok(held + new.len())
}

fn joined(rt: &impl Print, data: &[u8], room: &mut [u8], count: usize) -> io::Result<usize> {
    let mut held = 0;
    for k in (1..=u16::MAX).take(count) {
        held = step(rt, data, k, room, held)?;
    }
    Ok(held)
}

// An answer with these data bytes.
fn answer(rt: &impl Print, data: &[u8], room: &mut [u8]) -> io::Result<()> {
    let counted = split::pieces::sub_messages(data.len());
    let count = counted.unwrap_or(0);
    print!(rt;
        "{} data bytes: number {}, sub messages {count}",
        data.len(),
        number(&counted)
    )?;
    let len = joined(rt, data, room, count)?;
    let all = Part { start: 0, len }.of(room);
    println!(rt; ", joined {len}, {}", compared(all, data))
}

pub(crate) fn lengths(rt: &impl Print) -> io::Result<()> {
    let data: [u8; 60000] = std::array::from_fn(|i| (i % 251) as u8);
    let mut room = [0; 60000];
    for len in LENGTHS {
        answer(rt, Part { start: 0, len }.of(&data), &mut room)?;
    }
    Ok(())
}
