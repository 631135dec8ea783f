// Appending an answer to a bench store, in place (document 01, Bench store).
#![tactic(auto)]

ghost use Rattle.std.specs.Prelude.{◌≡◌, ◌++◌, ◌+◌, ◌≤◌, ◌<◌, length};
ghost use Rattle.fields.specs.BigEndian.{bytes_of};
ghost use Rattle.octets.specs.Numbers.{judgement, written};
ghost use Rattle.octets.specs.Buffer.{front, put};
ghost use Rattle.store.specs.Layout.{narrow, header_size, entry_size, answers, stream_length, store_length};
ghost use Rattle.store.specs.Answer.{name_of};
ghost use Rattle.append.specs.Append.{room_number, append_number, with_answer, append_result, append_out};

use catalog::{AnswerName, NO_ANSWER};
use octets::refusal::Refusal;
use store::layout::{DAY, ENTRY, FIELD};
use store::{ANSWERS_MOST, STREAM_MOST};

// The name that the answer is given: its TREP stands second.
fn name_of(answer: &[u8], day: u32) -> AnswerName
    ensures { result ≡ name_of answer.now day }
{
    AnswerName {
        trep: octets::byte::byte_at(answer, 1),
        day,
    }
}

fn check_room(store: &[u8], answer: &[u8]) -> Result<(), Refusal>
    ensures { judgement result ≡ room_number narrow (length answer.now) store.now }
{
    let len = answer.len();
    let t = store::layout::stream_length(store);
    if ANSWERS_MOST < store::layout::answers(store) + 1 {
        return Err(Refusal::OverBound);
    }
    if STREAM_MOST < t + len {
        return Err(Refusal::OverBound);
    }
    if store.len() < store::layout::stream_start(store) + t + ENTRY + len {
        return Err(Refusal::BufferShort);
    }
    Ok(())
}

// The numbers in order; the store is checked once, for itself and for the search of the name.
fn check_append(store: &[u8], answer: &[u8], day: u32) -> Result<(), Refusal>
    ensures { judgement result ≡ append_number narrow answer.now day store.now }
{
    let found = store::read::locate_both(store, name_of(answer, day), NO_ANSWER)?;
    store::answer::check_answer(answer, day)?;
    if found.first.is_some() {
        return Err(Refusal::AlreadyHeld);
    }
    check_room(store, answer)
}

fn write_header(store: &mut [u8], count: u32, stream: u32)
    requires { header_size narrow ≤ length store.old }
    ensures { store.new
        ≡ put (length narrow.mark) (bytes_of narrow.width count ++ bytes_of narrow.width stream)
        store.old }
{
    fields::big_endian::write_number(store, 0, FIELD, count);
    fields::big_endian::write_number(store, FIELD, FIELD, stream);
}

fn write_entry(store: &mut [u8], at: usize, day: u32, offset: u32, len: u32)
    requires { at + entry_size narrow ≤ length store.old }
    ensures { store.new
        ≡ put at (bytes_of 4 day ++ (bytes_of narrow.width offset ++ bytes_of narrow.width len))
        store.old }
{
    fields::big_endian::write_number(store, at, DAY, day);
    fields::big_endian::write_number(store, at + DAY, FIELD, offset);
    fields::big_endian::write_number(store, at + DAY + FIELD, FIELD, len);
}

// The stream moves up by one entry, once; then header, the new entry and the answer behind the stream are written.
fn put_last(store: &mut [u8], answer: &[u8], day: u32)
    requires store_bound { answers narrow store.old + 1 ≤ narrow.answers_most }
    requires answer_bound { stream_length narrow store.old + length answer.now ≤ narrow.stream_most }
    requires answer_in_bounds { store_length narrow store.old + entry_size narrow + length answer.now
        ≤ length store.old }
    ensures { store.new
        ≡ front (with_answer narrow answer.now day store.old) store.old }
{
    let n = store::layout::answers(store);
    let t = store::layout::stream_length(store);
    let len = answer.len();
    let entry = store::layout::stream_start(store);
    let end = entry + t;
    octets::buffer::shift_up(store, entry, end, ENTRY);
    write_header(store, (n + 1) as u32, (t + len) as u32);
    write_entry(store, entry, day, t as u32, len as u32);
    let last = end + ENTRY;
    octets::buffer::copy_in(&mut store[last..], answer);
}

// Puts the answer, 76 and TREP included, last in the store, under its TREP and, for activities, the first second of the
// day that `day` falls in, and gives the store's new length.
// Refused by the number of a broken store, 12, 7, 8 and 4, in this order; then the buffer is as it was.
pub fn append(store: &mut [u8], answer: &[u8], day: u32) -> Result<usize, Refusal>
    ensures value { written result ≡ append_result narrow answer.now day store.old }
    ensures store_after { store.new ≡ append_out narrow answer.now day store.old }
{
    check_append(store, answer, day)?;
    let old = store::layout::stream_start(store) + store::layout::stream_length(store);
    let kept = catalog::rounded(name_of(answer, day));
    put_last(store, answer, kept.day);
    Ok(old + ENTRY + answer.len())
}
