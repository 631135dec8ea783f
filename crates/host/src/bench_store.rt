// The bench store: the whole buffer is lent, the store is its front.
ghost use Rattle.std.specs.Prelude.{◌≡◌};
ghost use Rattle.store.specs.Layout.{narrow};
ghost use Rattle.store.specs.Check.{store_fault, store_number};
ghost use Rattle.store.specs.Read.{lookup_place, stream_place, count_held, held_answer, held_given};
ghost use Rattle.append.specs.Append.{append_result, append_out};
ghost use Rattle.host.specs.Held.{held_of};

use catalog::AnswerName;
use octets::refusal::Refusal;
use octets::{Counted, Place, Written};
use store::{Fault, HeldAnswer};

// One answer of a store: TREP, day and place, or a refusal and zeros.
#[repr(C)]
#[derive(Clone, Copy, Debug, PartialEq, Eq, Hash)]
pub struct Held {
    pub number: u8,
    pub trep: u8,
    pub day: u32,
    pub start: usize,
    pub len: usize,
}

impl From<Result<HeldAnswer, Refusal>> for Held {
    ghost from_gives = { λ given held. held ≡ held_of (held_given given) };

    fn from(given: Result<HeldAnswer, Refusal>) -> Held {
        match given {
            Ok(held) => Held {
                number: 0,
                trep: held.name.trep,
                day: held.name.day,
                start: held.part.start,
                len: held.part.len,
            },
            Err(refusal) => Held {
                number: refusal.into(),
                trep: 0,
                day: 0,
                start: 0,
                len: 0,
            },
        }
    }
}

// What is broken in the store, and where.
#[unsafe(no_mangle)]
pub extern "C" fn tacho_store_fault(store: &[u8]) -> Fault
    ensures { result ≡ store_fault narrow store.now }
{
    store::check::fault(store).into()
}

// 0 for an unbroken store, else the number of its fault.
#[unsafe(no_mangle)]
pub extern "C" fn tacho_store_check(store: &[u8]) -> u8
    ensures { result ≡ store_number narrow store.now }
{
    octets::refusal::number_of(store::check::check(store))
}

// Where an answer lies.
#[unsafe(no_mangle)]
pub extern "C" fn tacho_store_lookup(store: &[u8], trep: u8, day: u32) -> Place
    ensures { result ≡ lookup_place narrow (record { trep = trep; day = day }) store.now }
{
    store::read::locate(store, AnswerName { trep, day }).into()
}

// Where the stream lies.
#[unsafe(no_mangle)]
pub extern "C" fn tacho_store_stream(store: &[u8]) -> Place
    ensures { result ≡ stream_place narrow store.now }
{
    store::read::locate_stream(store).into()
}

// How many answers the store holds.
#[unsafe(no_mangle)]
pub extern "C" fn tacho_store_count(store: &[u8]) -> Counted
    ensures { result ≡ count_held narrow store.now }
{
    store::read::count(store).into()
}

// Answer `k`, from 0: its name, and where it lies.
#[unsafe(no_mangle)]
pub extern "C" fn tacho_store_answer(store: &[u8], k: usize) -> Held
    ensures { result ≡ held_of (held_answer narrow k store.now) }
{
    store::read::held(store, k).into()
}

// Puts an answer last; `len` is the store's new length.
#[unsafe(no_mangle)]
pub extern "C" fn tacho_store_append(store: &mut [u8], answer: &[u8], day: u32) -> Written
    ensures value { result ≡ append_result narrow answer.now day store.old }
    ensures store_after { store.new ≡ append_out narrow answer.now day store.old }
{
    append::append(store, answer, day).into()
}
