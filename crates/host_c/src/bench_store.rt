// The bench store, for C.
ghost use Rattle.std.specs.Prelude.{◌≡◌};
ghost use Rattle.store.specs.Layout.{narrow};
ghost use Rattle.store.specs.Check.{store_fault, store_number};
ghost use Rattle.store.specs.Read.{lookup_place, stream_place, count_held, held_answer};
ghost use Rattle.append.specs.Append.{append_result, append_out};
ghost use Rattle.host.specs.Held.{held_of};

use host::bench_store::Held;
use octets::{Counted, Place, Written};
use store::Fault;

#[unsafe(no_mangle)]
pub extern "C" fn tacho_store_fault(store: &[u8]) -> Fault
    ensures { result ≡ store_fault narrow store.now }
{
    host::bench_store::tacho_store_fault(store)
}

#[unsafe(no_mangle)]
pub extern "C" fn tacho_store_check(store: &[u8]) -> u8
    ensures { result ≡ store_number narrow store.now }
{
    host::bench_store::tacho_store_check(store)
}

#[unsafe(no_mangle)]
pub extern "C" fn tacho_store_lookup(store: &[u8], trep: u8, day: u32) -> Place
    ensures { result ≡ lookup_place narrow (record { trep = trep; day = day }) store.now }
{
    host::bench_store::tacho_store_lookup(store, trep, day)
}

#[unsafe(no_mangle)]
pub extern "C" fn tacho_store_stream(store: &[u8]) -> Place
    ensures { result ≡ stream_place narrow store.now }
{
    host::bench_store::tacho_store_stream(store)
}

#[unsafe(no_mangle)]
pub extern "C" fn tacho_store_count(store: &[u8]) -> Counted
    ensures { result ≡ count_held narrow store.now }
{
    host::bench_store::tacho_store_count(store)
}

#[unsafe(no_mangle)]
pub extern "C" fn tacho_store_answer(store: &[u8], k: usize) -> Held
    ensures { result ≡ held_of (held_answer narrow k store.now) }
{
    host::bench_store::tacho_store_answer(store, k)
}

#[unsafe(no_mangle)]
pub extern "C" fn tacho_store_append(store: &mut [u8], answer: &[u8], day: u32) -> Written
    ensures value { result ≡ append_result narrow answer.now day store.old }
    ensures store_after { store.new ≡ append_out narrow answer.now day store.old }
{
    host::bench_store::tacho_store_append(store, answer, day)
}
