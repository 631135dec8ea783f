// Reading a store: one answer by its name, the whole stream, and the answers one by one.
ghost use Rattle.std.specs.Prelude.{◌≡◌};
ghost use Rattle.octets.specs.Numbers.{placed, looked_up, counted};
ghost use Rattle.store.specs.Layout.{narrow};
ghost use Rattle.store.specs.Check.{store_number};
ghost use Rattle.store.specs.Read.{two_places, held_given, lookup_place, lookup_both, lookup_part, stream_place};
ghost use Rattle.store.specs.Read.{stream_part, count_held, held_answer};

use crate::layout::Entries;
use crate::{HeldAnswer, TwoParts};
use catalog::{ABSENT, AnswerName};
use octets::Part;
use octets::refusal::Refusal;

// Where the answer with this name lies in a store that was checked, none where it is not held. Activities are kept
// under the first second of their day. FF is no TREP, and nothing is looked for.
fn find(store: &[u8], name: AnswerName) -> Option<Part>
    requires { store_number narrow store.now ≡ 0 }
    ensures { looked_up result ≡ lookup_place narrow name store.now }
{
    if name.trep == ABSENT {
        return None;
    }
    let kept = catalog::rounded(name);
    let n = crate::layout::answers(store);
    let entries = Entries { store };
    let i = entries.first_named(n, kept);
    if n <= i {
        return None;
    }
    let entry = entries.at(i);
    Some(Part {
        start: entry.answer_start(),
        len: entry.length(),
    })
}

// Where the answer with this name lies: the number of a broken store, 6 where it is not held.
pub fn locate(store: &[u8], name: AnswerName) -> Result<Part, Refusal>
    ensures { placed result ≡ lookup_place narrow name store.now }
{
    crate::check::check(store)?;
    find(store, name).ok_or(Refusal::NotHeld)
}

// Where the answers with these two names lie, by one check of the store; each part is what `locate` gives.
pub fn locate_both(store: &[u8], first: AnswerName, second: AnswerName) -> Result<TwoParts, Refusal>
    ensures { two_places result ≡ lookup_both narrow first second store.now }
{
    crate::check::check(store)?;
    Ok(TwoParts {
        first: find(store, first),
        second: find(store, second),
    })
}

// The answer with this name, 76 and TREP included, as part of the buffer; empty where `locate` refuses it.
pub fn lookup(store: &[u8], name: AnswerName) -> &[u8]
    ensures { result.now ≡ lookup_part narrow name store.now }
{
    octets::buffer::found(store, locate(store, name))
}

// Where the stream lies (DDP_034), or the number of a broken store.
pub fn locate_stream(store: &[u8]) -> Result<Part, Refusal>
    ensures { placed result ≡ stream_place narrow store.now }
{
    crate::check::check(store)?;
    Ok(Part {
        start: crate::layout::stream_start(store),
        len: crate::layout::stream_length(store),
    })
}

// The stream, as part of the buffer; empty where `locate_stream` refuses it.
pub fn stream(store: &[u8]) -> &[u8]
    ensures { result.now ≡ stream_part narrow store.now }
{
    octets::buffer::found(store, locate_stream(store))
}

// How many answers the store holds, or the number of a broken store.
pub fn count(store: &[u8]) -> Result<usize, Refusal>
    ensures { counted result ≡ count_held narrow store.now }
{
    crate::check::check(store)?;
    Ok(crate::layout::answers(store))
}

// Answer `k`, from 0: the number of a broken store, 6 where it holds no more than `k`.
pub fn held(store: &[u8], k: usize) -> Result<HeldAnswer, Refusal>
    ensures { held_given result ≡ held_answer narrow k store.now }
{
    crate::check::check(store)?;
    if crate::layout::answers(store) <= k {
        return Err(Refusal::NotHeld);
    }
    let entry = Entries { store }.at(k);
    Ok(HeldAnswer {
        name: entry.name(),
        part: Part {
            start: entry.answer_start(),
            len: entry.length(),
        },
    })
}
