// What is broken in a store, and where: five checks in order, each over all entries before the next.
// Of the stream only the first two bytes of each answer are read.
ghost use Rattle.std.specs.Prelude.{◌≡◌, ◌+◌, ◌*◌, ◌<◌, ◌≤◌, length};
ghost use Rattle.octets.specs.Order.{unless};
ghost use Rattle.octets.specs.Numbers.{judgement, store_entry};
ghost use Rattle.store.specs.Layout.{narrow, entry_size, entry_start, stream_start, stream_length};
ghost use Rattle.store.specs.Check.{header_fits, counts_fit, filled_to, place_right, places_right, answer_right};
ghost use Rattle.store.specs.Check.{fault_at, no_fault, fault_of, count_read, misplaced_at, wrong_at, repeat_at};
ghost use Rattle.store.specs.Check.{store_fault, store_number};

use crate::layout::{Entries, Entry, HEADER};
use crate::{ANSWERS_MOST, Broken, STREAM_MOST};
use catalog::AnswerName;
use octets::refusal::Refusal;
use octets::wire::ANSWER;

// Whether the buffer holds its header, and what that says.
fn header_fits(store: &[u8]) -> bool
    ensures { result ≡ header_fits narrow store.now }
{
    if store.len() < HEADER {
        return false;
    }
    crate::layout::stream_start(store) + crate::layout::stream_length(store) <= store.len()
}

// The count of answers in the header; 0 where the buffer ends before the header does.
fn count_read(store: &[u8]) -> usize
    ensures { result ≡ count_read narrow store.now }
{
    if store.len() < HEADER {
        return 0;
    }
    crate::layout::answers(store)
}

fn counts_fit(store: &[u8]) -> bool
    ensures { result ≡ counts_fit narrow store.now }
{
    if ANSWERS_MOST < crate::layout::answers(store) {
        return false;
    }
    crate::layout::stream_length(store) <= STREAM_MOST
}

impl<'a> Entry<'a> {
    // Whether its answer begins at `end`, where those before it end, has at least two bytes and ends within the stream,
    // by the entry.
    fn place_right(self, end: usize) -> bool
        requires { (end ≡ filled_to narrow self.i self.store.now)
            × (end ≤ stream_length narrow self.store.now) }
        ensures { result ≡ place_right narrow self.entry.i self.entry.store.now }
    {
        let len = self.length();
        if self.offset() != end {
            return false;
        }
        if len < 2 {
            return false;
        }
        end + len <= crate::layout::stream_length(self.store)
    }

    fn answer_right(self) -> bool
        ensures { result ≡ answer_right narrow self.entry.i self.entry.store.now }
    {
        if octets::byte::byte_at(self.store, self.answer_start()) != ANSWER {
            return false;
        }
        catalog::name_stored(self.name())
    }
}

// The order of names: by TREP, then by day.
fn rank(name: AnswerName) -> u64
    ensures { (result ≡ name.trep * 4294967296 + name.day) × (result < 1099511627776) }
{
    (name.trep as u64) * 4294967296 + (name.day as u64)
}

impl<'a> Entries<'a> {
    // 15: the first entry whose offset or length is wrong; the count of answers where each is right and the stream is
    // longer than they are.
    fn check_places(self) -> Result<(), Broken>
        ensures { fault_of result
            ≡ unless (places_right narrow self.entry.store.now)
            (fault_at store_entry (misplaced_at narrow self.entry.store.now))
            no_fault }
    {
        let n = crate::layout::answers(self.store);
        let t = crate::layout::stream_length(self.store);
        let mut end = 0;
        for i in 0..n {
            let entry = self.at(i);
            if !entry.place_right(end) {
                return Err(Broken {
                    refusal: Refusal::StoreEntry,
                    position: i,
                });
            }
            end += entry.length();
        }
        if end != t {
            return Err(Broken {
                refusal: Refusal::StoreEntry,
                position: n,
            });
        }
        Ok(())
    }

    // 16: the first answer that does not begin 76 and a listed TREP, or has a day that an entry may not have; the count
    // where there is none.
    fn first_wrong(self) -> usize
        ensures { result ≡ wrong_at narrow self.entry.store.now }
    {
        let n = crate::layout::answers(self.store);
        for i in 0..n {
            if !self.at(i).answer_right() {
                return i;
            }
        }
        n
    }

    // 17: the first answer that has the name of an earlier one; the count where there is none. A name above all earlier
    // ones is none of theirs, so only the others are looked for.
    fn first_repeat(self) -> usize
        ensures { result ≡ repeat_at narrow self.entry.store.now }
    {
        let n = crate::layout::answers(self.store);
        let mut above: u64 = 0;
        for i in 0..n {
            let name = self.at(i).name();
            let here = rank(name);
            if above <= here {
                above = here + 1;
            } else {
                let earlier = self.first_named(i, name);
                if earlier < i {
                    return i;
                }
            }
        }
        n
    }
}

// What is broken in the store at the front of the buffer, and where.
pub fn fault(store: &[u8]) -> Result<(), Broken>
    ensures { fault_of result ≡ store_fault narrow store.now }
{
    if !header_fits(store) {
        return Err(Broken {
            refusal: Refusal::StoreShort,
            position: count_read(store),
        });
    }
    let count = crate::layout::answers(store);
    if !counts_fit(store) {
        return Err(Broken {
            refusal: Refusal::StoreBounds,
            position: count,
        });
    }
    let entries = Entries { store };
    entries.check_places()?;
    let wrong = entries.first_wrong();
    if wrong < count {
        return Err(Broken {
            refusal: Refusal::StoreAnswer,
            position: wrong,
        });
    }
    let repeat = entries.first_repeat();
    if repeat < count {
        return Err(Broken {
            refusal: Refusal::StoreTwice,
            position: repeat,
        });
    }
    Ok(())
}

// The same without the place: refused by 13 to 17.
pub fn check(store: &[u8]) -> Result<(), Refusal>
    ensures { judgement result ≡ store_number narrow store.now }
{
    fault(store)?;
    Ok(())
}
