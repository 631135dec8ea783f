// The fields of a store, and the names of its answers. Every number read is bounded, so that no sum of a few of them
// wraps.
ghost use Rattle.std.specs.Prelude.{◌≡◌, ◌+◌, ◌<◌, ◌≤◌, length};
ghost use Rattle.octets.specs.Search.{first_of};
ghost use Rattle.fields.specs.BigEndian.{number_at};
ghost use Rattle.catalog.specs.Name.{same_answer};
ghost use Rattle.store.specs.Layout.{narrow, entry_size, entry_start, answers, stream_length, stream_start, entry_day};
ghost use Rattle.store.specs.Layout.{entry_offset, entry_length, answer_start, name_at};

use catalog::AnswerName;

// The width of count, stream length, offset and length.
pub const FIELD: usize = 2;

// Count and stream length.
pub const HEADER: usize = 4;

// Day, offset and length of one answer.
pub const ENTRY: usize = 8;

// The width of a day.
pub const DAY: usize = 4;

fn field(store: &[u8], at: usize) -> usize
    ensures { (result ≡ number_at 2 at store.now) × (result < 4294967296) }
{
    fields::big_endian::number_at(store, at, FIELD) as usize
}

pub fn answers(store: &[u8]) -> usize
    ensures { (result ≡ answers narrow store.now) × (result < 4294967296) }
{
    field(store, 0)
}

pub fn stream_length(store: &[u8]) -> usize
    ensures { (result ≡ stream_length narrow store.now) × (result < 4294967296) }
{
    field(store, FIELD)
}

// Where the stream begins, behind header and entries.
pub fn stream_start(store: &[u8]) -> usize
    ensures { (result ≡ stream_start narrow store.now) × (result < 34359738372) }
{
    HEADER + ENTRY * answers(store)
}

// An entry that lies in the buffer whole, so that its readers test nothing.
#[derive(Clone, Copy)]
pub(crate) struct Entry<'a> {
    pub(crate) store: &'a [u8],
    pub(crate) i: usize,
    ghost inside: { entry_start narrow i + entry_size narrow ≤ length store.now },
}

impl<'a> Entry<'a> {
    fn day(self) -> u32
        ensures { result ≡ entry_day narrow self.entry.i self.entry.store.now }
    {
        let store = self.store;
        let at = HEADER + ENTRY * self.i;
        fields::big_endian::number_of_four(store[at], store[at + 1], store[at + 2], store[at + 3])
    }

    pub(crate) fn offset(self) -> usize
        ensures { (result ≡ entry_offset narrow self.entry.i self.entry.store.now) × (result < 65536) }
    {
        let store = self.store;
        let at = HEADER + ENTRY * self.i + DAY;
        fields::big_endian::number_of_two(store[at], store[at + 1]) as usize
    }

    pub(crate) fn length(self) -> usize
        ensures { (result ≡ entry_length narrow self.entry.i self.entry.store.now) × (result < 65536) }
    {
        let store = self.store;
        let at = HEADER + ENTRY * self.i + DAY + FIELD;
        fields::big_endian::number_of_two(store[at], store[at + 1]) as usize
    }

    // Where its answer begins in the buffer.
    pub(crate) fn answer_start(self) -> usize
        ensures { (result ≡ answer_start narrow self.entry.i self.entry.store.now) × (result < 34359803908) }
    {
        stream_start(self.store) + self.offset()
    }

    // The TREP stands second in the answer, the day in its entry.
    pub(crate) fn name(self) -> AnswerName
        ensures { result ≡ name_at narrow self.entry.i self.entry.store.now }
    {
        AnswerName {
            trep: octets::byte::byte_at(self.store, self.answer_start() + 1),
            day: self.day(),
        }
    }

    // Whether its answer has this name. Most names differ in the day already, and it stands in the entry: the answer is
    // read only behind it.
    fn has_name(self, name: AnswerName) -> bool
        ensures { result ≡ same_answer (name_at narrow self.entry.i self.entry.store.now) name }
    {
        if self.day() != name.day {
            return false;
        }
        catalog::same_answer(self.name(), name)
    }
}

// The entries of a store that all lie in the buffer whole.
#[derive(Clone, Copy)]
pub(crate) struct Entries<'a> {
    pub(crate) store: &'a [u8],
    ghost inside: { stream_start narrow store.now ≤ length store.now },
}

impl<'a> Entries<'a> {
    // Entry `i`, from 0.
    pub(crate) fn at(self, i: usize) -> Entry<'a>
        requires { i < answers narrow self.store.now }
        ensures { (result.store.now ≡ self.entry.store.now) × (result.i ≡ i) }
    {
        Entry {
            store: self.store,
            i,
        }
    }

    // Which of the first `count` answers has this name, from 0; `count` where none has.
    pub(crate) fn first_named(self, count: usize, name: AnswerName) -> usize
        requires { count ≤ answers narrow self.store.now }
        ensures { result ≡ first_of (λ i. same_answer (name_at narrow i self.entry.store.now) name) count }
    {
        for i in 0..count {
            if self.at(i).has_name(name) {
                return i;
            }
        }
        count
    }
}
