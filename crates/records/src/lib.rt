// Record arrays of generation 2 (document 01, Record arrays): the arrays and records of an answer's data, by number.
#![tactic(auto)]

pub mod view;

ghost use Rattle.std.specs.Prelude.{◌≡◌, ◌*◌, ◌≤◌, length};
ghost use Rattle.octets.specs.Numbers.{placed, counted};
ghost use Rattle.records.specs.Arrays.{array_of, found_at, header_of, array_count, array_at, array_records, record_in};
ghost use Rattle.records.specs.Arrays.{record_place, record_of};

use octets::Part;
use octets::refusal::Refusal;

// An array of a body: its header (kind is the record type), and the part of the body that its records are.
#[derive(Clone, Copy, Debug, PartialEq, Eq, Hash)]
pub struct FoundArray {
    pub kind: u8,
    pub size: u16,
    pub count: u16,
    pub records: Part,
}

// The same for a host. Refused, all zero but the number.
#[repr(C)]
#[derive(Clone, Copy, Debug, PartialEq, Eq, Hash)]
pub struct Array {
    pub number: u8,
    pub kind: u8,
    pub size: u16,
    pub count: u16,
    pub start: usize,
    pub len: usize,
}

impl From<Result<FoundArray, Refusal>> for Array {
    ghost from_gives = { λ given array. array ≡ array_of given };

    fn from(given: Result<FoundArray, Refusal>) -> Array {
        match given {
            Ok(found) => Array {
                number: 0,
                kind: found.kind,
                size: found.size,
                count: found.count,
                start: found.records.start,
                len: found.records.len,
            },
            Err(refusal) => Array {
                number: refusal.into(),
                kind: 0,
                size: 0,
                count: 0,
                start: 0,
                len: 0,
            },
        }
    }
}

// The bytes of so many records.
fn bytes_of(size: u16, records: u16) -> usize
    ensures { result ≡ size * records }
{
    (size as usize) * (records as usize)
}

// The array that stands at `at`, or 9: its header is read once, its records never.
fn found_at(body: &[u8], at: usize) -> Result<FoundArray, Refusal>
    requires { at ≤ length body.now }
    ensures { array_of result ≡ found_at at body.now }
{
    let left = body.len() - at;
    if left < 5 {
        return Err(Refusal::NotArrays);
    }
    let record_size = fields::big_endian::number_of_two(body[at + 1], body[at + 2]);
    let record_count = fields::big_endian::number_of_two(body[at + 3], body[at + 4]);
    if record_size == 0 {
        return Err(Refusal::NotArrays);
    }
    let len = bytes_of(record_size, record_count);
    if left - 5 < len {
        return Err(Refusal::NotArrays);
    }
    Ok(FoundArray {
        kind: body[at],
        size: record_size,
        count: record_count,
        records: Part { start: at + 5, len },
    })
}

// How many arrays the body has, or 9 where they do not fill it.
pub fn array_count(body: &[u8]) -> Result<usize, Refusal>
    ensures { counted result ≡ array_count body.now }
{
    let mut at = 0;
    let mut count = 0;
    while at < body.len() {
        let records = found_at(body, at)?.records;
        at = records.start + records.len;
        count += 1;
    }
    Ok(count)
}

// Where the header of an array begins: the arrays before it are passed, as far as they stand.
fn header_of(body: &[u8], array: usize) -> usize
    ensures value { result ≡ header_of array body.now }
    ensures upper_bound { result ≤ length body.now }
{
    let mut at = 0;
    for _ in 0..array {
        let Ok(before) = found_at(body, at) else {
            return at;
        };
        at = before.records.start + before.records.len;
    }
    at
}

// The array with this number, counted from zero: 9 where the body is no run of arrays, then 10 where it has no such
// array.
pub fn array_at(body: &[u8], array: usize) -> Result<FoundArray, Refusal>
    ensures { array_of result ≡ array_at array body.now }
{
    let arrays = array_count(body)?;
    if arrays <= array {
        return Err(Refusal::NoSuch);
    }
    found_at(body, header_of(body, array))
}

// The records of an array, as that part of the body; empty where `array_at` refuses.
pub fn array_records(body: &[u8], array: usize) -> &[u8]
    ensures { result.now ≡ array_records array body.now }
{
    match array_at(body, array) {
        Ok(found) => found.records.of(body),
        Err(_) => &body[..0],
    }
}

// Where a record lies in an array's own slice of `records_len` bytes: 10 where there is no such record, and for every
// one where the slice is not size times number bytes long or the size is zero.
pub fn record_in(records_len: usize, size: u16, count: u16, record: usize) -> Result<Part, Refusal>
    ensures { placed result ≡ record_in records_len size count «record» }
{
    if size == 0 {
        return Err(Refusal::NoSuch);
    }
    if records_len != bytes_of(size, count) {
        return Err(Refusal::NoSuch);
    }
    if record < count as usize {
        return Ok(Part {
            start: bytes_of(size, record as u16),
            len: size as usize,
        });
    }
    Err(Refusal::NoSuch)
}

// Where a record lies in the body: 9, then 10 where there is no such array or record.
pub fn record_place(body: &[u8], array: usize, record: usize) -> Result<Part, Refusal>
    ensures { placed result ≡ record_place array «record» body.now }
{
    let found = array_at(body, array)?;
    let inside = record_in(found.records.len, found.size, found.count, record)?;
    Ok(Part {
        start: found.records.start + inside.start,
        len: inside.len,
    })
}

// A record, as that part of the body; empty where `record_place` refuses.
pub fn record_at(body: &[u8], array: usize, record: usize) -> &[u8]
    ensures { result.now ≡ record_of array «record» body.now }
{
    octets::buffer::found(body, record_place(body, array, record))
}
