// The view of one array (document 01, Record arrays): a reference to the array's own slice, beside what its header
// says. The work is done on plain slices and numbers; here a view is only put together or taken apart.
ghost use Rattle.std.specs.Prelude.{◌≡◌};
ghost use Rattle.octets.specs.Numbers.{judgement, placed};
ghost use Rattle.records.specs.Arrays.{record_of};
ghost use Rattle.records.specs.View.{place_in, shown, viewed, view_number, view_record, view_record_number};

use octets::Part;
use octets::refusal::Refusal;

// The records of an array, and its header: kind is the record type. Refused, all zero with no records.
#[derive(Clone, Copy, Debug, PartialEq, Eq, Hash)]
pub struct ArrayView<'a> {
    pub records: &'a [u8],
    pub kind: u8,
    pub size: u16,
    pub count: u16,
}

// Whether there is a view: 9, then 10, as `array_at` gives them.
pub fn check_view(body: &[u8], array: usize) -> Result<(), Refusal>
    ensures { judgement result ≡ view_number array body.now }
{
    crate::array_at(body, array)?;
    Ok(())
}

// The view of an array of the body; all zero where `check_view` refuses.
pub fn view<'a>(body: &'a [u8], array: usize) -> ArrayView<'a>
    ensures { shown result ≡ viewed array body.now }
{
    match crate::array_at(body, array) {
        Ok(found) => ArrayView {
            records: found.records.of(body),
            kind: found.kind,
            size: found.size,
            count: found.count,
        },
        Err(_) => ArrayView {
            records: &body[..0],
            kind: 0,
            size: 0,
            count: 0,
        },
    }
}

impl<'a> ArrayView<'a> {
    // Where a record lies in the view's own slice.
    fn place(self, record: usize) -> Result<Part, Refusal>
        ensures { placed result ≡
            place_in (shown self.entry).records (shown self.entry).size (shown self.entry).count «record» }
    {
        crate::record_in(self.records.len(), self.size, self.count, record)
    }

    // A record of the view, as that part of its slice; empty where `check_record` refuses.
    pub fn record(self, record: usize) -> &'a [u8]
        ensures { result.now ≡ view_record (shown self.entry) «record» }
    {
        octets::buffer::found(self.records, self.place(record))
    }

    // Its twin: 10 where there is no such record, and for every one where the slice is not size times number bytes long
    // or the size is zero.
    pub fn check_record(self, record: usize) -> Result<(), Refusal>
        ensures { judgement result ≡ view_record_number (shown self.entry) «record» }
    {
        self.place(record)?;
        Ok(())
    }
}

// A record of the body, read through a view: the promise is that of `record_at`, and its number that of `record_place`.
// The parameters are plain, so that a caller's proof has no view.
pub fn record_by_view(body: &[u8], array: usize, record: usize) -> &[u8]
    ensures { result.now ≡ record_of array «record» body.now }
{
    view(body, array).record(record)
}
