// Record arrays of an answer's data.
ghost use Rattle.std.specs.Prelude.{◌≡◌};
ghost use Rattle.records.specs.Arrays.{array_count, array_at, record_place};

use octets::{Counted, Place};
use records::Array;

// How many arrays the body has.
#[unsafe(no_mangle)]
pub extern "C" fn tacho_array_count(body: &[u8]) -> Counted
    ensures { result ≡ array_count body.now }
{
    records::array_count(body).into()
}

// One array's header, and where its records lie.
#[unsafe(no_mangle)]
pub extern "C" fn tacho_array_at(body: &[u8], array: usize) -> Array
    ensures { result ≡ array_at array body.now }
{
    records::array_at(body, array).into()
}

// Where one record lies.
#[unsafe(no_mangle)]
pub extern "C" fn tacho_record_at(body: &[u8], array: usize, record: usize) -> Place
    ensures { result ≡ record_place array «record» body.now }
{
    records::record_place(body, array, record).into()
}
