// Record arrays of an answer's data, for C.
ghost use Rattle.std.specs.Prelude.{◌≡◌};
ghost use Rattle.records.specs.Arrays.{array_count, array_at, record_place};

use octets::{Counted, Place};
use records::Array;

#[unsafe(no_mangle)]
pub extern "C" fn tacho_array_count(body: &[u8]) -> Counted
    ensures { result ≡ array_count body.now }
{
    host::arrays::tacho_array_count(body)
}

#[unsafe(no_mangle)]
pub extern "C" fn tacho_array_at(body: &[u8], array: usize) -> Array
    ensures { result ≡ array_at array body.now }
{
    host::arrays::tacho_array_at(body, array)
}

#[unsafe(no_mangle)]
pub extern "C" fn tacho_record_at(body: &[u8], array: usize, record: usize) -> Place
    ensures { result ≡ record_place array «record» body.now }
{
    host::arrays::tacho_record_at(body, array, record)
}
