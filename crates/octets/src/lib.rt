// Bytes: checksum, parts of slices, copying and shifting in lent buffers.
// Also the refusals with the house numbers of document 01, and the results that carry these to a host.
#![tactic(auto)]

pub mod buffer;
pub mod byte;
pub mod refusal;
pub mod sum;
pub mod wire;

ghost use Rattle.std.specs.Prelude.{◌≡◌};
ghost use Rattle.octets.specs.Numbers.{refused_place};
ghost use Rattle.octets.specs.Buffer.{part_at};

// What a host is given of a call that writes: number 0 and how many bytes at the front of the lent buffer, or the
// number of a refusal and 0.
#[repr(C)]
#[derive(Clone, Copy, Debug, PartialEq, Eq, Hash)]
pub struct Written {
    pub number: u8,
    pub len: usize,
}

// A part of some bytes.
#[derive(Clone, Copy, Debug, PartialEq, Eq, Hash)]
pub struct Part {
    pub start: usize,
    pub len: usize,
}

impl Part {
    // That part of the bytes, as far as they reach.
    pub fn of<'a>(self, bytes: &'a [u8]) -> &'a [u8]
        ensures { result.now ≡ part_at self.start self.len bytes.now }
    {
        let start = bytes.len().min(self.start);
        let len = (bytes.len() - start).min(self.len);
        &bytes[start..start + len]
    }
}

// What a host is given of a call that finds a part of the bytes handed in: number 0 and its place, or the number of a
// refusal and an empty part.
#[repr(C)]
#[derive(Clone, Copy, Debug, PartialEq, Eq, Hash)]
pub struct Place {
    pub number: u8,
    pub start: usize,
    pub len: usize,
}

// A refusal, with an empty part.
pub fn refused_place(number: u8) -> Place
    ensures { result ≡ refused_place number }
{
    Place {
        number,
        start: 0,
        len: 0,
    }
}

// What a call on a state hands back: the next state, and the length of what was written at the front of the lent
// buffer, 0 for nothing. Refused, the state stays.
#[derive(Clone, Copy, Debug, PartialEq, Eq, Hash)]
pub struct Step<S> {
    pub state: S,
    pub len: usize,
}

// What a host is given of a call that counts: number 0 and the count, or the number of a refusal and 0.
#[repr(C)]
#[derive(Clone, Copy, Debug, PartialEq, Eq, Hash)]
pub struct Counted {
    pub number: u8,
    pub count: usize,
}
