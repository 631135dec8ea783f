// Bytes as the lines print them.
use std::fmt;

// Each byte in hexadecimal, a blank before it.
#[derive(Clone, Copy)]
pub(crate) struct Hex<'a>(pub(crate) &'a [u8]);

impl fmt::Display for Hex<'_> {
    fn fmt<W: fmt::Write>(&self, f: &mut fmt::Formatter<W>) -> fmt::Result {
        for byte in self.0 {
            write!(f, " {byte:02X}")?;
        }
        Ok(())
    }
}

// The same behind a colon, where there are some bytes and not many.
#[derive(Clone, Copy)]
pub(crate) struct Few<'a>(pub(crate) &'a [u8]);

impl fmt::Display for Few<'_> {
    fn fmt<W: fmt::Write>(&self, f: &mut fmt::Formatter<W>) -> fmt::Result {
        if matches!(self.0.len(), 1..=259) {
            write!(f, ":{}", Hex(self.0))?;
        }
        Ok(())
    }
}
