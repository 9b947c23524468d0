// Refusals as they are printed.
use refusals::Refusal;
use std::{fmt, io};

// Whether a call is refused: printed, the refusal's number, 0 for none.
#[derive(Clone, Copy)]
pub(crate) struct Refused(pub(crate) Option<Refusal>);

impl fmt::Display for Refused {
    fn fmt<W: fmt::Write>(&self, f: &mut fmt::Formatter<W>) -> fmt::Result {
        write!(f, "{}", self.0.map_or(0, u8::from))
    }
}

// A line for each with its refusal.
pub(crate) fn lines(rt: &impl Print, refusals: &[(&str, Refused)]) -> io::Result<()> {
    for (text, refusal) in refusals {
        println!(rt; "{text}: {refusal}")?;
    }
    Ok(())
}
