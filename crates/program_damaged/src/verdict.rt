// What is made of a file.
use refusals::Refusal;

#[derive(Clone, Copy, PartialEq)]
pub(crate) enum Verdict {
    // Read, its ranges printed, or written back byte for byte.
    Taken,
    // With its number, from 1 to 13.
    Refused(u8),
    Other,
}

impl Verdict {
    pub(crate) fn of<T: Copy>(answer: &Result<T, Refusal>) -> Verdict {
        match answer {
            Ok(_) => Verdict::Taken,
            Err(refusal) => Verdict::Refused(u8::from(*refusal)),
        }
    }
}
