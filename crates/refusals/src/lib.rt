// Why a call is refused. A refusal is told to C, to a file's reader and in print by its number.
#![tactic(auto)]

ghost use Rattle.std.specs.Prelude.{◌≡◌};
ghost use Rattle.refusals.specs.Number.{refusal_number, refusal_of};

// Each variant has its number in the reference.
#[derive(Clone, Copy, Debug, PartialEq, Eq)]
pub enum Refusal {
    // The day count is 0 or over 512, or there are more than 512 cuts.
    Count = 1,
    // A lent list is too short or of the wrong length.
    Length = 2,
    Point = 3,
    Rise = 4,
    Total = 5,
    // A floor is above its ceiling.
    Crossed = 6,
    // The day is not in the profile.
    Day = 7,
    NoSchedule = 8,
    Spent = 9,
    // The value is outside the present range.
    OutOfRange = 10,
    // The file's length or an offset is wrong.
    Layout = 11,
    // An unknown kind, a last rise that is not 0, or a total cut whose day is not 0.
    Kind = 12,
    // The first counted day is not in the profile.
    FirstDay = 13,
    // The list of answers is shorter than the sheet.
    Answers = 14,
}

impl From<Refusal> for u8 {
    ghost from_gives = { λ refusal n. n ≡ refusal_number refusal };

    fn from(refusal: Refusal) -> u8 {
        refusal as u8
    }
}

// The refusal's number, 0 for none.
pub fn number_of<T: Copy>(answer: &Result<T, Refusal>) -> u8
    ensures { result ≡ refusal_of answer.now }
{
    match answer {
        Ok(_) => 0,
        Err(refusal) => u8::from(*refusal),
    }
}
