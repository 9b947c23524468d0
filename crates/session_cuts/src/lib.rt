// Document 01's cuts, and how numbers tell them.
#![tactic(auto)]

ghost use Rattle.std.specs.Prelude.{◌≡◌};
ghost use Rattle.session_cuts.specs.declared.Cut.TheVariants.{TotalFloor, TotalCeiling};
ghost use Rattle.session_cuts.specs.Numbered.{numbered};

use limits::MOST_CUTS;

// A floor or a ceiling for a day or for the total: the day, 0 for the total, and the value in points.
#[derive(Clone, Copy)]
pub enum Cut {
    DayFloor(usize, i32),
    DayCeiling(usize, i32),
    TotalFloor(usize, i32),
    TotalCeiling(usize, i32),
}

// An entry of a sheet.
#[derive(Clone, Copy)]
pub struct Entry {
    pub cut: Cut,
}

// The first `count` entries are a batch's cuts, in their order. The device has no heap, and `sheet_from` (file_reading) says what stands past them: hence an array
// and a count.
#[derive(Clone, Copy)]
pub struct Sheet {
    pub count: usize,
    pub entries: [Entry; MOST_CUTS],
}

impl Cut {
    // From the numbers that a caller in C hands over. Kinds: 0 a day's floor, 1 a day's ceiling, 2 the total's floor, 3 the total's ceiling; none for an unknown one (12).
    pub fn numbered(kind: usize, day: usize, value: i32) -> Option<Cut>
        ensures { result ≡ numbered kind day value }
    {
        match kind {
            0 => Some(Cut::DayFloor(day, value)),
            1 => Some(Cut::DayCeiling(day, value)),
            2 => Some(Cut::TotalFloor(day, value)),
            3 => Some(Cut::TotalCeiling(day, value)),
            _ => None,
        }
    }

    // A total cut given without a day has day 0.
    pub fn total_floor(value: i32) -> Cut
        ensures { result ≡ TotalFloor 0 value }
    {
        Cut::TotalFloor(0, value)
    }

    pub fn total_ceiling(value: i32) -> Cut
        ensures { result ≡ TotalCeiling 0 value }
    {
        Cut::TotalCeiling(0, value)
    }
}
