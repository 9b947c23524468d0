// The sheets that are tried.
use limits::MOST_CUTS;
use session_cuts::Cut;
use session_sheets::{Asked, AskedSheet};

const DAY_FLOOR: usize = 0;

const DAY_CEILING: usize = 1;

const TOTAL_CEILING: usize = 3;

fn asked(kind: usize, day: usize, value: i32) -> Asked {
    Asked {
        cut: Cut::numbered(kind, day, value),
    }
}

// The cut at every place: what stands past the sheet's end is not made.
pub(crate) fn repeated(count: usize) -> AskedSheet {
    AskedSheet {
        count,
        entries: [asked(DAY_FLOOR, 0, 3); MOST_CUTS],
    }
}

fn sheet(cuts: &[Asked]) -> AskedSheet {
    let mut sheet = repeated(cuts.len());
    for (entry, cut) in sheet.entries.iter_mut().zip(cuts) {
        *entry = *cut;
    }
    sheet
}

// Four that are refused, between two that are not.
pub(crate) fn six_cuts() -> AskedSheet {
    sheet(&[
        asked(DAY_FLOOR, 0, 3),
        asked(DAY_FLOOR, 3, 5),
        asked(7, 0, 0),
        asked(TOTAL_CEILING, 1, 11),
        asked(DAY_FLOOR, 1, 5000),
        asked(TOTAL_CEILING, 0, 11),
    ])
}

// The second leaves no schedule.
pub(crate) fn spending_cuts() -> AskedSheet {
    sheet(&[
        asked(TOTAL_CEILING, 0, 11),
        asked(DAY_FLOOR, 0, 4),
        asked(DAY_FLOOR, 0, 3),
        asked(9, 0, 0),
    ])
}

pub(crate) fn two_cuts() -> AskedSheet {
    sheet(&[asked(DAY_FLOOR, 0, 3), asked(DAY_FLOOR, 9, 3)])
}

// The first and the last narrow the same day.
pub(crate) fn ceilings() -> AskedSheet {
    sheet(&[
        asked(DAY_CEILING, 0, 3),
        asked(TOTAL_CEILING, 0, 9),
        asked(DAY_CEILING, 0, 1),
    ])
}
