// Inspecting a schedule that somebody wrote, by a session's present ranges.
#![tactic(auto)]

ghost use Rattle.std.specs.Prelude.{◌≡◌, ◌+◌, ◌-◌, ◌≤◌, ◌<◌, ltb, length};
ghost use Rattle.limits.specs.Limits.{most_days, rise_offset, highest_total_code, level_to_setpoint};
ghost use Rattle.session.specs.Showing.{SessionInBounds};
ghost use Rattle.schedule_inspection.specs.Inspecting.{found, finding, judged, inspected};
ghost use Rattle.schedule_inspection.specs.Stages.{outside, day_outside, fallen, total_outside, first_found, judged_codes};

use limits::{
    HIGHEST_SETPOINT, LEVEL_TO_SETPOINT, LOWEST_SETPOINT, MOST_DAYS, RISE_OFFSET, SETPOINT_OFFSET,
    TOTAL_OFFSET,
};
use refusals::Refusal;
use session::Session;

// That a schedule is kept, or the first broken rule: the range of a day, the rise from a day to the next, or the range of the total.
#[derive(Clone, Copy, Debug, PartialEq, Eq)]
pub enum Finding {
    Kept,
    BrokenDay(usize),
    BrokenRise(usize),
    BrokenTotal,
}

impl Finding {
    // The number of the broken rule, 0 for none.
    pub fn rule(self) -> usize
        ensures { result ≡ (found self).rule }
    {
        match self {
            Finding::Kept => 0,
            Finding::BrokenDay(_) => 1,
            Finding::BrokenRise(_) => 2,
            Finding::BrokenTotal => 3,
        }
    }

    // The broken day or rise, 0 where there is none.
    pub fn place(self) -> usize
        ensures { result ≡ (found self).place }
    {
        match self {
            Finding::BrokenDay(place) | Finding::BrokenRise(place) => place,
            Finding::Kept | Finding::BrokenTotal => 0,
        }
    }
}

fn is_outside(x: usize, low: usize, high: usize) -> bool
    ensures { result ≡ outside low high x }
{
    x < low || high < x
}

// Whether a setpoint, held plus 32,768, is outside a day's range.
fn is_day_outside(setpoint: u16, floor: u16, ceiling: u16) -> bool
    ensures { result ≡ outside (floor + level_to_setpoint) (ceiling + level_to_setpoint) setpoint }
{
    is_outside(
        usize::from(setpoint),
        usize::from(floor) + LEVEL_TO_SETPOINT,
        usize::from(ceiling) + LEVEL_TO_SETPOINT,
    )
}

// Whether a setpoint and the next one break the rise between them.
fn is_fallen(setpoint: u16, next: u16, rise: u16) -> bool
    ensures { result ≡ ltb (next + rise_offset) (setpoint + rise) }
{
    usize::from(next) + RISE_OFFSET < usize::from(setpoint) + usize::from(rise)
}

// Whether the sum of the counted setpoints of n days, those from day `first` on, is outside the total's range, which is held plus 512,000.
fn is_total_outside(
    setpoints: &[u16; MOST_DAYS],
    n: usize,
    first: usize,
    least: usize,
    most: usize,
) -> bool
    requires { (first ≤ n) × (n ≤ most_days) × (least ≤ highest_total_code) × (most ≤ highest_total_code) }
    ensures { result ≡ total_outside setpoints.now n first least most }
{
    let sum = base_arrays::counted_sum(setpoints, n, first) + TOTAL_OFFSET;
    let offset = SETPOINT_OFFSET * (n - first);
    is_outside(sum, least + offset, most + offset)
}

// The first of n days whose setpoint is outside the day's range.
fn first_outside(
    setpoints: &[u16; MOST_DAYS],
    floors: &[u16; MOST_DAYS],
    ceilings: &[u16; MOST_DAYS],
    n: usize,
) -> Option<usize>
    requires { n ≤ most_days }
    ensures { result ≡ first_found (day_outside setpoints.now floors.now ceilings.now) n }
{
    for day in 0..n {
        if is_day_outside(setpoints[day], floors[day], ceilings[day]) {
            return Some(day);
        }
    }
    None
}

// The first broken one of the n - 1 rises.
fn first_fallen(setpoints: &[u16; MOST_DAYS], rises: &[u16; MOST_DAYS], n: usize) -> Option<usize>
    requires { (0 < n) × (n ≤ most_days) }
    ensures { result ≡ first_found (fallen setpoints.now rises.now) (n - 1) }
{
    for k in 0..n - 1 {
        if is_fallen(setpoints[k], setpoints[k + 1], rises[k]) {
            return Some(k);
        }
    }
    None
}

// The first broken rule of n setpoints, each held plus 32,768: days in order, then rises in order, then the total of the days from day `first` on.
pub fn judge_codes(
    setpoints: &[u16; MOST_DAYS],
    floors: &[u16; MOST_DAYS],
    ceilings: &[u16; MOST_DAYS],
    rises: &[u16; MOST_DAYS],
    n: usize,
    first: usize,
    least: usize,
    most: usize,
) -> Finding
    requires { (first < n) × (n ≤ most_days) × (least ≤ highest_total_code) × (most ≤ highest_total_code) }
    ensures { found result ≡ judged_codes setpoints.now floors.now ceilings.now rises.now n first least most }
{
    if let Some(day) = first_outside(setpoints, floors, ceilings, n) {
        return Finding::BrokenDay(day);
    }
    if let Some(rise) = first_fallen(setpoints, rises, n) {
        return Finding::BrokenRise(rise);
    }
    if is_total_outside(setpoints, n, first, least, most) {
        return Finding::BrokenTotal;
    }
    Finding::Kept
}

// Judges a list that is n long by the session's present ranges and rises.
fn judge(session: Session, list: &[i16]) -> Finding
    requires { SessionInBounds session × (length list.now ≡ session.days) }
    ensures { found result ≡ judged session list.now }
{
    let rises = session.rises;
    let ranges = session.present;
    let floors = ranges.floors;
    let ceilings = ranges.ceilings;
    let mut setpoints = [0u16; MOST_DAYS];
    base_codes::code_all(list, LOWEST_SETPOINT, HIGHEST_SETPOINT, &mut setpoints);
    judge_codes(
        &setpoints,
        &floors,
        &ceilings,
        &rises,
        session.days,
        session.first,
        ranges.lowest,
        ranges.highest,
    )
}

// Judges a list of setpoints by the session's present ranges and rises. Document 01's checks 2, 9.
pub fn inspect(session: Session, list: &[i16]) -> Result<Finding, Refusal>
    requires { SessionInBounds session }
    ensures { finding result ≡ inspected session list.now }
{
    let n = session.days;
    if list.len() != n {
        return Err(Refusal::Length);
    }
    if session.spent {
        return Err(Refusal::Spent);
    }
    Ok(judge(session, list))
}
