// Writing a schedule of a session's present ranges, through a day's value or with a total.
#![tactic(auto)]

ghost use Rattle.std.specs.Prelude.{◌≡◌, ◌≤◌, ◌<◌, length, set};
ghost use Rattle.limits.specs.Limits.{most_days, lowest_point, lowest_total, highest_level, highest_total_code};
ghost use Rattle.theory_lists.specs.Written.{written};
ghost use Rattle.theory_method.specs.Filter.{box, InBounds};
ghost use Rattle.refusals.specs.Number.{refusal_of};
ghost use Rattle.session.specs.Showing.{SessionInBounds};
ghost use Rattle.schedule_writing.specs.Writing.{day_write_refusal, total_write_refusal, levels_through, day_written, total_written};
ghost use Rattle.schedule_writing.specs.Stages.{value_as, checked_code, checked};

use limits::MOST_DAYS;
use refusals::Refusal;
use session::Session;

// A value's code, or 9 for a spent session, then 10 for a value outside its range: one outside its bounds is within no range.
fn check(value: Option<usize>, floor: usize, ceiling: usize, spent: bool) -> Result<usize, Refusal>
    ensures { value_as result ≡ checked_code value floor ceiling spent }
{
    if spent {
        return Err(Refusal::Spent);
    }
    match value {
        Some(code) if (floor..=ceiling).contains(&code) => Ok(code),
        _ => Err(Refusal::OutOfRange),
    }
}

// A day's value, checked by its range.
pub fn check_day(value: i32, floor: u16, ceiling: u16, spent: bool) -> Result<usize, Refusal>
    requires { ceiling ≤ highest_level }
    ensures { value_as result ≡ checked lowest_point floor ceiling spent value }
{
    check(
        base_codes::code(value, Session::LOWEST_POINT, Session::HIGHEST_POINT),
        usize::from(floor),
        usize::from(ceiling),
        spent,
    )
}

// The total's value, checked by its range, as it is held.
pub fn check_total(value: i32, lowest: usize, highest: usize, spent: bool) -> Result<usize, Refusal>
    requires { highest ≤ highest_total_code }
    ensures { value_as result ≡ checked lowest_total lowest highest spent value }
{
    check(
        base_codes::code(value, Session::LOWEST_TOTAL, Session::HIGHEST_TOTAL),
        lowest,
        highest,
        spent,
    )
}

// Turns the floors into the levels of the schedule with this level on this day, and a sum of at least `lowest`.
pub fn write_through(
    floors: &mut [u16; MOST_DAYS],
    ceilings: &mut [u16; MOST_DAYS],
    rises: &[u16; MOST_DAYS],
    n: usize,
    first: usize,
    lowest: usize,
    day: usize,
    level: usize,
)
    requires { InBounds (box floors.old ceilings.old rises.now n first 0 lowest) × (day < n) × (level ≤ highest_level) }
    ensures floors_after { floors.new ≡ written (levels_through floors.old ceilings.old rises.now n first lowest day level) n floors.old }
    ensures ceilings_after { ceilings.new ≡ set ceilings.old day level }
{
    let level = level as u16;
    floors[day] = level;
    ceilings[day] = level;
    tighten_carry::carry(floors, ceilings, rises, n);
    schedule_raising::raise_to(floors, ceilings, rises, n, first, lowest);
}

// Writes a schedule with this value on this day. Document 01's checks 2, 7, 9, 10.
pub fn write_day(session: Session, day: usize, value: i32, list: &mut [i16]) -> Result<(), Refusal>
    requires { SessionInBounds session }
    ensures value { refusal_of result ≡ day_write_refusal session day value (length list.old) }
    ensures list_after { list.new ≡ day_written session day value list.old }
{
    let n = session.days;
    if list.len() != n {
        return Err(Refusal::Length);
    }
    if n <= day {
        return Err(Refusal::Day);
    }
    let ranges = session.present;
    let mut floors = ranges.floors;
    let mut ceilings = ranges.ceilings;
    let level = check_day(value, floors[day], ceilings[day], session.spent)?;
    let rises = session.rises;
    write_through(
        &mut floors,
        &mut ceilings,
        &rises,
        n,
        session.first,
        ranges.lowest,
        day,
        level,
    );
    base_codes::decode_all(&floors, n, Session::LOWEST_POINT, list);
    Ok(())
}

// Writes a schedule with this sum. Document 01's checks 2, 9, 10.
pub fn write_total(session: Session, value: i32, list: &mut [i16]) -> Result<(), Refusal>
    requires { SessionInBounds session }
    ensures value { refusal_of result ≡ total_write_refusal session value (length list.old) }
    ensures list_after { list.new ≡ total_written session value list.old }
{
    let n = session.days;
    if list.len() != n {
        return Err(Refusal::Length);
    }
    let ranges = session.present;
    let total = check_total(value, ranges.lowest, ranges.highest, session.spent)?;
    let rises = session.rises;
    let mut floors = ranges.floors;
    let ceilings = ranges.ceilings;
    schedule_raising::raise_to(&mut floors, &ceilings, &rises, n, session.first, total);
    base_codes::decode_all(&floors, n, Session::LOWEST_POINT, list);
    Ok(())
}
