// Cuts on a session by value: document 01's four kinds.
#![tactic(auto)]

ghost use Rattle.std.specs.Prelude.{◌≡◌, ◌≤◌, ◌<◌, length};
ghost use Rattle.limits.specs.Limits.{lowest_point, highest_point, lowest_total, highest_total};
ghost use Rattle.session_cuts.specs.Numbered.{numbered};
ghost use Rattle.base_codes.specs.Code.{coded};
ghost use Rattle.theory_method.specs.Filter.{InBounds, tightened};
ghost use Rattle.tighten_filtering.specs.Boxed.{boxed, tight_as};
ghost use Rattle.refusals.specs.Number.{refusal_number};
ghost use Rattle.session.specs.Showing.{SessionInBounds, box_of};
ghost use Rattle.session_cutting.specs.Cutting.{malformed, clipped, retightened, spend, with_present, refusing, after_as, tightened_to, after_cut, after_numbered, list_after};
ghost use Rattle.session_cutting.specs.Stages.{checked_value, checked_cut, checked_as, Clips};

use base_codes::{CodedNumbers, TotalRange};
use limits::MOST_DAYS;
use refusals::Refusal;
use session::{Ranges, Session};
use session_cuts::Cut;

// A cut's answer, how many days changed or its refusal, and the session after it.
#[derive(Clone, Copy)]
pub struct AfterCut {
    pub answer: Result<usize, Refusal>,
    pub session: Session,
}

// `otherwise` for a day that the cut can't have, then `outside` for a value outside its bounds.
fn check_value(
    placed: bool,
    otherwise: Refusal,
    value: Option<usize>,
    outside: Refusal,
) -> Result<usize, Refusal>
    ensures { checked_as result ≡ checked_value placed (refusal_number otherwise) value (refusal_number outside) }
{
    if !placed {
        return Err(otherwise);
    }
    value.ok_or(outside)
}

// 7, then 3.
fn check_day(placed: bool, value: i32) -> Result<usize, Refusal>
    ensures { checked_as result ≡ checked_value placed 7 (coded lowest_point highest_point value) 3 }
{
    let level = base_codes::code(value, Session::LOWEST_POINT, Session::HIGHEST_POINT);
    check_value(placed, Refusal::Day, level, Refusal::Point)
}

// 12, then 5.
fn check_total(placed: bool, value: i32) -> Result<usize, Refusal>
    ensures { checked_as result ≡ checked_value placed 12 (coded lowest_total highest_total value) 5 }
{
    let total = base_codes::code(value, Session::LOWEST_TOTAL, Session::HIGHEST_TOTAL);
    check_value(placed, Refusal::Kind, total, Refusal::Total)
}

// A cut's value as it is held, or the refusal that the cut has by itself, whatever the session: 12, 7, then 3 or 5.
pub fn check(cut: Cut, days: usize) -> Result<usize, Refusal>
    ensures { checked_as result ≡ checked_cut days cut }
{
    match cut {
        Cut::DayFloor(day, value) => check_day(day < days, value),
        Cut::DayCeiling(day, value) => check_day(day < days, value),
        Cut::TotalFloor(day, value) => check_total(day == 0, value),
        Cut::TotalCeiling(day, value) => check_total(day == 0, value),
    }
}

// Clips the range of one day or of the total.
fn clip(
    cut: Cut,
    value: usize,
    floors: &mut [u16; MOST_DAYS],
    ceilings: &mut [u16; MOST_DAYS],
    total: TotalRange,
) -> TotalRange
    requires { Clips cut value }
    ensures { record { floors = floors.exit.now; ceilings = ceilings.new; lowest = result.lowest; highest = result.highest } ≡ clipped (record { floors = floors.entry.now; ceilings = ceilings.old; lowest = total.lowest; highest = total.highest }) cut }
{
    match cut {
        Cut::DayFloor(day, _) => {
            floors[day] = floors[day].max(value as u16);
            total
        }
        Cut::DayCeiling(day, _) => {
            ceilings[day] = ceilings[day].min(value as u16);
            total
        }
        Cut::TotalFloor(_, _) => TotalRange {
            lowest: total.lowest.max(value),
            ..total
        },
        Cut::TotalCeiling(_, _) => TotalRange {
            highest: total.highest.min(value),
            ..total
        },
    }
}

// Clips ranges by a well-formed cut and tightens everything again.
pub fn cut_ranges(
    floors: &mut [u16; MOST_DAYS],
    ceilings: &mut [u16; MOST_DAYS],
    rises: &[u16; MOST_DAYS],
    numbers: CodedNumbers,
    cut: Cut,
    value: usize,
) -> Option<TotalRange>
    requires { InBounds (boxed floors.old ceilings.old rises.now numbers) × (malformed numbers.days cut ≡ 0) × Clips cut value }
    ensures { tight_as result floors.exit.now ceilings.new ≡ tightened (box_of rises.now numbers.days numbers.first (clipped (record { floors = floors.entry.now; ceilings = ceilings.old; lowest = numbers.lowest; highest = numbers.highest }) cut)) }
{
    let total = TotalRange {
        lowest: numbers.lowest,
        highest: numbers.highest,
    };
    let total = clip(cut, value, floors, ceilings, total);
    let clipped = CodedNumbers {
        lowest: total.lowest,
        highest: total.highest,
        ..numbers
    };
    tighten_filtering::tighten(floors, ceilings, rises, clipped)
}

fn refuse(session: Session, refusal: Refusal) -> AfterCut
    ensures { after_as result ≡ refusing (refusal_number refusal) session }
{
    AfterCut {
        answer: Err(refusal),
        session,
    }
}

// There is no schedule left: 8, and the session is spent.
fn spend(session: Session) -> AfterCut
    ensures { after_as result ≡ refusing 8 (spend session) }
{
    let mut after = session;
    let opened = session.opened;
    after.present = opened;
    after.spent = true;
    refuse(after, Refusal::NoSchedule)
}

fn accept(session: Session, ranges: Ranges, changed: usize) -> AfterCut
    ensures { after_as result ≡ record { answer = record { refusal = 0; changed = changed }; session = with_present session ranges } }
{
    let mut after = session;
    after.present = ranges;
    AfterCut {
        answer: Ok(changed),
        session: after,
    }
}

// Clips by a well-formed cut and tightens everything again: 8, or the days that changed.
fn tighten_again(session: Session, cut: Cut, value: usize, changed: &mut [u16]) -> AfterCut
    requires { SessionInBounds session × (malformed session.days cut ≡ 0) × Clips cut value × (session.days ≤ length changed.old) }
    ensures value { after_as result ≡ tightened_to session (retightened session (clipped session.present cut)) }
    ensures changed_after { changed.new ≡ list_after session (after_as result) changed.old }
{
    let n = session.days;
    // A copy costs less than a field that is lent, for which the compiled code copies the session.
    let rises = session.rises;
    let before = session.present;
    let floors = before.floors;
    let ceilings = before.ceilings;
    let mut low = floors;
    let mut high = ceilings;
    let numbers = CodedNumbers {
        days: n,
        first: session.first,
        lowest: before.lowest,
        highest: before.highest,
    };
    let Some(total) = cut_ranges(&mut low, &mut high, &rises, numbers, cut, value) else {
        return spend(session);
    };
    let count = session_changed::list_differences(&floors, &ceilings, &low, &high, n, changed);
    let ranges = Ranges {
        floors: low,
        ceilings: high,
        lowest: total.lowest,
        highest: total.highest,
    };
    accept(session, ranges, count)
}

// Clips the session's ranges and tightens everything again; document 01's checks 12, 7, 3 or 5, 2, 9, then 8.
pub fn cut(session: Session, cut: Cut, changed: &mut [u16]) -> AfterCut
    requires { SessionInBounds session }
    ensures value { after_as result ≡ after_cut session cut (length changed.old) }
    ensures changed_after { changed.new ≡ list_after session (after_as result) changed.old }
{
    let n = session.days;
    let value = match check(cut, n) {
        Ok(value) => value,
        Err(refusal) => return refuse(session, refusal),
    };
    if changed.len() < n {
        return refuse(session, Refusal::Length);
    }
    if session.spent {
        return refuse(session, Refusal::Spent);
    }
    tighten_again(session, cut, value, changed)
}

// The same for a cut whose kind may be unknown, which is 12.
pub fn cut_asked(session: Session, asked: Option<Cut>, changed: &mut [u16]) -> AfterCut
    requires { SessionInBounds session }
    ensures value { after_as result ≡ after_numbered session asked (length changed.old) }
    ensures changed_after { changed.new ≡ list_after session (after_as result) changed.old }
{
    match asked {
        Some(known) => cut(session, known, changed),
        None => refuse(session, Refusal::Kind),
    }
}

// The same for a cut given by numbers.
pub fn cut_numbered(
    session: Session,
    kind: usize,
    day: usize,
    value: i32,
    changed: &mut [u16],
) -> AfterCut
    requires { SessionInBounds session }
    ensures value { after_as result ≡ after_numbered session (numbered kind day value) (length changed.old) }
    ensures changed_after { changed.new ≡ list_after session (after_as result) changed.old }
{
    cut_asked(session, Cut::numbered(kind, day, value), changed)
}
