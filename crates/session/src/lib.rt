// A session: document 01's profile, opened, with its ranges, for one batch.
#![tactic(auto)]

ghost use Rattle.std.specs.Prelude.{◌≡◌, ltb, length};
ghost use Rattle.limits.specs.Limits.{lowest_point, highest_point, lowest_rise, highest_rise, lowest_total, highest_total};
ghost use Rattle.base_codes.specs.Code.{coded};
ghost use Rattle.theory_lists.specs.Sum.{at};
ghost use Rattle.theory_lists.specs.Lent.{lent_list};
ghost use Rattle.theory_method.specs.Filter.{InBounds, all_counted, first_crossed};
ghost use Rattle.tighten_filtering.specs.Boxed.{boxed};
ghost use Rattle.refusals.specs.Number.{refusal_number, refusal_of};
ghost use Rattle.session.specs.Opening.{opened, opened_as, early_opening, refused_with, profile};
ghost use Rattle.session.specs.Stages.{length_refusal, lengths_of, coded_as, coded_with, coded_list, coded_profile, range_refusal, ranges_as, ranges_opened, opened_codes};
ghost use Rattle.session.specs.Showing.{SessionInBounds, shown, shown_as, floor_on, ceiling_on};

use base_codes::{CodedNumbers, TotalRange, code_all};
use limits::{MOST_DAYS, TOTAL_OFFSET};
use refusals::Refusal;

// A profile's numbers, beside its lists: the day count, the first counted day, and the total's floor and ceiling.
#[derive(Clone, Copy)]
pub struct Numbers {
    pub days: usize,
    pub first: usize,
    pub lowest: i32,
    pub highest: i32,
}

impl Numbers {
    // What readers give beside a refusal.
    pub const NONE: Numbers = Numbers {
        days: 0,
        first: 0,
        lowest: 0,
        highest: 0,
    };
}

// The range of each day as levels, a point plus 1,000, and of the total, held plus 512,000. Floors and ceilings lie apart, as C lends them and the definitions
// read them; each is an array with the day count beside it, since memory is fixed and contracts say what stands past the days.
#[derive(Clone, Copy)]
pub struct Ranges {
    pub floors: [u16; MOST_DAYS],
    pub ceilings: [u16; MOST_DAYS],
    pub lowest: usize,
    pub highest: usize,
}

// Rises are held plus 2,000. Cells past the last day are 0. `SessionInBounds` is a clause where it is needed, not this type's invariant: what `Demand1` (promises)
// says of refusals holds of each session, within its bounds or not.
#[derive(Clone, Copy)]
pub struct Session {
    pub days: usize,
    pub first: usize,
    pub rises: [u16; MOST_DAYS],
    pub opened: Ranges,
    pub present: Ranges,
    pub spent: bool,
}

// What opening gives. Document 01 has a session beside a refusal too, so this is no Result.
#[derive(Clone, Copy)]
pub struct Opened {
    pub refusal: Option<Refusal>,
    pub session: Session,
}

// What showing gives beside the lists: the total's range, and whether the session is spent.
#[derive(Clone, Copy)]
pub struct Shown {
    pub lowest: i32,
    pub highest: i32,
    pub spent: bool,
}

// The level of 0 points.
const ZERO_LEVEL: u16 = limits::LEVEL_OFFSET as u16;

// Beside a refusal stands a spent session of one day with all values 0.
fn refused(refusal: Refusal) -> Opened
    ensures { opened_as result ≡ refused_with (refusal_number refusal) }
{
    let mut floors = [0u16; MOST_DAYS];
    floors[0] = ZERO_LEVEL;
    let zero = Ranges {
        floors,
        ceilings: floors,
        lowest: TOTAL_OFFSET,
        highest: TOTAL_OFFSET,
    };
    Opened {
        refusal: Some(refusal),
        session: Session {
            days: 1,
            first: 0,
            rises: [0u16; MOST_DAYS],
            opened: zero,
            present: zero,
            spent: true,
        },
    }
}

// 1 for a bad day count, then 2 for a list of the wrong length.
fn check_lengths(days: usize, floors: usize, ceilings: usize, rises: usize) -> Result<(), Refusal>
    ensures { refusal_of result ≡ length_refusal days floors ceilings rises }
{
    if days == 0 {
        return Err(Refusal::Count);
    }
    if Session::MOST_DAYS < days {
        return Err(Refusal::Count);
    }
    if floors != days {
        return Err(Refusal::Length);
    }
    if ceilings != days {
        return Err(Refusal::Length);
    }
    if rises != days - 1 {
        return Err(Refusal::Length);
    }
    Ok(())
}

fn code_total(z: i32) -> Option<usize>
    ensures { result ≡ coded lowest_total highest_total z }
{
    base_codes::code(z, Session::LOWEST_TOTAL, Session::HIGHEST_TOTAL)
}

// A profile's numbers as codes; 3, 4, then 5, from whether a point and a rise are outside their bounds.
pub fn code_numbers(
    numbers: Numbers,
    bad_point: bool,
    bad_rise: bool,
) -> Result<CodedNumbers, Refusal>
    ensures { coded_as result ≡ coded_with numbers bad_point bad_rise }
{
    if bad_point {
        return Err(Refusal::Point);
    }
    if bad_rise {
        return Err(Refusal::Rise);
    }
    let Some(lowest) = code_total(numbers.lowest) else {
        return Err(Refusal::Total);
    };
    let Some(highest) = code_total(numbers.highest) else {
        return Err(Refusal::Total);
    };
    Ok(CodedNumbers {
        days: numbers.days,
        first: numbers.first,
        lowest,
        highest,
    })
}

// Codes a profile: document 01's checks 1 to 5. The arrays are written where 1 and 2 are passed.
fn code_profile(
    numbers: Numbers,
    floors: &[i16],
    ceilings: &[i16],
    rises: &[i16],
    low: &mut [u16; MOST_DAYS],
    high: &mut [u16; MOST_DAYS],
    steps: &mut [u16; MOST_DAYS],
) -> Result<CodedNumbers, Refusal>
    ensures value { coded_as result ≡ coded_profile (profile numbers floors.now ceilings.now rises.now) }
    ensures low_after { low.new ≡ coded_list (lengths_of (profile numbers floors.now ceilings.now rises.now)) lowest_point highest_point floors.now low.old }
    ensures high_after { high.new ≡ coded_list (lengths_of (profile numbers floors.now ceilings.now rises.now)) lowest_point highest_point ceilings.now high.old }
    ensures steps_after { steps.new ≡ coded_list (lengths_of (profile numbers floors.now ceilings.now rises.now)) lowest_rise highest_rise rises.now steps.old }
{
    check_lengths(numbers.days, floors.len(), ceilings.len(), rises.len())?;
    let bad_floor = code_all(floors, Session::LOWEST_POINT, Session::HIGHEST_POINT, low);
    let bad_ceiling = code_all(
        ceilings,
        Session::LOWEST_POINT,
        Session::HIGHEST_POINT,
        high,
    );
    let bad_rise = code_all(rises, Session::LOWEST_RISE, Session::HIGHEST_RISE, steps);
    code_numbers(numbers, bad_floor | bad_ceiling, bad_rise)
}

// 6 for a floor above its ceiling, of a day, which the caller tells, or of the total, then 13 for a first counted day not in the profile.
fn check_ranges(crossed: bool, numbers: CodedNumbers) -> Result<(), Refusal>
    ensures { refusal_of result ≡ range_refusal crossed numbers }
{
    if crossed | (numbers.highest < numbers.lowest) {
        return Err(Refusal::Crossed);
    }
    if numbers.first < numbers.days {
        return Ok(());
    }
    Err(Refusal::FirstDay)
}

// Opens ranges that have passed the checks on lengths and bounds: 6 and 13, which leave them, then 8, which leaves them
// as `tighten` does. `crossed` is whether a day's floor is above its ceiling.
pub fn open_ranges(
    floors: &mut [u16; MOST_DAYS],
    ceilings: &mut [u16; MOST_DAYS],
    rises: &[u16; MOST_DAYS],
    numbers: CodedNumbers,
    crossed: bool,
) -> Result<TotalRange, Refusal>
    requires { InBounds (all_counted (boxed floors.old ceilings.old rises.now numbers)) × (crossed ≡ ltb (first_crossed (at floors.old) (at ceilings.old) numbers.days) numbers.days) }
    ensures { ranges_as result floors.new ceilings.new ≡ ranges_opened (boxed floors.old ceilings.old rises.now numbers) }
{
    check_ranges(crossed, numbers)?;
    let total = tighten_filtering::tighten(floors, ceilings, rises, numbers);
    total.ok_or(Refusal::NoSchedule)
}

// Opens what has passed the checks on lengths and bounds: 6, 13, then 8.
fn open_codes(
    numbers: CodedNumbers,
    floors: [u16; MOST_DAYS],
    ceilings: [u16; MOST_DAYS],
    rises: [u16; MOST_DAYS],
) -> Opened
    requires { InBounds (all_counted (boxed floors ceilings rises numbers)) }
    ensures { opened_as result ≡ opened_codes (boxed floors ceilings rises numbers) }
{
    let mut low = floors;
    let mut high = ceilings;
    let crossed = tighten_carry::is_crossed(&low, &high, numbers.days);
    let total = match open_ranges(&mut low, &mut high, &rises, numbers, crossed) {
        Ok(total) => total,
        Err(refusal) => return refused(refusal),
    };
    let ranges = Ranges {
        floors: low,
        ceilings: high,
        lowest: total.lowest,
        highest: total.highest,
    };
    Opened {
        refusal: None,
        session: Session {
            days: numbers.days,
            first: numbers.first,
            rises,
            opened: ranges,
            present: ranges,
            spent: false,
        },
    }
}

// The first of the checks 1 to 6 and 13 of opening that refuses.
pub fn check_early(
    numbers: Numbers,
    floors: &[i16],
    ceilings: &[i16],
    rises: &[i16],
) -> Result<(), Refusal>
    ensures { refusal_of result ≡ early_opening (profile numbers floors.now ceilings.now rises.now) }
{
    let mut low = [0u16; MOST_DAYS];
    let mut high = [0u16; MOST_DAYS];
    let mut steps = [0u16; MOST_DAYS];
    let coded = code_profile(
        numbers, floors, ceilings, rises, &mut low, &mut high, &mut steps,
    )?;
    let crossed = tighten_carry::is_crossed(&low, &high, coded.days);
    check_ranges(crossed, coded)
}

impl Session {
    // Document 01's bounds of an entry.
    pub const MOST_DAYS: usize = limits::MOST_DAYS;

    pub const LOWEST_POINT: i32 = limits::LOWEST_POINT;

    pub const HIGHEST_POINT: i32 = limits::HIGHEST_POINT;

    pub const LOWEST_RISE: i32 = limits::LOWEST_RISE;

    pub const HIGHEST_RISE: i32 = limits::HIGHEST_RISE;

    pub const LOWEST_TOTAL: i32 = limits::LOWEST_TOTAL;

    pub const HIGHEST_TOTAL: i32 = limits::HIGHEST_TOTAL;

    // Opens a profile: the checks 1, 2, 3, 4, 5, 6, 13, then 8.
    pub fn open(numbers: Numbers, floors: &[i16], ceilings: &[i16], rises: &[i16]) -> Opened
        ensures { opened_as result ≡ opened (profile numbers floors.now ceilings.now rises.now) }
    {
        let mut low = [0u16; MOST_DAYS];
        let mut high = [0u16; MOST_DAYS];
        let mut steps = [0u16; MOST_DAYS];
        match code_profile(
            numbers, floors, ceilings, rises, &mut low, &mut high, &mut steps,
        ) {
            Ok(coded) => open_codes(coded, low, high, steps),
            Err(refusal) => refused(refusal),
        }
    }

    // Fills both lists with the present range of each day, or, where either is too short, neither (2).
    pub fn show(self, floors: &mut [i16], ceilings: &mut [i16]) -> Result<Shown, Refusal>
        requires { SessionInBounds self }
        ensures value { shown_as result ≡ shown self (length floors.old) (length ceilings.old) }
        ensures floors_after { floors.new ≡ lent_list (refusal_of result) (floor_on self) self.days floors.old }
        ensures ceilings_after { ceilings.new ≡ lent_list (refusal_of result) (ceiling_on self) self.days ceilings.old }
    {
        let n = self.days;
        if floors.len() < n {
            return Err(Refusal::Length);
        }
        if ceilings.len() < n {
            return Err(Refusal::Length);
        }
        let ranges = self.present;
        let low = ranges.floors;
        let high = ranges.ceilings;
        base_codes::decode_all(&low, n, Self::LOWEST_POINT, floors);
        base_codes::decode_all(&high, n, Self::LOWEST_POINT, ceilings);
        Ok(Shown {
            lowest: base_codes::decode(ranges.lowest, Self::LOWEST_TOTAL),
            highest: base_codes::decode(ranges.highest, Self::LOWEST_TOTAL),
            spent: self.spent,
        })
    }
}
