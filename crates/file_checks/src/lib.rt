// What the profile file's reader refuses before it stores anything.
#![tactic(auto)]

ghost use Rattle.std.specs.Prelude.{◌≡◌, cond, ◌||◌, ◌+◌, ◌*◌, ◌≤◌, ◌<◌, eqb, ltb, length};
ghost use Rattle.refusals.specs.Number.{refusal_of};
ghost use Rattle.limits.specs.Limits.{most_days, most_cuts};
ghost use Rattle.theory_lists.specs.First.{first_where};
ghost use Rattle.file_format.specs.Format.{days_begin, cut_length, file_length, day_count, cut_count, numbered_at};
ghost use Rattle.file_format.specs.Reading.{bad_layout, bad_fields, bad_cut, early_reading};

use base_little_endian::{i32_at, u16_at};
use file_format::{CUT_BYTES, DAYS_BEGIN, day_offset};
use limits::{MOST_CUTS, MOST_DAYS};
use refusals::Refusal;
use session_cuts::Cut;

// The cut that begins at a place.
pub fn numbered_at(bytes: &[u8], at: usize) -> Option<Cut>
    requires { at + cut_length ≤ length bytes.now }
    ensures { result ≡ numbered_at bytes.now at }
{
    let kind = usize::from(u16_at(bytes, at));
    let day = usize::from(u16_at(bytes, at + 2));
    let value = i32_at(bytes, at + 4);
    Cut::numbered(kind, day, value)
}

// A kind that is unknown, or a total's cut whose day is not 0.
fn is_bad(numbered: Option<Cut>) -> bool
    ensures { result ≡ bad_cut numbered }
{
    let Some(cut) = numbered else {
        return true;
    };
    match cut {
        Cut::DayFloor(_, _) => false,
        Cut::DayCeiling(_, _) => false,
        Cut::TotalFloor(day, _) => day != 0,
        Cut::TotalCeiling(day, _) => day != 0,
    }
}

// Whether one of the cuts that begin at `from` is bad.
fn has_bad(bytes: &[u8], from: usize, count: usize) -> bool
    requires { from + count * cut_length ≤ length bytes.now }
    ensures { result ≡ ltb (first_where (λ j. bad_cut (numbered_at bytes.now (from + j * cut_length))) count) count }
{
    for j in 0..count {
        if is_bad(numbered_at(bytes, from + j * CUT_BYTES)) {
            return true;
        }
    }
    false
}

fn check_counts(days: usize, cuts: usize) -> Result<(), Refusal>
    ensures { refusal_of result ≡ cond (eqb days 0 || ltb most_days days || ltb most_cuts cuts) 1 0 }
{
    if days == 0 {
        return Err(Refusal::Count);
    }
    if MOST_DAYS < days {
        return Err(Refusal::Count);
    }
    if MOST_CUTS < cuts {
        return Err(Refusal::Count);
    }
    Ok(())
}

fn check_layout(bytes: &[u8], days: usize, cuts: usize) -> Result<(), Refusal>
    requires { (days_begin ≤ length bytes.now) × (days ≡ day_count bytes.now) × (cuts ≡ cut_count bytes.now) × (days ≤ most_days) × (cuts ≤ most_cuts) }
    ensures { refusal_of result ≡ cond (bad_layout bytes.now) 11 0 }
{
    let from = day_offset(days);
    if usize::from(u16_at(bytes, 4)) != DAYS_BEGIN {
        return Err(Refusal::Layout);
    }
    if usize::from(u16_at(bytes, 6)) != from {
        return Err(Refusal::Layout);
    }
    if bytes.len() != from + cuts * CUT_BYTES {
        return Err(Refusal::Layout);
    }
    Ok(())
}

fn check_fields(bytes: &[u8], days: usize, cuts: usize) -> Result<(), Refusal>
    requires { (file_length days cuts ≡ length bytes.now) × (days ≡ day_count bytes.now) × (cuts ≡ cut_count bytes.now) × (0 < days) × (days ≤ most_days) × (cuts ≤ most_cuts) }
    ensures { refusal_of result ≡ cond (bad_fields bytes.now) 12 0 }
{
    let from = day_offset(days);
    // The last rise.
    if u16_at(bytes, from - 2) != 0 {
        return Err(Refusal::Kind);
    }
    if has_bad(bytes, from, cuts) {
        return Err(Refusal::Kind);
    }
    Ok(())
}

// 11 under 18 bytes, 1, 11 for the offsets and the length, then 12.
pub fn check_file(bytes: &[u8]) -> Result<(), Refusal>
    ensures { refusal_of result ≡ early_reading bytes.now }
{
    if bytes.len() < DAYS_BEGIN {
        return Err(Refusal::Layout);
    }
    let days = usize::from(u16_at(bytes, 0));
    let cuts = usize::from(u16_at(bytes, 2));
    check_counts(days, cuts)?;
    check_layout(bytes, days, cuts)?;
    check_fields(bytes, days, cuts)
}
