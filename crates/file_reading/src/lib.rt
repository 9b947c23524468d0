// The profile file's reader.
#![tactic(auto)]

ghost use Rattle.std.specs.Prelude.{◌≡◌, ◌+◌, ◌-◌, ◌*◌, ◌≤◌, length, Ok};
ghost use Rattle.limits.specs.Limits.{most_days, most_cuts};
ghost use Rattle.theory_lists.specs.Lent.{lent_list};
ghost use Rattle.refusals.specs.Number.{refusal_of};
ghost use Rattle.file_format.specs.Format.{cut_length, file_length, day_count, cut_count, floor_at, ceiling_at, rise_at, numbered_at, known};
ghost use Rattle.file_reading.specs.Reading.{sheet_from, contents, read_as, read_from};

use base_little_endian::{i32_at, u16_at};
use file_checks::{check_file, numbered_at};
use file_days::store_days;
use file_format::{CUT_BYTES, FIRST_DAY_AT, day_offset};
use limits::MOST_CUTS;
use refusals::Refusal;
use session::Numbers;
use session_cuts::{Cut, Entry, Sheet};

// What a file has beside its days: the profile's numbers and the cuts.
#[derive(Clone, Copy)]
pub struct Contents {
    pub numbers: Numbers,
    pub sheet: Sheet,
}

fn entry_at(bytes: &[u8], at: usize) -> Entry
    requires { at + cut_length ≤ length bytes.now }
    ensures { result ≡ record { cut = known (numbered_at bytes.now at) } }
{
    let cut = numbered_at(bytes, at).unwrap_or(Cut::DayFloor(0, 0));
    Entry { cut }
}

fn read_sheet(bytes: &[u8], from: usize, count: usize) -> Sheet
    requires { (from + count * cut_length ≤ length bytes.now) × (count ≤ most_cuts) }
    ensures { result ≡ sheet_from bytes.now from count }
{
    let blank = Entry {
        cut: Cut::DayFloor(0, 0),
    };
    let mut entries = [blank; MOST_CUTS];
    for j in 0..count {
        entries[j] = entry_at(bytes, from + j * CUT_BYTES);
    }
    Sheet { count, entries }
}

fn read_contents(bytes: &[u8], days: usize) -> Contents
    requires { (days ≡ day_count bytes.now) × (file_length days (cut_count bytes.now) ≡ length bytes.now) × (days ≤ most_days) × (cut_count bytes.now ≤ most_cuts) }
    ensures { read_as (Ok result) ≡ contents bytes.now }
{
    let first = usize::from(u16_at(bytes, FIRST_DAY_AT));
    let lowest = i32_at(bytes, 8);
    let highest = i32_at(bytes, 12);
    let numbers = Numbers {
        days,
        first,
        lowest,
        highest,
    };
    let count = usize::from(u16_at(bytes, 2));
    let sheet = read_sheet(bytes, day_offset(days), count);
    Contents { numbers, sheet }
}

// Reads a file: document 01's checks 11, 1, 11, 12, then 2. Values are left to opening and cutting.
pub fn read(
    bytes: &[u8],
    floors: &mut [i16],
    ceilings: &mut [i16],
    rises: &mut [i16],
) -> Result<Contents, Refusal>
    ensures value { read_as result ≡ read_from bytes.now (length floors.old) (length ceilings.old) (length rises.old) }
    ensures floors_after { floors.new ≡ lent_list (refusal_of result) (floor_at bytes.now) (day_count bytes.now) floors.old }
    ensures ceilings_after { ceilings.new ≡ lent_list (refusal_of result) (ceiling_at bytes.now) (day_count bytes.now) ceilings.old }
    ensures rises_after { rises.new ≡ lent_list (refusal_of result) (rise_at bytes.now) (day_count bytes.now - 1) rises.old }
{
    check_file(bytes)?;
    let days = usize::from(u16_at(bytes, 0));
    if floors.len() < days {
        return Err(Refusal::Length);
    }
    if ceilings.len() < days {
        return Err(Refusal::Length);
    }
    if rises.len() < days - 1 {
        return Err(Refusal::Length);
    }
    store_days(bytes, days, floors, ceilings, rises);
    Ok(read_contents(bytes, days))
}
