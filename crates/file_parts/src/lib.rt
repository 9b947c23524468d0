// The bytes of a profile file, stored part by part: header, days, cuts.
#![tactic(auto)]

ghost use Rattle.std.specs.Prelude.{◌≡◌, ◌++◌, ℕ, ◌+◌, ◌*◌, ◌≤◌, ◌<◌, length, get_or};
ghost use Rattle.std.proofs.lemmas.List.Edits.{sets};
ghost use Rattle.limits.specs.Limits.{most_days, most_cuts};
ghost use Rattle.theory_lists.specs.Rows.{rows};
ghost use Rattle.base_codes.specs.Code.{on};
ghost use Rattle.base_little_endian.specs.Fields.{u16_bytes, i32_bytes};
ghost use Rattle.session_cuts.specs.Sheet.{blank, day_of};
ghost use Rattle.file_format.specs.Format.{days_begin, day_length, cut_length, day_offset, header, day_bytes, cut_bytes};

use base_little_endian::{put_i16, put_i32, put_u16};
use file_format::{CUT_BYTES, DAYS_BEGIN, FIRST_DAY_AT, day_offset};
use limits::MOST_CUTS;
use session::Numbers;
use session_cuts::{Cut, Entry};

// Where the days begin, as the header has it.
const DAYS_OFFSET: u16 = DAYS_BEGIN as u16;

// The header, and the first counted day behind it.
pub fn put_header(numbers: Numbers, cuts: usize, out: &mut [u8])
    requires { (numbers.days ≤ most_days) × (numbers.first < numbers.days) × (cuts ≤ most_cuts) × (days_begin ≤ length out.old) }
    ensures { out.new ≡ sets out.old 0 (header numbers cuts) }
{
    put_u16(out, 0, numbers.days as u16);
    put_u16(out, 2, cuts as u16);
    put_u16(out, 4, DAYS_OFFSET);
    put_u16(out, 6, day_offset(numbers.days) as u16);
    put_i32(out, 8, numbers.lowest);
    put_i32(out, 12, numbers.highest);
    put_u16(out, FIRST_DAY_AT, numbers.first as u16);
}

fn put_day(out: &mut [u8], at: usize, floor: i16, ceiling: i16, rise: i16)
    requires { at + day_length ≤ length out.old }
    ensures { out.new ≡ sets out.old at (day_bytes floor ceiling rise) }
{
    put_i16(out, at, floor);
    put_i16(out, at + 2, ceiling);
    put_i16(out, at + 4, rise);
}

// The k-th rise; the last day has none, and 0 stands in its place.
fn rise_on(rises: &[i16], k: usize) -> i16
    ensures { result ≡ on rises.now k }
{
    // Not `get`: a function that gives an `Option` of a reference is compiled wrongly for 32 bits (`check_form` of board/build).
    if k < rises.len() { rises[k] } else { 0 }
}

pub fn put_days(floors: &[i16], ceilings: &[i16], rises: &[i16], days: usize, out: &mut [u8])
    requires { (days ≡ length floors.now) × (days ≡ length ceilings.now) × (days ≤ most_days) × (day_offset days ≤ length out.old) }
    ensures { out.new ≡ sets out.old days_begin (rows (λ k. day_bytes (on floors.now k) (on ceilings.now k) (on rises.now k)) days) }
{
    for k in 0..days {
        put_day(
            out,
            day_offset(k),
            floors[k],
            ceilings[k],
            rise_on(rises, k),
        );
    }
}

fn put_fields(kind: u16, day: usize, value: i32, at: usize, out: &mut [u8])
    requires { (day < 65536) × (at + cut_length ≤ length out.old) }
    ensures { out.new ≡ sets out.old at (u16_bytes kind ++ u16_bytes day ++ i32_bytes value) }
{
    put_u16(out, at, kind);
    put_u16(out, at + 2, day as u16);
    put_i32(out, at + 4, value);
}

fn put_entry(entry: Entry, at: usize, out: &mut [u8])
    requires { (day_of entry.cut < 65536) × (at + cut_length ≤ length out.old) }
    ensures { out.new ≡ sets out.old at (cut_bytes entry.cut) }
{
    // The numbers of the kinds are the file's format.
    match entry.cut {
        Cut::DayFloor(day, value) => put_fields(0, day, value, at, out),
        Cut::DayCeiling(day, value) => put_fields(1, day, value, at, out),
        Cut::TotalFloor(day, value) => put_fields(2, day, value, at, out),
        Cut::TotalCeiling(day, value) => put_fields(3, day, value, at, out),
    }
}

pub fn put_entries(entries: [Entry; MOST_CUTS], count: usize, from: usize, out: &mut [u8])
    requires { (count ≤ most_cuts) × (from + count * cut_length ≤ length out.old) × ((j : ℕ) → j < count → day_of (get_or entries j blank).cut < 65536) }
    ensures { out.new ≡ sets out.old from (rows (λ j. cut_bytes (get_or entries j blank).cut) count) }
{
    for j in 0..count {
        put_entry(entries[j], from + j * CUT_BYTES, out);
    }
}
