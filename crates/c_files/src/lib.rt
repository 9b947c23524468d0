// Profile files, read into byte lists and written from them, as a caller in C hands them over.
#![tactic(auto)]

ghost use Rattle.std.specs.Prelude.{◌≡◌, ◌+◌, ◌-◌, ◌*◌, ◌≤◌, ◌<◌, length, drop};
ghost use Rattle.std.proofs.lemmas.List.Edits.{sets};
ghost use Rattle.limits.specs.Limits.{most_cuts};
ghost use Rattle.theory_lists.specs.First.{first_nonzero};
ghost use Rattle.refusals.specs.Number.{refusal_of};
ghost use Rattle.c_lists.specs.Lists.{lent_points};
ghost use Rattle.c_lists.specs.Profiles.{byte_profile, byte_counts_refusal};
ghost use Rattle.file_format.specs.Format.{cut_length, day_count, floor_at, ceiling_at, rise_at, numbered_at};
ghost use Rattle.c_files.specs.Reading.{no_room_over, contents_as, read_into, cuts_lent};
ghost use Rattle.c_files.specs.Writing.{numbered_refusal, lengths_refusal, write_over, output_over};
ghost use Rattle.file_writing.specs.Writing.{write_as};

use base_little_endian::u16_at;
use c_lists::{points, put_points};
use file_checks::numbered_at;
use file_format::{CUT_BYTES, day_offset};
use file_parts::{put_days, put_header};
use limits::{MOST_CUTS, MOST_DAYS};
use refusals::Refusal;
use session::{Numbers, check_early};
use session_cuts::Cut;

// What reading gives beside the lists: the profile's numbers, and how many cuts there are.
#[derive(Clone, Copy)]
pub struct Contents {
    pub numbers: Numbers,
    pub cuts: usize,
}

// Stores all bytes that stand from `start` on, from a place on. Not std's copy: it calls `memmove`, which an archive needs for nothing else.
fn put_rest(from: &[u8], start: usize, out: &mut [u8], place: usize)
    requires { (start ≤ length from.now) × (place + (length from.now - start) ≤ length out.old) }
    ensures { out.new ≡ sets out.old place (drop start from.now) }
{
    for i in 0..from.len() - start {
        out[place + i] = from[start + i];
    }
}

// ---- reading

// Whether a list is too short for what it would hold, by the lists' counts of bytes.
fn has_no_room(
    days: usize,
    cuts: usize,
    floors: usize,
    ceilings: usize,
    rises: usize,
    list: usize,
) -> bool
    requires { (0 < days) × (cuts ≤ most_cuts) }
    ensures { result ≡ no_room_over days cuts floors ceilings rises list }
{
    (floors / 2 < days) | (ceilings / 2 < days) | (rises / 2 < days - 1) | (list < cuts * CUT_BYTES)
}

// Reads a file: document 01's checks 11, 1, 11, 12, then 2. The cuts are stored as they stand in the file.
pub fn read(
    file: &[u8],
    floors: &mut [u8],
    ceilings: &mut [u8],
    rises: &mut [u8],
    cuts: &mut [u8],
) -> Result<Contents, Refusal>
    ensures value { contents_as result ≡ read_into file.now (length floors.old) (length ceilings.old) (length rises.old) (length cuts.old) }
    ensures floors_after { floors.new ≡ lent_points (refusal_of result) (floor_at file.now) (day_count file.now) floors.old }
    ensures ceilings_after { ceilings.new ≡ lent_points (refusal_of result) (ceiling_at file.now) (day_count file.now) ceilings.old }
    ensures rises_after { rises.new ≡ lent_points (refusal_of result) (rise_at file.now) (day_count file.now - 1) rises.old }
    ensures cuts_after { cuts.new ≡ cuts_lent (refusal_of result) file.now cuts.old }
{
    let mut low = [0i16; MOST_DAYS];
    let mut high = [0i16; MOST_DAYS];
    let mut steps = [0i16; MOST_DAYS];
    let found = file_reading::read(file, &mut low, &mut high, &mut steps)?;
    let numbers = found.numbers;
    let days = numbers.days;
    let count = usize::from(u16_at(file, 2));
    if has_no_room(
        days,
        count,
        floors.len(),
        ceilings.len(),
        rises.len(),
        cuts.len(),
    ) {
        return Err(Refusal::Length);
    }
    put_points(&low, days, floors);
    put_points(&high, days, ceilings);
    put_points(&steps, days - 1, rises);
    put_rest(file, day_offset(days), cuts, 0);
    Ok(Contents {
        numbers,
        cuts: count,
    })
}

// ---- writing

// A numbered cut's value as it is held, or the refusal that the cut has by itself: 12, 7, then 3 or 5.
fn check_numbered(numbered: Option<Cut>, days: usize) -> Result<usize, Refusal>
    ensures { refusal_of result ≡ numbered_refusal days numbered }
{
    let cut = numbered.ok_or(Refusal::Kind)?;
    session_cutting::check(cut, days)
}

// The first refusal of the cuts in their order.
fn check_cuts(cuts: &[u8], count: usize, days: usize) -> Result<(), Refusal>
    requires { (count ≤ most_cuts) × (count * cut_length ≤ length cuts.now) }
    ensures { refusal_of result ≡ first_nonzero (λ j. numbered_refusal days (numbered_at cuts.now (j * cut_length))) count }
{
    for j in 0..count {
        check_numbered(numbered_at(cuts, j * CUT_BYTES), days)?;
    }
    Ok(())
}

// 1 for the counts, then 2 for a list of the wrong length, by the lists' counts of bytes.
fn check_lengths(
    days: usize,
    floors: usize,
    ceilings: usize,
    rises: usize,
    cuts: usize,
) -> Result<(), Refusal>
    ensures { refusal_of result ≡ lengths_refusal (byte_counts_refusal days floors ceilings rises) cuts }
{
    if MOST_CUTS < cuts / CUT_BYTES {
        return Err(Refusal::Count);
    }
    c_lists::check_lengths(days, floors, ceilings, rises)?;
    if cuts % CUT_BYTES != 0 {
        return Err(Refusal::Length);
    }
    Ok(())
}

// Writes a file: document 01's checks 1 to 6 and 13 as opening does, each cut in order as cutting does, then 2 where the output is too short.
pub fn write(
    numbers: Numbers,
    floors: &[u8],
    ceilings: &[u8],
    rises: &[u8],
    cuts: &[u8],
    out: &mut [u8],
) -> Result<usize, Refusal>
    ensures value { write_as result ≡ write_over (byte_profile numbers floors.now ceilings.now rises.now) cuts.now (length out.old) }
    ensures out_after { out.new ≡ output_over (byte_profile numbers floors.now ceilings.now rises.now) cuts.now out.old }
{
    let days = numbers.days;
    check_lengths(days, floors.len(), ceilings.len(), rises.len(), cuts.len())?;
    let mut low = [0i16; MOST_DAYS];
    let mut high = [0i16; MOST_DAYS];
    let mut steps = [0i16; MOST_DAYS];
    points(floors, days, &mut low);
    points(ceilings, days, &mut high);
    points(rises, days - 1, &mut steps);
    let floors = &low[..days];
    let ceilings = &high[..days];
    let rises = &steps[..days - 1];
    check_early(numbers, floors, ceilings, rises)?;
    let count = cuts.len() / CUT_BYTES;
    check_cuts(cuts, count, days)?;
    let from = day_offset(days);
    let length = from + count * CUT_BYTES;
    if out.len() < length {
        return Err(Refusal::Length);
    }
    put_header(numbers, count, out);
    put_days(floors, ceilings, rises, days, out);
    put_rest(cuts, 0, out, from);
    Ok(length)
}
