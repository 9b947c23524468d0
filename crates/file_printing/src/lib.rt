// What the program `ranges` prints for a file.
#![tactic(auto)]

ghost use Rattle.std.specs.Prelude.{◌≡◌, ℕ, ◌+◌, ◌-◌, ◌*◌, ◌≤◌, ◌<◌, length, get_or, take};
ghost use Rattle.std.proofs.lemmas.List.Edits.{sets};
ghost use Rattle.limits.specs.Limits.{most_days, most_cuts};
ghost use Rattle.theory_lists.specs.Front.{in_front};
ghost use Rattle.theory_lists.specs.Rows.{rows};
ghost use Rattle.base_codes.specs.Code.{on};
ghost use Rattle.session.specs.Opening.{opened, profile};
ghost use Rattle.session_cutting.specs.Cutting.{after_cut};
ghost use Rattle.session.specs.Showing.{SessionInBounds};
ghost use Rattle.session_cuts.specs.Sheet.{blank};
ghost use Rattle.file_printing.specs.Printing.{day_line_length, after_entry, cut_all, range, total_line, day_line, refused_line, ranges_text, printed};
ghost use Rattle.file_printing.specs.Stages.{unrefused, Gives};

use limits::{MOST_CUTS, MOST_DAYS};
use refusals::{Refusal, number_of};
use session::{Numbers, Session};
use session_cuts::Entry;

// The most bytes of the total's line, of a day's, and of the text.
const TOTAL_LINE_BYTES: usize = 22;

const DAY_LINE_BYTES: usize = 20;

pub const MOST_TEXT_BYTES: usize = TOTAL_LINE_BYTES + MOST_DAYS * DAY_LINE_BYTES;

const MOST_RISES: usize = MOST_DAYS - 1;

// ---- the cuts

// The session after one cut more.
fn cut_once(session: Session, entry: Entry) -> Result<Session, Refusal>
    requires { SessionInBounds session }
    ensures { Gives result (after_entry (after_cut session entry.cut most_days)) }
{
    let mut changed = [0u16; MOST_DAYS];
    let after = session_lent::cut_held(session, entry.cut, &mut changed);
    after.answer?;
    Ok(after.session)
}

// Applies the first `count` entries in order, up to the first refusal.
fn cut_all(session: Session, count: usize, entries: &[Entry; MOST_CUTS]) -> Result<Session, Refusal>
    requires { SessionInBounds session × (count ≤ most_cuts) }
    ensures { Gives result (cut_all (unrefused session) (λ j. (get_or entries.now j blank).cut) count) }
{
    let mut after = session;
    for j in 0..count {
        after = cut_once(after, entries[j])?;
    }
    Ok(after)
}

// ---- the text

fn put_range(out: &mut [u8], at: usize, low: i32, high: i32) -> usize
    requires { at + length (range low high) ≤ length out.old }
    ensures out_after { out.new ≡ sets out.old at (range low high) }
    ensures value { result ≡ at + length (range low high) }
{
    let first = base_text::put(out, at, b" ");
    let between = base_text::put_number(out, first, low);
    let second = base_text::put(out, between, b" ");
    let end = base_text::put_number(out, second, high);
    base_text::put(out, end, b"\n")
}

fn put_total(out: &mut [u8], low: i32, high: i32) -> usize
    requires { length (total_line low high) ≤ length out.old }
    ensures out_after { out.new ≡ sets out.old 0 (total_line low high) }
    ensures value { result ≡ length (total_line low high) }
{
    let at = base_text::put(out, 0, b"total");
    put_range(out, at, low, high)
}

fn put_day(out: &mut [u8], at: usize, day: usize, low: i16, high: i16) -> usize
    requires { at + length (day_line day low high) ≤ length out.old }
    ensures out_after { out.new ≡ sets out.old at (day_line day low high) }
    ensures value { result ≡ at + length (day_line day low high) }
{
    let number = base_text::put(out, at, b"day ");
    let after = base_text::put_decimal(out, number, day);
    put_range(out, after, low as i32, high as i32)
}

// A line for each day, from `at` on.
fn put_days(
    out: &mut [u8],
    at: usize,
    days: usize,
    floors: &[i16; MOST_DAYS],
    ceilings: &[i16; MOST_DAYS],
) -> usize
    requires { (days ≤ most_days) × ((k : ℕ) → k < days → length (day_line k (on floors.now k) (on ceilings.now k)) ≤ day_line_length) × (at + days * day_line_length ≤ length out.old) }
    ensures out_after { out.new ≡ sets out.old at (rows (λ k. day_line k (on floors.now k) (on ceilings.now k)) days) }
    ensures value { result ≡ at + length (rows (λ k. day_line k (on floors.now k) (on ceilings.now k)) days) }
{
    let mut next = at;
    for k in 0..days {
        next = put_day(out, next, k, floors[k], ceilings[k]);
    }
    next
}

fn put_ranges(session: Session, out: &mut [u8; MOST_TEXT_BYTES]) -> usize
    requires { SessionInBounds session }
    ensures out_after { out.new ≡ in_front (ranges_text session) out.old }
    ensures value { result ≡ length (ranges_text session) }
{
    let mut floors = [0i16; MOST_DAYS];
    let mut ceilings = [0i16; MOST_DAYS];
    let shown = session.show(&mut floors, &mut ceilings).unwrap();
    let at = put_total(out, shown.lowest, shown.highest);
    put_days(out, at, session.days, &floors, &ceilings)
}

fn put_refusal(number: u8, out: &mut [u8; MOST_TEXT_BYTES]) -> usize
    ensures out_after { out.new ≡ in_front (refused_line number) out.old }
    ensures value { result ≡ length (refused_line number) }
{
    let at = base_text::put(out, 0, b"refused ");
    let end = base_text::put_decimal(out, at, number as usize);
    base_text::put(out, end, b"\n")
}

// ---- the stages

// Opens what was read of a file.
fn open_read(
    numbers: Numbers,
    floors: &[i16; MOST_DAYS],
    ceilings: &[i16; MOST_DAYS],
    rises: &[i16; MOST_RISES],
) -> Result<Session, Refusal>
    requires { (0 < numbers.days) × (numbers.days ≤ most_days) }
    ensures { Gives result (opened (profile numbers (take numbers.days floors.now) (take numbers.days ceilings.now) (take (numbers.days - 1) rises.now))) }
{
    let days = numbers.days;
    let opened = Session::open(
        numbers,
        &floors[..days],
        &ceilings[..days],
        &rises[..days - 1],
    );
    match opened.refusal {
        None => Ok(opened.session),
        Some(refusal) => Err(refusal),
    }
}

// Reads a file, opens its profile, applies its cuts in order, and stores at the front of `out` the first refusal, or the ranges.
// Answers how long the text is. Each stage's answer is taken apart by `let .. else`, the form that document 01 names.
pub fn print_ranges(file: &[u8], out: &mut [u8; MOST_TEXT_BYTES]) -> usize
    ensures out_after { out.new ≡ in_front (printed file.now) out.old }
    ensures value { result ≡ length (printed file.now) }
{
    let mut floors = [0i16; MOST_DAYS];
    let mut ceilings = [0i16; MOST_DAYS];
    let mut rises = [0i16; MOST_RISES];
    let reading = file_reading::read(file, &mut floors, &mut ceilings, &mut rises);
    let Ok(contents) = reading else {
        return put_refusal(number_of(&reading), out);
    };
    let opening = open_read(contents.numbers, &floors, &ceilings, &rises);
    let Ok(session) = opening else {
        return put_refusal(number_of(&opening), out);
    };
    let cutting = cut_all(session, contents.sheet.count, &contents.sheet.entries);
    let Ok(session) = cutting else {
        return put_refusal(number_of(&cutting), out);
    };
    put_ranges(session, out)
}
