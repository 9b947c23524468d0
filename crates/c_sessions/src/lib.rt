// A session's bytes, opened, cut and shown, as a caller in C hands them over.
#![tactic(auto)]

ghost use Rattle.std.specs.Prelude.{◌≡◌, ◌-◌, ◌/◌, length};
ghost use Rattle.limits.specs.Limits.{lowest_rise, highest_rise};
ghost use Rattle.theory_lists.specs.Written.{written};
ghost use Rattle.base_codes.specs.Code.{code_or_zero};
ghost use Rattle.refusals.specs.Number.{refusal_of};
ghost use Rattle.session.specs.Showing.{shown_as, floor_on, ceiling_on};
ghost use Rattle.session.specs.Stages.{coded_as, coded_profile};
ghost use Rattle.session_cuts.specs.Numbered.{numbered};
ghost use Rattle.session_cutting.specs.Cutting.{answer_as, after_cut};
ghost use Rattle.c_lists.specs.Lists.{point_at, level_at, levels_crossed, lent_points};
ghost use Rattle.c_lists.specs.Profiles.{byte_profile, byte_length_refusal, profile_of};
ghost use Rattle.c_layout.specs.Layout.{session_bytes, decoding};
ghost use Rattle.c_sessions.specs.Sessions.{open_refusal, bytes_opened, bytes_for, list_for, cut_answer, bytes_cut, changed_bytes, shown_over};
ghost use Rattle.c_sessions.specs.Stages.{Cuttable, made_of};

use base_codes::CodedNumbers;
use c_layout::SESSION_BYTES;
use c_lists::{check_lengths, code_points, code_ranges};
use c_loading::{days_of, first_of, is_spent, load_present, show_present, total_of};
use c_storing::{spend, store_cut, store_fresh};
use limits::{HIGHEST_RISE, LOWEST_RISE, MOST_DAYS};
use refusals::Refusal;
use session::{Numbers, Session, Shown};
use session_cuts::Cut;

// ---- opening

// A profile's numbers as codes, or a refusal, and whether a day's floor has a higher code than its ceiling.
#[derive(Clone, Copy)]
struct CodedLists {
    numbers: Result<CodedNumbers, Refusal>,
    crossed: bool,
}

// Codes a profile whose lists are as long as its days ask: document 01's checks 3, 4, 5.
fn code_lists(
    numbers: Numbers,
    floors: &[u8],
    ceilings: &[u8],
    rises: &[u8],
    low: &mut [u16; MOST_DAYS],
    high: &mut [u16; MOST_DAYS],
    steps: &mut [u16; MOST_DAYS],
) -> CodedLists
    requires { byte_length_refusal (byte_profile numbers floors.now ceilings.now rises.now) ≡ 0 }
    ensures numbers_value { coded_as result.numbers ≡ coded_profile (profile_of (byte_profile numbers floors.now ceilings.now rises.now)) }
    ensures crossed_value { result.crossed ≡ levels_crossed floors.now ceilings.now numbers.days }
    ensures low_after { low.new ≡ written (level_at floors.now) numbers.days low.old }
    ensures high_after { high.new ≡ written (level_at ceilings.now) numbers.days high.old }
    ensures steps_after { steps.new ≡ written (λ k. code_or_zero lowest_rise highest_rise (point_at rises.now k)) (numbers.days - 1) steps.old }
{
    let days = numbers.days;
    let ranges = code_ranges(floors, ceilings, days, low, high);
    let bad_rise = code_points(rises, days - 1, LOWEST_RISE, HIGHEST_RISE, steps);
    CodedLists {
        numbers: session::code_numbers(numbers, ranges.outside, bad_rise),
        crossed: ranges.crossed,
    }
}

// Opens such a profile into a session's bytes.
fn open_lists(
    session: &mut [u8],
    numbers: Numbers,
    floors: &[u8],
    ceilings: &[u8],
    rises: &[u8],
) -> Result<(), Refusal>
    requires { (length session.old ≡ session_bytes) × (byte_length_refusal (byte_profile numbers floors.now ceilings.now rises.now) ≡ 0) }
    ensures value { refusal_of result ≡ open_refusal session.old (byte_profile numbers floors.now ceilings.now rises.now) }
    ensures session_after { session.new ≡ bytes_opened session.old (byte_profile numbers floors.now ceilings.now rises.now) }
{
    let mut low = [0u16; MOST_DAYS];
    let mut high = [0u16; MOST_DAYS];
    let mut steps = [0u16; MOST_DAYS];
    let lists = code_lists(
        numbers, floors, ceilings, rises, &mut low, &mut high, &mut steps,
    );
    let coded = lists.numbers?;
    let total = session::open_ranges(&mut low, &mut high, &steps, coded, lists.crossed)?;
    let held = CodedNumbers {
        lowest: total.lowest,
        highest: total.highest,
        ..coded
    };
    store_fresh(&steps, &low, &high, held, session);
    Ok(())
}

// Opens a profile: the checks 1 to 6, 13, then 8; a refusal writes no byte.
pub fn open(
    session: &mut [u8],
    numbers: Numbers,
    floors: &[u8],
    ceilings: &[u8],
    rises: &[u8],
) -> Result<(), Refusal>
    ensures value { refusal_of result ≡ open_refusal session.old (byte_profile numbers floors.now ceilings.now rises.now) }
    ensures session_after { session.new ≡ bytes_opened session.old (byte_profile numbers floors.now ceilings.now rises.now) }
{
    if session.len() != SESSION_BYTES {
        return Err(Refusal::Length);
    }
    check_lengths(numbers.days, floors.len(), ceilings.len(), rises.len())?;
    open_lists(session, numbers, floors, ceilings, rises)
}

// ---- cutting

// Clips by a well-formed cut and tightens everything again: 8, or the days that changed.
fn cut_present(
    session: &mut [u8],
    cut: Cut,
    value: usize,
    changed: &mut [u8],
) -> Result<usize, Refusal>
    requires { Cuttable session.old cut value changed.old }
    ensures value { answer_as result ≡ (made_of session.old cut).answer }
    ensures session_after { session.new ≡ bytes_for session.old (made_of session.old cut) }
    ensures changed_after { changed.new ≡ list_for session.old (made_of session.old cut) changed.old }
{
    let mut rises = [0u16; MOST_DAYS];
    let mut floors = [0u16; MOST_DAYS];
    let mut ceilings = [0u16; MOST_DAYS];
    load_present(session, &mut rises, &mut floors, &mut ceilings);
    let days = days_of(session);
    let first = first_of(session);
    let total = total_of(session);
    let held = CodedNumbers {
        days,
        first,
        lowest: total.lowest,
        highest: total.highest,
    };
    let total = session_cutting::cut_ranges(&mut floors, &mut ceilings, &rises, held, cut, value);
    let Some(total) = total else {
        spend(session);
        return Err(Refusal::NoSchedule);
    };
    let left = CodedNumbers {
        lowest: total.lowest,
        highest: total.highest,
        ..held
    };
    // The rises are done with, and their array takes the losses.
    let count = store_cut(
        &mut rises,
        &mut floors,
        &mut ceilings,
        left,
        session,
        changed,
    );
    Ok(count)
}

// Document 01's checks 12, 7, 3 or 5, 2, 9 from a few bytes, then 8.
fn cut_known(session: &mut [u8], cut: Cut, changed: &mut [u8]) -> Result<usize, Refusal>
    requires { length session.old ≡ session_bytes }
    ensures value { answer_as result ≡ (after_cut (decoding session.old) cut (length changed.old / 2)).answer }
    ensures session_after { session.new ≡ bytes_for session.old (after_cut (decoding session.old) cut (length changed.old / 2)) }
    ensures changed_after { changed.new ≡ list_for session.old (after_cut (decoding session.old) cut (length changed.old / 2)) changed.old }
{
    let days = days_of(session);
    let value = session_cutting::check(cut, days)?;
    if changed.len() / 2 < days {
        return Err(Refusal::Length);
    }
    if is_spent(session) {
        return Err(Refusal::Spent);
    }
    cut_present(session, cut, value, changed)
}

pub fn cut(
    session: &mut [u8],
    kind: usize,
    day: usize,
    value: i32,
    changed: &mut [u8],
) -> Result<usize, Refusal>
    ensures value { answer_as result ≡ cut_answer session.old (numbered kind day value) (length changed.old) }
    ensures session_after { session.new ≡ bytes_cut session.old (numbered kind day value) (length changed.old) }
    ensures changed_after { changed.new ≡ changed_bytes session.old (numbered kind day value) changed.old }
{
    if session.len() != SESSION_BYTES {
        return Err(Refusal::Length);
    }
    let Some(known) = Cut::numbered(kind, day, value) else {
        return Err(Refusal::Kind);
    };
    cut_known(session, known, changed)
}

// ---- showing

pub fn show(session: &[u8], floors: &mut [u8], ceilings: &mut [u8]) -> Result<Shown, Refusal>
    ensures value { shown_as result ≡ shown_over session.now (length floors.old) (length ceilings.old) }
    ensures floors_after { floors.new ≡ lent_points (refusal_of result) (floor_on (decoding session.now)) (decoding session.now).days floors.old }
    ensures ceilings_after { ceilings.new ≡ lent_points (refusal_of result) (ceiling_on (decoding session.now)) (decoding session.now).days ceilings.old }
{
    if session.len() != SESSION_BYTES {
        return Err(Refusal::Length);
    }
    let days = days_of(session);
    if floors.len() / 2 < days {
        return Err(Refusal::Length);
    }
    if ceilings.len() / 2 < days {
        return Err(Refusal::Length);
    }
    show_present(session, floors, ceilings);
    let total = total_of(session);
    Ok(Shown {
        lowest: base_codes::decode(total.lowest, Session::LOWEST_TOTAL),
        highest: base_codes::decode(total.highest, Session::LOWEST_TOTAL),
        spent: is_spent(session),
    })
}
