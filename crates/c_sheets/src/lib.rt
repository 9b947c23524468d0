// A sheet of cuts on a session's bytes (request Three). The ranges are loaded one time, cut in arrays, and stored one time.
#![tactic(auto)]

ghost use Rattle.std.specs.Prelude.{◌≡◌, ◌+◌, ◌*◌, ◌≤◌, length};
ghost use Rattle.std.proofs.lemmas.List.Edits.{sets};
ghost use Rattle.limits.specs.Limits.{most_days};
ghost use Rattle.theory_method.specs.Filter.{zeros};
ghost use Rattle.session.specs.Showing.{SessionInBounds};
ghost use Rattle.session.specs.declared.Session.{Session};
ghost use Rattle.session_cutting.specs.Cutting.{answer_as, after_numbered};
ghost use Rattle.refusals.specs.Number.{refusal_of};
ghost use Rattle.session_steps.specs.Steps.{Holds, Holding, Stepped};
ghost use Rattle.c_layout.specs.Layout.{session_bytes, decoding};
ghost use Rattle.c_sheets.specs.Sheets.{asked_at, answer_length, answer_bytes, sheet_answer, bytes_after_sheet, answers_after, days_after};
ghost use Rattle.c_sheets.specs.Stages.{RoomFor, Made, Sheetable, MadeOver};

use base_codes::CodedNumbers;
use base_little_endian::put_u16;
use c_layout::{CELL_BYTES, SESSION_BYTES};
use c_loading::{days_of, first_of, is_spent, load_present, total_of};
use c_storing::{spend, store_cut};
use file_checks::numbered_at;
use file_format::CUT_BYTES;
use limits::MOST_DAYS;
use refusals::{Refusal, number_of};
use session_sheets::check_sheet;
use session_steps::{Step, count_narrowed, cut_next};

const ANSWER_BYTES: usize = 2 * CELL_BYTES;

// Stores an answer.
fn put_answer(answer: Result<usize, Refusal>, place: usize, out: &mut [u8])
    requires { ((answer_as answer).changed ≤ most_days) × (place + answer_length ≤ length out.old) }
    ensures { out.new ≡ sets out.old place (answer_bytes (answer_as answer)) }
{
    let changed = answer.unwrap_or(0);
    put_u16(out, place, u16::from(number_of(&answer)));
    put_u16(out, place + CELL_BYTES, changed as u16);
}

// Makes the cut that stands at place j of a list, and stores its answer.
fn cut_listed(
    step: Step,
    cuts: &[u8],
    j: usize,
    rises: &[u16; MOST_DAYS],
    floors: &mut [u16; MOST_DAYS],
    ceilings: &mut [u16; MOST_DAYS],
    widths: &mut [u16; MOST_DAYS],
    answers: &mut [u8],
) -> Step
    requires { Holding step rises.now floors.old ceilings.old widths.old × RoomFor (j + 1) cuts.now answers.old }
    ensures stepped { (s : Session) → SessionInBounds s → Holds s step rises.now floors.old ceilings.old widths.old → Stepped (after_numbered s (asked_at cuts.now j) s.days) result rises.now floors.new ceilings.new widths.new }
    ensures answers_after { answers.new ≡ sets answers.old (j * answer_length) (answer_bytes (answer_as result.answer)) }
{
    let asked = numbered_at(cuts, j * CUT_BYTES);
    let next = cut_next(step, asked, rises, floors, ceilings, widths);
    put_answer(next.answer, j * ANSWER_BYTES, answers);
    next
}

// Makes the first `count` cuts of a list in order.
fn cut_all(
    step: Step,
    cuts: &[u8],
    count: usize,
    rises: &[u16; MOST_DAYS],
    floors: &mut [u16; MOST_DAYS],
    ceilings: &mut [u16; MOST_DAYS],
    widths: &mut [u16; MOST_DAYS],
    answers: &mut [u8],
) -> Step
    requires { Holding step rises.now floors.old ceilings.old widths.old × RoomFor count cuts.now answers.old }
    ensures { (s : Session) → SessionInBounds s → Holds s step rises.now floors.old ceilings.old widths.old → Made s cuts.now count answers.old result rises.now floors.new ceilings.new widths.new answers.new }
{
    let mut at = step;
    for j in 0..count {
        at = cut_listed(at, cuts, j, rises, floors, ceilings, widths, answers);
    }
    at
}

// Loads a session into arrays that hold zeros.
fn load(
    session: &[u8],
    rises: &mut [u16; MOST_DAYS],
    floors: &mut [u16; MOST_DAYS],
    ceilings: &mut [u16; MOST_DAYS],
    widths: &mut [u16; MOST_DAYS],
) -> Step
    requires { (length session.now ≡ session_bytes) × (rises.old ≡ zeros) × (floors.old ≡ zeros) × (ceilings.old ≡ zeros) × (widths.old ≡ zeros) }
    ensures { Holds (decoding session.now) result rises.new floors.new ceilings.new widths.new }
{
    load_present(session, rises, floors, ceilings);
    let days = days_of(session);
    let first = first_of(session);
    let total = total_of(session);
    let spent = is_spent(session);
    count_narrowed(floors, ceilings, days, widths);
    Step {
        numbers: CodedNumbers {
            days,
            first,
            lowest: total.lowest,
            highest: total.highest,
        },
        spent,
        answer: Ok(0),
    }
}

// Makes the cuts of a sheet that no check refuses, and lists the days that differ afterwards; gives their number.
fn make_cuts(
    session: &mut [u8],
    cuts: &[u8],
    count: usize,
    answers: &mut [u8],
    changed: &mut [u8],
) -> usize
    requires { Sheetable session.old cuts.now answers.old changed.old count }
    ensures { MadeOver session.old cuts.now count answers.old changed.old result session.new answers.new changed.new }
{
    let mut rises = [0u16; MOST_DAYS];
    let mut floors = [0u16; MOST_DAYS];
    let mut ceilings = [0u16; MOST_DAYS];
    let mut widths = [0u16; MOST_DAYS];
    let start = load(session, &mut rises, &mut floors, &mut ceilings, &mut widths);
    let end = cut_all(
        start,
        cuts,
        count,
        &rises,
        &mut floors,
        &mut ceilings,
        &mut widths,
        answers,
    );
    if start.spent {
        return 0;
    }
    if end.spent {
        spend(session);
        return 0;
    }
    // The rises are done with, and their array takes the losses.
    let left = end.numbers;
    store_cut(
        &mut rises,
        &mut floors,
        &mut ceilings,
        left,
        session,
        changed,
    )
}

// Makes up to 512 cuts in order: the checks 2 for the session's length, 1, 14, 2, all before the first cut.
pub fn cut_sheet(
    session: &mut [u8],
    cuts: &[u8],
    answers: &mut [u8],
    changed: &mut [u8],
) -> Result<usize, Refusal>
    ensures value { answer_as result ≡ sheet_answer session.old cuts.now (length answers.old) (length changed.old) }
    ensures session_after { session.new ≡ bytes_after_sheet (refusal_of result) session.old cuts.now }
    ensures answers_after { answers.new ≡ answers_after (refusal_of result) session.old cuts.now answers.old }
    ensures changed_after { changed.new ≡ days_after (refusal_of result) session.old cuts.now changed.old }
{
    if session.len() != SESSION_BYTES {
        return Err(Refusal::Length);
    }
    let count = cuts.len() / CUT_BYTES;
    check_sheet(
        days_of(session),
        count,
        answers.len() / ANSWER_BYTES,
        changed.len() / CELL_BYTES,
    )?;
    if cuts.len() % CUT_BYTES != 0 {
        return Err(Refusal::Length);
    }
    Ok(make_cuts(session, cuts, count, answers, changed))
}
