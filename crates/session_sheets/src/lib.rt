// A sheet of cuts on a session by value (request Three).
#![tactic(auto)]

ghost use Rattle.std.specs.Prelude.{◌≡◌, false, ◌≤◌, length, get_or};
ghost use Rattle.limits.specs.Limits.{most_cuts};
ghost use Rattle.session.specs.Showing.{SessionInBounds};
ghost use Rattle.session_changed.specs.Changes.{NarrowedOrSame};
ghost use Rattle.session_cutting.specs.Cutting.{after_numbered};
ghost use Rattle.theory_lists.specs.Front.{in_front};
ghost use Rattle.session_sheets.specs.Sheets.{not_asked, after_cuts, answered_as, answers_as, answers_to, sheet_refusal, sheet_days, sheet_as, refused_sheet, after_sheet, list_after_sheet};
ghost use Rattle.session_cutting.specs.Cutting.{answer_as, after_as};
ghost use Rattle.refusals.specs.Number.{refusal_number, refusal_of};

use limits::{MOST_CUTS, MOST_DAYS};
use refusals::Refusal;
use session::Session;
use session_cuts::Cut;
use session_cutting::AfterCut;

// A cut of a sheet, as it is asked for: its kind may be unknown.
#[derive(Clone, Copy)]
pub struct Asked {
    pub cut: Option<Cut>,
}

// The first `count` entries are a sheet's cuts, in their order: an array and a count, as in `session_cuts::Sheet`.
#[derive(Clone, Copy)]
pub struct AskedSheet {
    pub count: usize,
    pub entries: [Asked; MOST_CUTS],
}

// A cut as it was asked for, with its number of changed days or its refusal.
#[derive(Clone, Copy)]
pub struct Answered {
    pub cut: Option<Cut>,
    pub answer: Result<usize, Refusal>,
}

// The first `count` entries answer a sheet's cuts. `answers_to` says what stands past them, and there is no heap.
#[derive(Clone, Copy)]
pub struct Answers {
    pub count: usize,
    pub entries: [Answered; MOST_CUTS],
}

// How many days differ between the start and the end, or the sheet's own refusal; each cut's answer; the session.
#[derive(Clone, Copy)]
pub struct AfterSheet {
    pub answer: Result<usize, Refusal>,
    pub answers: Answers,
    pub session: Session,
}

// What the cuts of a sheet make.
#[derive(Clone, Copy)]
struct Made {
    answers: Answers,
    session: Session,
}

// 1, 14, then 2: what a sheet is refused for before its first cut.
pub fn check_sheet(days: usize, cuts: usize, answers: usize, changed: usize) -> Result<(), Refusal>
    ensures { refusal_of result ≡ sheet_refusal days cuts answers changed }
{
    if MOST_CUTS < cuts {
        return Err(Refusal::Count);
    }
    if answers < cuts {
        return Err(Refusal::Answers);
    }
    if changed < days {
        return Err(Refusal::Length);
    }
    Ok(())
}

// What stands past a sheet's answers.
const NOT_ANSWERED: Answered = Answered {
    cut: None,
    answer: Ok(0),
};

// ---- the cuts

// One cut more on the session that the one before left.
fn cut_once(after: AfterCut, asked: Asked) -> AfterCut
    requires { SessionInBounds after.session }
    ensures { (after_as result ≡ after_numbered after.session asked.cut after.session.days) × SessionInBounds result.session }
{
    let session = after.session;
    let n = session.days;
    let mut changed = [0u16; MOST_DAYS];
    session_cutting::cut_asked(session, asked.cut, &mut changed[..n])
}

fn answer_for(asked: Asked, after: AfterCut) -> Answered
    ensures { answered_as result ≡ record { cut = asked.cut; answer = answer_as after.answer } }
{
    Answered {
        cut: asked.cut,
        answer: after.answer,
    }
}

// No cut is made yet.
fn start(session: Session) -> AfterCut
    ensures { result.session ≡ session }
{
    AfterCut {
        answer: Ok(0),
        session,
    }
}

// Makes the first `count` cuts in order.
fn cut_all(session: Session, count: usize, asked: [Asked; MOST_CUTS]) -> Made
    requires { SessionInBounds session × (count ≤ most_cuts) }
    ensures { (answers_as result.answers ≡ answers_to session (λ j. (get_or asked j not_asked).cut) count) × (result.session ≡ after_cuts session (λ j. (get_or asked j not_asked).cut) count) }
{
    let mut after = start(session);
    let mut entries = [NOT_ANSWERED; MOST_CUTS];
    for j in 0..count {
        after = cut_once(after, asked[j]);
        entries[j] = answer_for(asked[j], after);
    }
    Made {
        answers: Answers { count, entries },
        session: after.session,
    }
}

// ---- the sheet

// Lists the days that differ between the start and the end, unless the session ends spent; gives their number.
fn list_end(start: Session, end: Session, changed: &mut [u16]) -> usize
    requires { SessionInBounds start × (end.spent ≡ false → NarrowedOrSame start.present.floors start.present.ceilings end.present.floors end.present.ceilings start.days) × (start.days ≤ length changed.old) }
    ensures value { result ≡ length (sheet_days start end) }
    ensures changed_after { changed.new ≡ in_front (sheet_days start end) changed.old }
{
    if end.spent {
        return 0;
    }
    let was = start.present;
    let is = end.present;
    let floors = was.floors;
    let ceilings = was.ceilings;
    let low = is.floors;
    let high = is.ceilings;
    session_changed::list_differences(&floors, &ceilings, &low, &high, start.days, changed)
}

fn refuse(refusal: Refusal, session: Session) -> AfterSheet
    ensures { sheet_as result ≡ refused_sheet (refusal_number refusal) session }
{
    AfterSheet {
        answer: Err(refusal),
        answers: Answers {
            count: 0,
            entries: [NOT_ANSWERED; MOST_CUTS],
        },
        session,
    }
}

// Makes up to 512 cuts in order, where there is room for that many answers; the checks 1, 14, 2, before the first cut.
pub fn cut_sheet(
    session: Session,
    sheet: AskedSheet,
    room: usize,
    changed: &mut [u16],
) -> AfterSheet
    requires { SessionInBounds session }
    ensures value { sheet_as result ≡ after_sheet session sheet room (length changed.old) }
    ensures changed_after { changed.new ≡ list_after_sheet session (sheet_as result) changed.old }
{
    let count = sheet.count;
    if let Err(refusal) = check_sheet(session.days, count, room, changed.len()) {
        return refuse(refusal, session);
    }
    let made = cut_all(session, count, sheet.entries);
    let days = list_end(session, made.session, changed);
    AfterSheet {
        answer: Ok(days),
        answers: made.answers,
        session: made.session,
    }
}
