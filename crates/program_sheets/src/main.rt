// Sheets of cuts (document 02, request Three), run and not proved: a line for each with its refusal and the places of a list that held 99 before; a line for each
// answer, with its cut as it was asked for; and a line with the ranges after them.
#![tactic(auto)]

mod sheets;

ghost use Rattle.std.specs.Prelude.{◌≤◌, IfOk};
ghost use Rattle.session.specs.Showing.{SessionInBounds};

use program_output::{A, FALLING, Places, Ranges};
use refusals::number_of;
use session::Session;
use session_cuts::Cut;
use session_sheets::{AfterSheet, AskedSheet};
use sheets::{ceilings, repeated, six_cuts, spending_cuts, two_cuts};
use std::{fmt, io};

const PLACES: usize = 4;

// ---- what a sheet gives

// A cut as it was asked for.
#[derive(Clone, Copy)]
struct AskedCut(Option<Cut>);

impl fmt::Display for AskedCut {
    fn fmt<W: fmt::Write>(&self, f: &mut fmt::Formatter<W>) -> fmt::Result {
        let Some(cut) = self.0 else {
            return write!(f, "unknown kind");
        };
        match cut {
            Cut::DayFloor(day, value) => write!(f, "day {day} at least {value}"),
            Cut::DayCeiling(day, value) => write!(f, "day {day} at most {value}"),
            Cut::TotalFloor(day, value) => write!(f, "total with day {day} at least {value}"),
            Cut::TotalCeiling(day, value) => write!(f, "total with day {day} at most {value}"),
        }
    }
}

fn print_after(rt: &impl Print, text: &str, after: AfterSheet, list: &[u16]) -> io::Result<()>
    requires { SessionInBounds after.session }
{
    println!(rt;
        "{text}: {}, {} changed,{}",
        number_of(&after.answer),
        after.answer.unwrap_or(0),
        Places(list)
    )?;
    for answered in after.answers.entries.iter().take(after.answers.count) {
        let answer = answered.answer;
        println!(rt;
            "{}: {}, {} changed",
            AskedCut(answered.cut),
            number_of(&answer),
            answer.unwrap_or(0)
        )?;
    }
    let session = after.session;
    let spent = if session.spent { "spent" } else { "not spent" };
    println!(rt; "{spent}: {}", Ranges::of(session))
}

// Prints what a sheet gives where there is room for so many answers and changed days, and gives the session after it.
fn print_sheet(
    rt: &impl Print,
    text: &str,
    session: Session,
    sheet: AskedSheet,
    room: usize,
    places: usize,
) -> io::Result<Session>
    requires { SessionInBounds session × (places ≤ 4) }
    ensures { IfOk result (λ s. SessionInBounds s) }
{
    let mut list = [99u16; PLACES];
    let after = session_sheets::cut_sheet(session, sheet, room, &mut list[..places]);
    print_after(rt, text, after, &list)?;
    Ok(after.session)
}

// With room for its answers and no more.
fn print_taken(
    rt: &impl Print,
    text: &str,
    session: Session,
    sheet: AskedSheet,
) -> io::Result<Session>
    requires { SessionInBounds session }
    ensures { IfOk result (λ s. SessionInBounds s) }
{
    print_sheet(rt, text, session, sheet, sheet.count, PLACES)
}

fn taken(rt: &impl Print) -> io::Result<()> {
    print_taken(rt, "A, sheet of 6 cuts", A.open().session, six_cuts())?;
    let spent = print_taken(rt, "A, sheet of 4 cuts", A.open().session, spending_cuts())?;
    print_taken(rt, "then one of 2", spent, two_cuts())?;
    print_taken(rt, "A, sheet of no cut", A.open().session, repeated(0))?;
    print_taken(
        rt,
        "days 0..4, 0..10, 0..6, rises -10, sheet of 3 cuts",
        FALLING.open().session,
        ceilings(),
    )?;
    Ok(())
}

// The first has every cause of a refusal at once, each later one a cause fewer.
fn refused(rt: &impl Print) -> io::Result<()> {
    print_sheet(
        rt,
        "A, sheet of 513 cuts, no place for an answer or a day",
        A.open().session,
        repeated(513),
        0,
        0,
    )?;
    print_sheet(rt, "1 cut", A.open().session, repeated(1), 0, 0)?;
    print_sheet(rt, "1 answer, 2 days", A.open().session, repeated(1), 1, 2)?;
    Ok(())
}

fn main(rt: HostRuntime) -> io::Result<()> {
    taken(&rt)?;
    refused(&rt)
}
