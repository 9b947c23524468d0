// One line for each bound and each refusal of a cut of document 01's profile A, and for the order of the checks.
ghost use Rattle.std.specs.Prelude.{◌≤◌};
ghost use Rattle.session.specs.Showing.{SessionInBounds};

use crate::refused::{Refused, lines};
use program_output::A;
use session::Session;
use session_cuts::Cut;
use session_cutting::AfterCut;
use std::io;

const DAY_FLOOR: usize = 0;

const TOTAL_FLOOR: usize = 2;

const UNKNOWN: usize = 4;

const DAYS: usize = A.days;

#[tactic(auto, using(session_cutting::proofs::Laws::numbered_in_bounds))]
fn cut(session: Session, kind: usize, day: usize, value: i32, room: usize) -> AfterCut
    requires { SessionInBounds session × (room ≤ 3) }
    ensures { SessionInBounds result.session }
{
    let mut changed = [0u16; DAYS];
    session_cutting::cut_numbered(session, kind, day, value, &mut changed[..room])
}

// A after a cut that no schedule keeps.
pub(crate) fn spent() -> Session
    ensures { SessionInBounds result }
{
    cut(A.open().session, TOTAL_FLOOR, 0, 13, DAYS).session
}

fn of_a(kind: usize, day: usize, value: i32, room: usize) -> Refused
    requires { room ≤ 3 }
{
    Refused(cut(A.open().session, kind, day, value, room).answer.err())
}

fn of_spent(kind: usize, day: usize, value: i32, room: usize) -> Refused
    requires { room ≤ 3 }
{
    Refused(cut(spent(), kind, day, value, room).answer.err())
}

// A total cut of A that is given without a day.
fn without_day(cut: Cut) -> Refused {
    let mut changed = [0u16; DAYS];
    Refused(
        session_cutting::cut(A.open().session, cut, &mut changed)
            .answer
            .err(),
    )
}

fn days(rt: &impl Print) -> io::Result<()> {
    let refusals = [
        ("cut of kind 4", of_a(UNKNOWN, 0, 0, DAYS)),
        ("cut of day 2", of_a(DAY_FLOOR, 2, 0, DAYS)),
        ("cut of day 3", of_a(DAY_FLOOR, 3, 0, DAYS)),
        ("cut of day 0 to 4000", of_a(DAY_FLOOR, 0, 4000, DAYS)),
        ("cut of day 0 to 4001", of_a(DAY_FLOOR, 0, 4001, DAYS)),
        ("cut of day 0 to -1000", of_a(DAY_FLOOR, 0, -1000, DAYS)),
        ("cut of day 0 to -1001", of_a(DAY_FLOOR, 0, -1001, DAYS)),
        ("list of 2 places", of_a(DAY_FLOOR, 0, 3, 2)),
    ];
    lines(rt, &refusals)
}

fn totals(rt: &impl Print) -> io::Result<()> {
    let refusals = [
        ("total cut with day 1", of_a(TOTAL_FLOOR, 1, 0, DAYS)),
        ("total cut to 2048000", of_a(TOTAL_FLOOR, 0, 2048000, DAYS)),
        ("total cut to 2048001", of_a(TOTAL_FLOOR, 0, 2048001, DAYS)),
        ("total cut to -512000", of_a(TOTAL_FLOOR, 0, -512000, DAYS)),
        ("total cut to -512001", of_a(TOTAL_FLOOR, 0, -512001, DAYS)),
    ];
    lines(rt, &refusals)
}

// Day 0 is not refused, and each kind is the one that was asked for.
fn without_days(rt: &impl Print) -> io::Result<()> {
    let refusals = [
        (
            "total floor 12 without a day",
            without_day(Cut::total_floor(12)),
        ),
        (
            "total floor 13 without a day",
            without_day(Cut::total_floor(13)),
        ),
        (
            "total ceiling 10 without a day",
            without_day(Cut::total_ceiling(10)),
        ),
        (
            "total ceiling 9 without a day",
            without_day(Cut::total_ceiling(9)),
        ),
    ];
    lines(rt, &refusals)
}

// The first cut has every cause of a refusal that a cut can have at once, each later one a cause fewer.
fn order(rt: &impl Print) -> io::Result<()> {
    let refusals = [
        (
            "spent, list of 2 places, kind 4, day 3, value 2048001",
            of_spent(UNKNOWN, 3, 2048001, 2),
        ),
        ("of the total", of_spent(TOTAL_FLOOR, 3, 2048001, 2)),
        ("of a day", of_spent(DAY_FLOOR, 3, 2048001, 2)),
        ("of day 0", of_spent(DAY_FLOOR, 0, 2048001, 2)),
        ("of the total, day 0", of_spent(TOTAL_FLOOR, 0, 2048001, 2)),
        ("value 13", of_spent(TOTAL_FLOOR, 0, 13, 2)),
        ("list of 3 places", of_spent(TOTAL_FLOOR, 0, 13, DAYS)),
        ("not spent", of_a(TOTAL_FLOOR, 0, 13, DAYS)),
    ];
    lines(rt, &refusals)
}

pub(crate) fn print(rt: &impl Print) -> io::Result<()> {
    days(rt)?;
    totals(rt)?;
    without_days(rt)?;
    order(rt)
}
