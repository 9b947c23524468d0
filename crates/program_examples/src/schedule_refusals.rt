// One line for each bound and each refusal of writing and inspecting a schedule of document 01's profile A, which shows 2..4, 4..5, 4..6 and total
// 10..12, and for the order of the checks and of the rules.
ghost use Rattle.std.specs.Prelude.{◌≤◌};
ghost use Rattle.session.specs.Showing.{SessionInBounds};

use crate::cut_refusals::spent;
use crate::refused::{Refused, lines};
use program_output::A;
use refusals::Refusal;
use schedule_inspection::Finding;
use session::Session;
use std::{fmt, io};

const DAYS: usize = A.days;

// ---- for a day

pub(crate) fn on_day(session: Session, day: usize, value: i32, room: usize) -> Refused
    requires { SessionInBounds session × (room ≤ 4) }
{
    let mut list = [0i16; 4];
    Refused(schedule_writing::write_day(session, day, value, &mut list[..room]).err())
}

fn day_of_a(day: usize, value: i32, room: usize) -> Refused
    requires { room ≤ 4 }
{
    on_day(A.open().session, day, value, room)
}

fn days(rt: &impl Print) -> io::Result<()> {
    let setpoints = [
        (0, 1),
        (0, 2),
        (0, 4),
        (0, 5),
        (2, 3),
        (2, 4),
        (2, 6),
        (2, 7),
        (3, 4),
        (0, i32::MIN),
        (0, i32::MAX),
    ];
    for (day, value) in setpoints {
        println!(rt;
            "schedule with {value} on day {day}: {}",
            day_of_a(day, value, DAYS)
        )?;
    }
    Ok(())
}

fn day_lists(rt: &impl Print) -> io::Result<()> {
    for room in 2..=4 {
        println!(rt;
            "schedule with 3 on day 0, list of {room} places: {}",
            day_of_a(0, 3, room)
        )?;
    }
    Ok(())
}

// The first has every cause of a refusal at once, each later one a cause fewer.
fn day_order(rt: &impl Print) -> io::Result<()> {
    let refusals = [
        (
            "spent, list of 2 places, day 3, value 7",
            on_day(spent(), 3, 7, 2),
        ),
        ("list of 3 places", on_day(spent(), 3, 7, DAYS)),
        ("day 2", on_day(spent(), 2, 7, DAYS)),
        ("not spent", day_of_a(2, 7, DAYS)),
        ("value 6", day_of_a(2, 6, DAYS)),
    ];
    lines(rt, &refusals)
}

// ---- for the total

pub(crate) fn with_total(session: Session, value: i32, room: usize) -> Refused
    requires { SessionInBounds session × (room ≤ 4) }
{
    let mut list = [0i16; 4];
    Refused(schedule_writing::write_total(session, value, &mut list[..room]).err())
}

fn total_of_a(value: i32, room: usize) -> Refused
    requires { room ≤ 4 }
{
    with_total(A.open().session, value, room)
}

fn totals(rt: &impl Print) -> io::Result<()> {
    for total in [9, 10, 12, 13, i32::MIN, i32::MAX] {
        println!(rt; "schedule with total {total}: {}", total_of_a(total, DAYS))?;
    }
    Ok(())
}

fn total_lists(rt: &impl Print) -> io::Result<()> {
    for room in 2..=4 {
        println!(rt;
            "schedule with total 11, list of {room} places: {}",
            total_of_a(11, room)
        )?;
    }
    Ok(())
}

fn total_order(rt: &impl Print) -> io::Result<()> {
    let refusals = [
        (
            "spent, list of 2 places, total 13",
            with_total(spent(), 13, 2),
        ),
        ("list of 3 places", with_total(spent(), 13, DAYS)),
        ("not spent", total_of_a(13, DAYS)),
        ("total 12", total_of_a(12, DAYS)),
    ];
    lines(rt, &refusals)
}

// ---- inspected

// What inspecting a schedule answers.
#[derive(Clone, Copy)]
pub(crate) struct Inspection(Result<Finding, Refusal>);

impl fmt::Display for Inspection {
    fn fmt<W: fmt::Write>(&self, f: &mut fmt::Formatter<W>) -> fmt::Result {
        match self.0 {
            Err(refusal) => write!(f, "{}", u8::from(refusal)),
            Ok(Finding::Kept) => write!(f, "kept"),
            Ok(Finding::BrokenDay(day)) => write!(f, "day {day}"),
            Ok(Finding::BrokenRise(rise)) => write!(f, "rise {rise}"),
            Ok(Finding::BrokenTotal) => write!(f, "total"),
        }
    }
}

pub(crate) fn inspected(session: Session, list: &[i16]) -> Inspection
    requires { SessionInBounds session }
{
    Inspection(schedule_inspection::inspect(session, list))
}

fn of_a(list: &[i16]) -> Inspection {
    inspected(A.open().session, list)
}

fn setpoints(rt: &impl Print) -> io::Result<()> {
    let schedules = [
        [1, 4, 6],
        [2, 4, 6],
        [4, 4, 4],
        [5, 4, 4],
        [2, 4, 3],
        [2, 4, 7],
        [i16::MIN, 4, 4],
        [i16::MAX, 4, 4],
        [2, 4, i16::MIN],
        [2, 4, i16::MAX],
    ];
    for [x, y, z] in schedules {
        println!(rt; "setpoints {x}, {y}, {z}: {}", of_a(&[x, y, z]))?;
    }
    Ok(())
}

fn setpoint_lists(rt: &impl Print) -> io::Result<()> {
    println!(rt; "setpoints 2, 4: {}", of_a(&[2, 4]))?;
    println!(rt; "setpoints 2, 4, 4: {}", of_a(&[2, 4, 4]))?;
    println!(rt; "setpoints 2, 4, 4, 4: {}", of_a(&[2, 4, 4, 4]))
}

// The first has every cause at once, each later one a cause fewer.
fn rule_order(rt: &impl Print) -> io::Result<()> {
    let findings = [
        ("spent, setpoints 5, 6", inspected(spent(), &[5, 6])),
        ("setpoints 5, 6, 3", inspected(spent(), &[5, 6, 3])),
        ("not spent", of_a(&[5, 6, 3])),
        ("setpoints 4, 6, 3", of_a(&[4, 6, 3])),
        ("setpoints 4, 5, 3", of_a(&[4, 5, 3])),
        ("setpoints 4, 5, 4", of_a(&[4, 5, 4])),
        ("setpoints 4, 5, 5", of_a(&[4, 5, 5])),
        ("setpoints 4, 4, 4", of_a(&[4, 4, 4])),
    ];
    for (text, finding) in findings {
        println!(rt; "{text}: {finding}")?;
    }
    Ok(())
}

pub(crate) fn print(rt: &impl Print) -> io::Result<()> {
    days(rt)?;
    day_lists(rt)?;
    day_order(rt)?;
    totals(rt)?;
    total_lists(rt)?;
    total_order(rt)?;
    setpoints(rt)?;
    setpoint_lists(rt)?;
    rule_order(rt)
}
