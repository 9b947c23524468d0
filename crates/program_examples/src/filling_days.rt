// Profiles whose first days don't count (document 02, request One): a line for each with its ranges, or its refusal; then schedules of one of them.
use crate::refused::lines;
use crate::schedule_refusals::{inspected, on_day, with_total};
use program_output::{A, Profile, Ranges};
use std::io;

// ---- profiles

// A line ends with the ranges, or with the refusal.
fn print_opened(rt: &impl Print, text: &str, profile: Profile<'_>) -> io::Result<()> {
    let opened = profile.open();
    if let Some(refusal) = opened.refusal {
        return println!(rt; "{text}: {}", u8::from(refusal));
    }
    println!(rt; "{text}: {}", Ranges::of(opened.session))
}

// Document 01's A with day 0 filling.
const K: Profile<'static> = Profile { first: 1, ..A };

fn with_first(first: usize) -> Profile<'static> {
    Profile { first, ..A }
}

fn of_three_days(rt: &impl Print) -> io::Result<()> {
    print_opened(rt, "days 2..6, 4..7, 4..7, total 10..12", A)?;
    print_opened(rt, "K, first counted day 1", K)?;
    print_opened(rt, "first counted day 2", with_first(2))?;
    print_opened(rt, "first counted day 3", with_first(3))?;
    print_opened(rt, "first counted day 65535", with_first(65535))?;
    print_opened(
        rt,
        "first counted day 18446744073709551615",
        with_first(usize::MAX),
    )?;
    let crossed = Profile {
        first: 3,
        lowest: 12,
        highest: 10,
        ..A
    };
    print_opened(rt, "first counted day 3, total 12..10", crossed)?;
    let colder = Profile {
        lowest: 8,
        highest: 9,
        ..K
    };
    print_opened(rt, "first counted day 1, total 8..9", colder)
}

const TWICE: Profile<'static> = Profile {
    days: 2,
    first: 1,
    floors: &[0, 0],
    ceilings: &[5, 10],
    rises: &[0],
    lowest: 8,
    highest: 10,
};

const RISING: Profile<'static> = Profile {
    days: 2,
    first: 1,
    floors: &[0, 1],
    ceilings: &[6, 7],
    rises: &[1],
    lowest: 5,
    highest: 6,
};

const COLD: Profile<'static> = Profile {
    days: 2,
    first: 1,
    floors: &[-100, -100],
    ceilings: &[100, 100],
    rises: &[0],
    lowest: 50,
    highest: 60,
};

// Its rise can't be kept.
pub(crate) const NO_SCHEDULE: Profile<'static> = Profile {
    days: 2,
    first: 0,
    floors: &[5, 0],
    ceilings: &[9, 4],
    rises: &[0],
    lowest: 0,
    highest: 20,
};

fn of_two_days(rt: &impl Print) -> io::Result<()> {
    print_opened(
        rt,
        "days 0..5, 0..10, total 8..10, first counted day 1",
        TWICE,
    )?;
    print_opened(
        rt,
        "days 0..6, 1..7, rise 1, total 5..6, first counted day 1",
        RISING,
    )?;
    print_opened(
        rt,
        "days -100..100, -100..100, total 50..60, first counted day 1",
        COLD,
    )?;
    print_opened(
        rt,
        "days 5..9, 0..4, total 0..20, first counted day 2",
        Profile {
            first: 2,
            ..NO_SCHEDULE
        },
    )?;
    print_opened(
        rt,
        "first counted day 1",
        Profile {
            first: 1,
            ..NO_SCHEDULE
        },
    )
}

pub(crate) fn print_profiles(rt: &impl Print) -> io::Result<()> {
    of_three_days(rt)?;
    of_two_days(rt)
}

// ---- schedules of K, which shows 2..6, 4..6, 5..7 and total 10..12

fn written(rt: &impl Print) -> io::Result<()> {
    let session = K.open().session;
    let refusals = [
        ("K with 1 on day 0", on_day(session, 0, 1, 3)),
        ("K with 6 on day 0", on_day(session, 0, 6, 3)),
        ("K with 7 on day 0", on_day(session, 0, 7, 3)),
        ("K with total 9", with_total(session, 9, 3)),
        ("K with total 10", with_total(session, 10, 3)),
        ("K with total 12", with_total(session, 12, 3)),
        ("K with total 13", with_total(session, 13, 3)),
    ];
    lines(rt, &refusals)
}

// The sum of every day is 18, 17, 11 and 15.
fn judged(rt: &impl Print) -> io::Result<()> {
    for [x, y, z] in [[6, 6, 6], [5, 5, 7], [2, 4, 5], [2, 6, 7]] {
        let finding = inspected(K.open().session, &[x, y, z]);
        println!(rt; "K, setpoints {x}, {y}, {z}: {finding}")?;
    }
    Ok(())
}

pub(crate) fn print_schedules(rt: &impl Print) -> io::Result<()> {
    written(rt)?;
    judged(rt)
}
