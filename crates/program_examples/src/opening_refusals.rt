// One line for each bound of an entry and each refusal of opening.
ghost use Rattle.std.specs.Prelude.{◌≤◌};

use crate::filling_days::NO_SCHEDULE;
use crate::refused::{Refused, lines};
use program_output::Profile;
use std::io;

fn opened(profile: Profile) -> Refused {
    Refused(profile.open().refusal)
}

// ---- lengths

// Days of zeros, in lists of these lengths.
fn lengths(days: usize, floors: usize, ceilings: usize, rises: usize) -> Refused
    requires { (floors ≤ 513) × (ceilings ≤ 513) × (rises ≤ 513) }
{
    let zeros = [0i16; 513];
    let profile = Profile {
        days,
        first: 0,
        floors: &zeros[..floors],
        ceilings: &zeros[..ceilings],
        rises: &zeros[..rises],
        lowest: 0,
        highest: 0,
    };
    opened(profile)
}

fn day_counts(rt: &impl Print) -> io::Result<()> {
    let refusals = [
        ("0 days", lengths(0, 0, 0, 0)),
        ("512 days", lengths(512, 512, 512, 511)),
        ("513 days", lengths(513, 513, 513, 512)),
    ];
    lines(rt, &refusals)
}

fn list_lengths(rt: &impl Print) -> io::Result<()> {
    let refusals = [
        ("2 days, 1 floor", lengths(2, 1, 2, 1)),
        ("2 days, 3 floors", lengths(2, 3, 2, 1)),
        ("2 days, 1 ceiling", lengths(2, 2, 1, 1)),
        ("2 days, 3 ceilings", lengths(2, 2, 3, 1)),
        ("2 days, 0 rises", lengths(2, 2, 2, 0)),
        ("2 days, 2 rises", lengths(2, 2, 2, 2)),
    ];
    lines(rt, &refusals)
}

// ---- numbers

// One day from floor to ceiling.
fn day(floor: i16, ceiling: i16, lowest: i32, highest: i32) -> Refused {
    let profile = Profile {
        days: 1,
        first: 0,
        floors: &[floor],
        ceilings: &[ceiling],
        rises: &[],
        lowest,
        highest,
    };
    opened(profile)
}

fn points(rt: &impl Print) -> io::Result<()> {
    for point in [4000i16, 4001, -1000, -1001] {
        let total = i32::from(point);
        println!(rt; "point {point}: {}", day(point, point, total, total))?;
    }
    Ok(())
}

// Two days of the widest range.
fn rise(rise: i16) -> Refused {
    let profile = Profile {
        days: 2,
        first: 0,
        floors: &[-1000, -1000],
        ceilings: &[4000, 4000],
        rises: &[rise],
        lowest: -512000,
        highest: 2048000,
    };
    opened(profile)
}

fn rises(rt: &impl Print) -> io::Result<()> {
    for least in [2000, 2001, -2000, -2001] {
        println!(rt; "rise {least}: {}", rise(least))?;
    }
    Ok(())
}

fn totals(rt: &impl Print) -> io::Result<()> {
    for (lowest, highest) in [(-512000, 2048000), (-512001, 2048000), (-512000, 2048001)] {
        println!(rt;
            "total {lowest}..{highest}: {}",
            day(-1000, 4000, lowest, highest)
        )?;
    }
    Ok(())
}

fn ranges(rt: &impl Print) -> io::Result<()> {
    let refusals = [
        ("day 1..0", day(1, 0, 0, 1)),
        ("total 1..0", day(0, 1, 1, 0)),
        ("day 3..8, total 9..9", day(3, 8, 9, 9)),
        ("days 5..9 and 0..4, rise 0", opened(NO_SCHEDULE)),
    ];
    lines(rt, &refusals)
}

// ---- order

// Two days from 0 to 5 with each cause of a refusal from a place of the order on.
fn causes_from(place: u8) -> Refused {
    let low = if place <= 3 { -1001 } else { 0 };
    let high = if place <= 6 { 6 } else { 0 };
    let rise = match place {
        0..=4 => 2001,
        5..=8 => 2000,
        _ => 0,
    };
    let few = if place <= 2 { 2 } else { 1 };
    let profile = Profile {
        days: if place <= 1 { 513 } else { 2 },
        first: if place <= 7 { 2 } else { 1 },
        floors: &[low, high],
        ceilings: &[5, 5],
        rises: &[rise, 0][..few],
        lowest: if place <= 5 { -512001 } else { -512000 },
        highest: 2048000,
    };
    opened(profile)
}

// Opening has no cause 7, and 13 in its place. No cause comes after 8.
fn order(rt: &impl Print) -> io::Result<()> {
    for place in 1..10 {
        let cause = if place == 7 { 13 } else { place };
        println!(rt; "causes from {cause} on: {}", causes_from(place))?;
    }
    Ok(())
}

pub(crate) fn print(rt: &impl Print) -> io::Result<()> {
    day_counts(rt)?;
    points(rt)?;
    list_lengths(rt)?;
    rises(rt)?;
    totals(rt)?;
    ranges(rt)?;
    order(rt)
}
