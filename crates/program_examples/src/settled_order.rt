// The days that a cut lists (document 02, request Two): a line for each cut with the places of a list that held 9 before; then cuts of 512 days, whose losses are
// all equal or all different, with how many days stand before the next one as they should.
ghost use Rattle.std.specs.Prelude.{◌≤◌, ◌<◌, IfOk};
ghost use Rattle.session.specs.Showing.{SessionInBounds};

use base_codes::decode_short;
use limits::MOST_DAYS;
use program_output::{A, FALLING, Places, Profile};
use session::Session;
use session_cuts::Cut;
use std::io;

// ---- a few days

// Prints what a cut lists, and gives the session after it.
#[tactic(auto, using(session_cutting::proofs::Laws::cut_in_bounds))]
fn print_cut(rt: &impl Print, text: &str, session: Session, cut: Cut) -> io::Result<Session>
    requires { SessionInBounds session }
    ensures { IfOk result (λ s. SessionInBounds s) }
{
    let mut list = [9u16; 4];
    let after = session_cutting::cut(session, cut, &mut list);
    println!(rt;
        "{text}: {} changed,{}",
        after.answer.unwrap_or(0),
        Places(&list)
    )?;
    Ok(after.session)
}

// 0..9 each, total 0..36.
const FOUR_DAYS: Profile<'static> = Profile {
    days: 4,
    first: 0,
    floors: &[0, 0, 0, 0],
    ceilings: &[9, 9, 9, 9],
    rises: &[0, 0, 0],
    lowest: 0,
    highest: 36,
};

fn of_three_days(rt: &impl Print) -> io::Result<()> {
    print_cut(
        rt,
        "A, day 0 at least 4",
        A.open().session,
        Cut::DayFloor(0, 4),
    )?;
    let after = print_cut(
        rt,
        "A, day 0 at least 3",
        A.open().session,
        Cut::DayFloor(0, 3),
    )?;
    print_cut(rt, "then total at most 11", after, Cut::total_ceiling(11))?;
    print_cut(
        rt,
        "days 0..4, 0..10, 0..6, rises -10, total at most 5",
        FALLING.open().session,
        Cut::total_ceiling(5),
    )?;
    Ok(())
}

fn of_four_days(rt: &impl Print) -> io::Result<()> {
    let session = FOUR_DAYS.open().session;
    print_cut(
        rt,
        "four days 0..9, total at most 10",
        session,
        Cut::total_ceiling(10),
    )?;
    print_cut(rt, "day 2 at most 3", session, Cut::DayCeiling(2, 3))?;
    print_cut(rt, "day 1 at least 5", session, Cut::DayFloor(1, 5))?;
    Ok(())
}

// ---- 512 days

// What day k loses: 5, or what no other day loses.
fn loss(equal: bool, k: usize) -> u16
    requires { k < 512 }
    ensures { result ≤ 4608 }
{
    if equal {
        return 5;
    }
    ((k * 77 % 128 + k / 128 * 128 + 1) * 9) as u16
}

// Each day from -1000 up by what it loses where the total is at its floor.
fn many_days(equal: bool) -> Session
    ensures { SessionInBounds result }
{
    let mut ceilings = [0; MOST_DAYS];
    for (k, ceiling) in ceilings.iter_mut().enumerate() {
        *ceiling = decode_short(loss(equal, k), -1000);
    }
    let profile = Profile {
        days: MOST_DAYS,
        first: 0,
        floors: &[-1000; MOST_DAYS],
        ceilings: &ceilings,
        rises: &[-2000; MOST_DAYS - 1],
        lowest: -512000,
        highest: 2048000,
    };
    profile.open().session
}

// Whether a day stands before the next one as it should: by what they lose, the most first, then by their numbers.
fn is_before(equal: bool, day: u16, next: u16) -> bool {
    let j = usize::from(day);
    let k = usize::from(next);
    if MOST_DAYS <= j || MOST_DAYS <= k {
        return false;
    }
    let x = loss(equal, j);
    let y = loss(equal, k);
    y < x || (y == x && j < k)
}

fn print_many(rt: &impl Print, text: &str, equal: bool) -> io::Result<()> {
    let mut list = [512u16; MOST_DAYS];
    let after = session_cutting::cut(many_days(equal), Cut::total_ceiling(-512000), &mut list);
    let in_order = list
        .windows(2)
        .filter(|pair| is_before(equal, pair[0], pair[1]))
        .count();
    println!(rt;
        "{text}: {} changed, before the next: {in_order}",
        after.answer.unwrap_or(0)
    )
}

pub(crate) fn print(rt: &impl Print) -> io::Result<()> {
    of_three_days(rt)?;
    of_four_days(rt)?;
    print_many(rt, "512 days that lose 5", true)?;
    print_many(rt, "512 days that lose 9 to 4608", false)
}
