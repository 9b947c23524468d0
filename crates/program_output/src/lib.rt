// What the programs that print examples share: the profiles that they try, and how ranges and lists print.
#![tactic(auto)]

ghost use Rattle.std.specs.Prelude.{◌≡◌, pos, replicate};
ghost use Rattle.limits.specs.Limits.{most_days};
ghost use Rattle.theory_lists.specs.Written.{written};
ghost use Rattle.session.specs.Opening.{numbers_with, opened, opened_as, profile};
ghost use Rattle.session.specs.Showing.{SessionInBounds, floor_on, ceiling_on, total_floor, total_ceiling};

use limits::MOST_DAYS;
use session::{Numbers, Opened, Session};
use std::fmt;

// ---- profiles

// A profile's numbers and lists, right or wrong.
#[derive(Clone, Copy)]
pub struct Profile<'a> {
    pub days: usize,
    pub first: usize,
    pub floors: &'a [i16],
    pub ceilings: &'a [i16],
    pub rises: &'a [i16],
    pub lowest: i32,
    pub highest: i32,
}

impl Profile<'_> {
    #[tactic(auto, using(session::proofs::SessionBounds::opened_in_bounds))]
    pub fn open(self) -> Opened
        ensures value { opened_as result ≡ opened (profile (numbers_with self.entry.days self.entry.first self.entry.lowest self.entry.highest) self.entry.floors.now self.entry.ceilings.now self.entry.rises.now) }
        ensures in_bounds { SessionInBounds result.session }
    {
        let numbers = Numbers {
            days: self.days,
            first: self.first,
            lowest: self.lowest,
            highest: self.highest,
        };
        Session::open(numbers, self.floors, self.ceilings, self.rises)
    }
}

// Document 01's A.
pub const A: Profile<'static> = Profile {
    days: 3,
    first: 0,
    floors: &[2, 4, 4],
    ceilings: &[6, 7, 7],
    rises: &[0, 0],
    lowest: 10,
    highest: 12,
};

// 0..4, 0..10, 0..6, rises -10, total 0..20.
pub const FALLING: Profile<'static> = Profile {
    days: 3,
    first: 0,
    floors: &[0, 0, 0],
    ceilings: &[4, 10, 6],
    rises: &[-10, -10],
    lowest: 0,
    highest: 20,
};

// ---- what prints

// A session's present ranges, which print as `2..4, 4..5, total 6..9`.
#[derive(Clone, Copy)]
pub struct Ranges {
    pub days: usize,
    pub floors: [i16; MOST_DAYS],
    pub ceilings: [i16; MOST_DAYS],
    pub lowest: i32,
    pub highest: i32,
}

impl Ranges {
    pub fn of(session: Session) -> Ranges
        requires { SessionInBounds session }
        ensures days { result.days ≡ session.days }
        ensures floors { result.floors ≡ written (floor_on session) session.days (replicate most_days (pos 0)) }
        ensures ceilings { result.ceilings ≡ written (ceiling_on session) session.days (replicate most_days (pos 0)) }
        ensures lowest { result.lowest ≡ total_floor session }
        ensures highest { result.highest ≡ total_ceiling session }
    {
        let mut floors = [0; MOST_DAYS];
        let mut ceilings = [0; MOST_DAYS];
        let shown = session.show(&mut floors, &mut ceilings).unwrap();
        Ranges {
            days: session.days,
            floors,
            ceilings,
            lowest: shown.lowest,
            highest: shown.highest,
        }
    }
}

impl fmt::Display for Ranges {
    fn fmt<W: fmt::Write>(&self, f: &mut fmt::Formatter<W>) -> fmt::Result {
        for (floor, ceiling) in self.floors.iter().zip(&self.ceilings).take(self.days) {
            write!(f, "{floor}..{ceiling}, ")?;
        }
        write!(f, "total {}..{}", self.lowest, self.highest)
    }
}

// The places of a list, which print each after a space.
#[derive(Clone, Copy)]
pub struct Places<'a>(pub &'a [u16]);

impl fmt::Display for Places<'_> {
    fn fmt<W: fmt::Write>(&self, f: &mut fmt::Formatter<W>) -> fmt::Result {
        for day in self.0 {
            write!(f, " {day}")?;
        }
        Ok(())
    }
}
