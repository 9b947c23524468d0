// The days of a profile file, one after another from its bytes.
#![tactic(auto)]

ghost use Rattle.std.specs.Prelude.{◌≡◌, ◌+◌, ◌-◌, ◌≤◌, ◌<◌, length, set};
ghost use Rattle.theory_lists.specs.Written.{written};
ghost use Rattle.file_format.specs.Format.{day_length, day_offset, floor_at, ceiling_at, rise_at};
ghost use Rattle.file_days.specs.Days.{day_at, past};

use base_little_endian::i16_at;
use file_format::{DAY_BYTES, DAYS_BEGIN};

// A day's floor and ceiling, and the rise to the next day.
#[derive(Clone, Copy)]
struct Day {
    floor: i16,
    ceiling: i16,
    rise: i16,
}

// A file's bytes, and where the next day begins.
#[derive(Clone, Copy)]
struct DayReader<'a> {
    bytes: &'a [u8],
    at: usize,
}

impl DayReader<'_> {
    // The next day. The reader moves on past it.
    fn next(&mut self) -> Day
        requires { self.old.at + day_length ≤ length self.old.bytes.now }
        ensures value { result ≡ day_at self.old.bytes.now self.old.at }
        ensures moved { self.new ≡ past self.old }
    {
        let at = self.at;
        self.at = at + DAY_BYTES;
        Day {
            floor: i16_at(self.bytes, at),
            ceiling: i16_at(self.bytes, at + 2),
            rise: i16_at(self.bytes, at + 4),
        }
    }
}

fn store_range(day: Day, k: usize, floors: &mut [i16], ceilings: &mut [i16])
    requires { (k < length floors.old) × (k < length ceilings.old) }
    ensures floors_after { floors.new ≡ set floors.old k day.floor }
    ensures ceilings_after { ceilings.new ≡ set ceilings.old k day.ceiling }
{
    floors[k] = day.floor;
    ceilings[k] = day.ceiling;
}

// Stores each day's floor and ceiling, and the rise to the next day.
pub fn store_days(
    bytes: &[u8],
    days: usize,
    floors: &mut [i16],
    ceilings: &mut [i16],
    rises: &mut [i16],
)
    requires { (0 < days) × (day_offset days ≤ length bytes.now) × (days ≤ length floors.old) × (days ≤ length ceilings.old) × (days - 1 ≤ length rises.old) }
    ensures floors_after { floors.new ≡ written (floor_at bytes.now) days floors.old }
    ensures ceilings_after { ceilings.new ≡ written (ceiling_at bytes.now) days ceilings.old }
    ensures rises_after { rises.new ≡ written (rise_at bytes.now) (days - 1) rises.old }
{
    let last = days - 1;
    let mut reader = DayReader {
        bytes,
        at: DAYS_BEGIN,
    };
    for k in 0..last {
        let day = reader.next();
        store_range(day, k, floors, ceilings);
        rises[k] = day.rise;
    }
    store_range(reader.next(), last, floors, ceilings);
}
