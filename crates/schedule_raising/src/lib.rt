// Floors raised to a total: the levels of a schedule, in a closed form.
#![tactic(auto)]

ghost use Rattle.std.specs.Prelude.{◌≡◌, ◌+◌, ◌-◌, ◌≤◌};
ghost use Rattle.limits.specs.Limits.{most_days, highest_level, rise_offset, highest_rise_code, highest_total_code, free_level};
ghost use Rattle.theory_lists.specs.Sum.{at};
ghost use Rattle.theory_lists.specs.Written.{written};
ghost use Rattle.theory_method.specs.Filter.{box, InBounds, held};
ghost use Rattle.schedule_raising.specs.Raising.{raised_day, raised_to};

use base_arrays::held_total;
use limits::{FREE_LEVEL, MOST_DAYS, RISE_OFFSET};

// A day's level, and what the sum still lacks, in 32 bits: a small processor computes with twice as many instructions in 64.
#[derive(Clone, Copy)]
struct Raised {
    level: u32,
    rest: u32,
}

// The greatest level that the rise to the next day's level allows, or 0 where that is below the scale. A rise code is the rise plus 2,000.
fn most_before(next: u32, rise: u32) -> u32
    requires { (next ≤ free_level) × (rise ≤ highest_rise_code) }
    ensures { result ≡ next + rise_offset - rise }
{
    (next + RISE_OFFSET as u32).saturating_sub(rise)
}

// The level of the day before `next`, raised as far as the sum, the ceiling and the rise allow.
#[tactic(auto, unfolding(crate::specs::Raising::raised_day))]
fn raise_day(floor: u32, ceiling: u32, rise: u32, next: Raised) -> Raised
    requires { (floor ≤ highest_level) × (ceiling ≤ highest_level) × (rise ≤ highest_rise_code) × (next.level ≤ free_level) × (next.rest ≤ highest_total_code) }
    ensures { result ≡ raised_day floor ceiling rise next }
{
    let most = floor + next.rest;
    let limit = ceiling.min(most_before(next.level, rise));
    let level = floor.max(most.min(limit));
    Raised {
        level,
        rest: most - level,
    }
}

// Raises the floors of the counted days, from the last day on, until their sum is the total.
pub fn raise_to(
    floors: &mut [u16; MOST_DAYS],
    ceilings: &[u16; MOST_DAYS],
    rises: &[u16; MOST_DAYS],
    n: usize,
    first: usize,
    total: usize,
)
    requires { InBounds (box floors.old ceilings.now rises.now n first 0 total) }
    ensures { floors.new ≡ written (raised_to floors.old ceilings.now rises.now n first total) n floors.old }
{
    let mut day = Raised {
        level: FREE_LEVEL as u32,
        rest: total.saturating_sub(held_total(floors, n, first)) as u32,
    };
    for i in (first as u32..n as u32).rev() {
        let k = i as usize;
        day = raise_day(floors[k] as u32, ceilings[k] as u32, rises[k] as u32, day);
        floors[k] = day.level as u16;
    }
}
