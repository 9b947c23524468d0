// Floors carried forward, ceilings carried back, and whether a floor is above its ceiling. A rise code is the rise plus 2,000.
#![tactic(auto)]

ghost use Rattle.std.specs.Prelude.{◌≡◌, ◌≤◌, ◌<◌, ltb};
ghost use Rattle.limits.specs.Limits.{most_days};
ghost use Rattle.theory_lists.specs.Sum.{at};
ghost use Rattle.theory_lists.specs.Written.{written};
ghost use Rattle.theory_method.specs.Filter.{carried, first_crossed};
ghost use Rattle.tighten_carry.specs.Back.{carried_back};

use limits::{MOST_DAYS, RISE_OFFSET};

// Carries the floors forward, up to the first day whose carried floor is above its ceiling: the result, or n. `up` is the
// least level of day i plus 2,000.
pub fn carry(
    floors: &mut [u16; MOST_DAYS],
    ceilings: &[u16; MOST_DAYS],
    rises: &[u16; MOST_DAYS],
    n: usize,
) -> usize
    requires { n ≤ most_days }
    ensures value { result ≡ first_crossed (carried floors.old rises.now) (at ceilings.now) n }
    ensures floors_after { floors.new ≡ written (carried floors.old rises.now) result floors.old }
{
    let mut up = 0u32;
    for i in 0..n as u32 {
        let k = i as usize;
        let floor = (floors[k] as u32 + RISE_OFFSET as u32).max(up) - RISE_OFFSET as u32;
        if (ceilings[k] as u32) < floor {
            return k;
        }
        floors[k] = floor as u16;
        up = floor + rises[k] as u32;
    }
    n
}

// Carries back from day n to the days before it: each level is at most the one after less the rise between them.
pub fn carry_back(levels: &mut [u16; MOST_DAYS], rises: &[u16; MOST_DAYS], n: usize)
    requires { n < most_days }
    ensures { levels.new ≡ written (carried_back levels.old rises.now n) n levels.old }
{
    let mut high = levels[n] as u32;
    for i in (0..n as u32).rev() {
        let k = i as usize;
        let allowed = (high + RISE_OFFSET as u32).saturating_sub(rises[k] as u32);
        high = allowed.min(levels[k] as u32);
        levels[k] = high as u16;
    }
}

// Whether the floor of one of the first n days is above its ceiling.
pub fn is_crossed(floors: &[u16; MOST_DAYS], ceilings: &[u16; MOST_DAYS], n: usize) -> bool
    requires { n ≤ most_days }
    ensures { result ≡ ltb (first_crossed (at floors.now) (at ceilings.now) n) n }
{
    let mut crossed = false;
    for i in 0..n {
        crossed |= ceilings[i] < floors[i];
    }
    crossed
}
