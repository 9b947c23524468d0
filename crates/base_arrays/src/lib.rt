// Sums of levels: of a list, and of the counted days in an array, of which the first n elements are the days.
#![tactic(auto)]

ghost use Rattle.std.specs.Prelude.{◌≡◌, ◌*◌, ◌≤◌, length};
ghost use Rattle.limits.specs.Limits.{most_days, highest_held};
ghost use Rattle.theory_lists.specs.Sum.{sum_for, at};
ghost use Rattle.theory_chains.specs.Sum.{sum};
ghost use Rattle.theory_method.specs.Counted.{counted};
ghost use Rattle.theory_method.specs.Filter.{held};

use limits::{LEVEL_OFFSET, MOST_DAYS};

// The sum of a list of levels. 32 bits hold it.
pub fn sum(levels: &[u16]) -> usize
    requires { length levels.now ≤ most_days }
    ensures { (result ≡ sum_for (at levels.now) 0 (length levels.now)) × (result ≤ length levels.now * 65535) }
{
    let mut total = 0u32;
    // Over the levels themselves the loop counts in 64 bits: 50 instructions more for an opening of 16 days on the board.
    for k in 0..levels.len() as u32 {
        total += levels[k as usize] as u32;
    }
    total as usize
}

// The sum of the counted levels of n days: those from day `first` on.
pub fn counted_sum(levels: &[u16; MOST_DAYS], n: usize, first: usize) -> usize
    requires { (first ≤ n) × (n ≤ most_days) }
    ensures { (result ≡ sum (counted first n) n (at levels.now)) × (result ≤ most_days * 65535) }
{
    sum(&levels[first..n])
}

// The same as a total is held.
#[tactic(auto, unfolding(theory_method::specs::Filter::spare))]
pub fn held_total(levels: &[u16; MOST_DAYS], n: usize, first: usize) -> usize
    requires { (first ≤ n) × (n ≤ most_days) }
    ensures { (result ≡ held n first (at levels.now)) × (result ≤ highest_held) }
{
    counted_sum(levels, n, first) + LEVEL_OFFSET * (MOST_DAYS - (n - first))
}
