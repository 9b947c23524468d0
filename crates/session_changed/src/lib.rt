// Which days a cut changed, by what their ranges lost.
#![tactic(auto)]

ghost use Rattle.std.specs.Prelude.{◌≡◌, ◌*◌, ◌≤◌, length};
ghost use Rattle.limits.specs.Limits.{most_days};
ghost use Rattle.theory_lists.specs.Front.{in_front};
ghost use Rattle.theory_lists.specs.Written.{written};
ghost use Rattle.base_little_endian.specs.Fields.{u16_at};
ghost use Rattle.session_order.specs.Order.{days_where, settled_order};
ghost use Rattle.session_changed.specs.Changes.{differs, lost, NarrowedOrSame};

use base_little_endian::{CELL_BYTES, u16_at};
use limits::MOST_DAYS;
use session_order::list_losers;

const LIST_BYTES: usize = MOST_DAYS * CELL_BYTES;

// Writes what the range of each day lost.
fn write_losses(
    floors: &[u16; MOST_DAYS],
    ceilings: &[u16; MOST_DAYS],
    low: &[u16; MOST_DAYS],
    high: &[u16; MOST_DAYS],
    n: usize,
    losses: &mut [u16; MOST_DAYS],
)
    requires { n ≤ most_days }
    ensures { losses.new ≡ written (lost floors.now ceilings.now low.now high.now) n losses.old }
{
    for k in 0..n {
        let before = ceilings[k].saturating_sub(floors[k]);
        let after = high[k].saturating_sub(low[k]);
        losses[k] = before.saturating_sub(after);
    }
}

// Reads the first days of a list of bytes.
fn read_days(cells: &[u8], count: usize, days: &mut [u16])
    requires { (count ≤ most_days) × (count * 2 ≤ length cells.now) × (count ≤ length days.old) }
    ensures { days.new ≡ written (λ k. u16_at cells.now (k * 2)) count days.old }
{
    for k in 0..count {
        days[k] = u16_at(cells, k * CELL_BYTES);
    }
}

// Writes each day whose floor or ceiling differs at the front of the list, the largest loss first and equal losses by day, and gives their number.
pub fn list_differences(
    floors: &[u16; MOST_DAYS],
    ceilings: &[u16; MOST_DAYS],
    low: &[u16; MOST_DAYS],
    high: &[u16; MOST_DAYS],
    n: usize,
    changed: &mut [u16],
) -> usize
    requires { (n ≤ most_days) × (n ≤ length changed.old) × NarrowedOrSame floors.now ceilings.now low.now high.now n }
    ensures value { result ≡ length (settled_order (lost floors.now ceilings.now low.now high.now) (days_where (differs floors.now ceilings.now low.now high.now) n)) }
    ensures changed_after { changed.new ≡ in_front (settled_order (lost floors.now ceilings.now low.now high.now) (days_where (differs floors.now ceilings.now low.now high.now) n)) changed.old }
{
    let mut losses = [0u16; MOST_DAYS];
    write_losses(floors, ceilings, low, high, n, &mut losses);
    let mut next = [0u16; MOST_DAYS];
    let mut links = [0u16; MOST_DAYS];
    let mut cells = [0u8; LIST_BYTES];
    let count = list_losers(&losses, n, &mut next, &mut links, &mut cells);
    read_days(&cells, count, changed);
    count
}
