// Document 01's filtering, on levels as shown.
#![tactic(auto)]

ghost use Rattle.std.specs.Prelude.{◌≡◌};
ghost use Rattle.theory_method.specs.Filter.{InBounds, tightened};
ghost use Rattle.tighten_filtering.specs.Boxed.{boxed, tight_as};

use base_arrays::held_total;
use base_codes::{CodedNumbers, TotalRange};
use limits::MOST_DAYS;
use tighten_carry::carry;
use tighten_passes::{lower_ceilings, raise_floors};

// Tightens the ranges of the days, and gives the total's. Where there is no schedule the arrays are left carried or lowered, as far as `tightened` says.
pub fn tighten(
    floors: &mut [u16; MOST_DAYS],
    ceilings: &mut [u16; MOST_DAYS],
    rises: &[u16; MOST_DAYS],
    numbers: CodedNumbers,
) -> Option<TotalRange>
    requires { InBounds (boxed floors.old ceilings.old rises.now numbers) }
    ensures { tight_as result floors.new ceilings.new ≡ tightened (boxed floors.old ceilings.old rises.now numbers) }
{
    let n = numbers.days;
    let first = numbers.first;
    let highest = numbers.highest;
    if carry(floors, ceilings, rises, n) < n {
        return None;
    }
    let bottom = held_total(floors, n, first);
    if highest < bottom {
        return None;
    }
    lower_ceilings(floors, ceilings, rises, n, first, (highest - bottom) as u32);
    let top = held_total(ceilings, n, first);
    let low = numbers.lowest.max(bottom);
    let high = highest.min(top);
    if high < low {
        return None;
    }
    raise_floors(floors, ceilings, rises, n, first, (top - low) as u32);
    Some(TotalRange {
        lowest: low,
        highest: high,
    })
}
