// Document 01's two passes, on levels as shown. A shifted level is a level plus its day's shift. The pass over the floors is that over the ceilings from
// the other end of the days and of the scale, in place. Both go over the counted days alone: a day before them gets its ceiling from the day after it, and
// no total raises its floor.
#![tactic(auto)]

ghost use Rattle.std.specs.Prelude.{◌≡◌, Bool, true, false, cond, ℕ, ◌+◌, ◌-◌, ◌*◌, ◌≤◌, ◌<◌, min, ltb};
ghost use Rattle.limits.specs.Limits.{most_days, highest_level, rise_offset, highest_shift, highest_held};
ghost use Rattle.theory_lists.specs.Sum.{at};
ghost use Rattle.theory_lists.specs.Written.{written};
ghost use Rattle.theory_method.specs.Counted.{counted};
ghost use Rattle.theory_method.specs.Filter.{shifted, lowered, reversed, raised};
ghost use Rattle.theory_method.specs.Stages.{Ready};
ghost use Rattle.tighten_passes.specs.View.{viewed, viewed_rises, Sight, FloorsReady};
ghost use Rattle.tighten_passes.specs.Pass.{highest_shifted, highest_room, Open, Sticking, Found, Overloaded, Rounded, Lowest, Entering};

use limits::{HIGHEST_LEVEL, LAST_SHIFT, MOST_DAYS, RISE_OFFSET};
use tighten_carry::carry_back;

// ---- what is read

// A level, from the other end of the scale.
fn mirror_level(level: u16) -> u32
    requires { level ≤ highest_level }
    ensures { result ≡ highest_level - level }
{
    HIGHEST_LEVEL as u32 - level as u32
}

// From which end a pass reads the days, and the scale with them.
trait End {
    ghost back: { Bool };

    // The level of day k, as read from that end.
    fn level(levels: &[u16; MOST_DAYS], n: usize, k: usize) -> u32
        requires { (n ≤ most_days) × (k < n) × ((j : ℕ) → j < n → at levels.now j ≤ highest_level) }
        ensures { (result ≡ at (viewed back levels.now n) k) × (result ≤ highest_level) };

    // The code of the rise from day k to the next.
    fn rise(rises: &[u16; MOST_DAYS], n: usize, k: usize) -> u32
        requires { (n ≤ most_days) × (k + 1 < n) }
        ensures { (result ≡ cond back (reversed rises.now n k) (at rises.now k)) × (result < 65536) };
}

struct FromFirst;

struct FromLast;

impl End for FromFirst {
    ghost back = { false };

    fn level(levels: &[u16; MOST_DAYS], _n: usize, k: usize) -> u32 {
        levels[k] as u32
    }

    fn rise(rises: &[u16; MOST_DAYS], _n: usize, k: usize) -> u32 {
        rises[k] as u32
    }
}

impl End for FromLast {
    ghost back = { true };

    fn level(levels: &[u16; MOST_DAYS], n: usize, k: usize) -> u32 {
        mirror_level(levels[n - (k + 1)])
    }

    fn rise(rises: &[u16; MOST_DAYS], n: usize, k: usize) -> u32 {
        rises[n - (k + 2)] as u32
    }
}

// The shift of a day, from that of the next day and the rise code between them.
fn shift_before(next: u32, rise: u32) -> u32
    requires { (next ≤ highest_shift) × (rise < 65536) × (rise_offset ≤ next + rise) }
    ensures { (result ≡ next + rise - rise_offset) × (result < highest_shift + 65536) }
{
    next + rise - RISE_OFFSET as u32
}

// ---- one day

// A shifted level v of a day, and its window: the `count` days from that day on, which end before `past`. Room is the margin plus the sum of their shifted
// floors, top the shifted floor of the last and end its shift: v is within the margin where count * v <= room. All have 32 bits: a small processor adds,
// compares and divides such numbers in one instruction.
#[derive(Clone, Copy)]
struct Window {
    v: u32,
    past: u32,
    count: u32,
    room: u32,
    top: u32,
    end: u32,
}

impl Window {
    // With a day in front, whose shifted ceiling and floor are given.
    fn entered(self, ceiling: u32, floor: u32) -> Window
        requires { (self.count < most_days) × (self.room + floor ≤ highest_room) }
        ensures { result ≡ record self { v = min self.v ceiling; count = self.count + 1; room = self.room + floor } }
    {
        Window {
            v: self.v.min(ceiling),
            count: self.count + 1,
            room: self.room + floor,
            ..self
        }
    }

    // With the level lowered.
    fn lowered_to(self, v: u32) -> Window
        ensures { result ≡ record self { v = v } }
    {
        Window { v, ..self }
    }

    // Whether the last day is not below v, and is not day i.
    fn sticks(self, i: u32) -> bool
        requires { i < most_days }
        ensures v_le_top { result ≡ true → (self.v ≤ self.top) × (i + 1 < self.past) }
        ensures top_lt_v { result ≡ false → i + 1 < self.past → self.top < self.v }
    {
        self.v <= self.top && i + 1 < self.past
    }

    // Whether v is over the margin.
    fn is_over(self) -> bool
        requires { (self.count ≤ most_days) × (self.v ≤ highest_shifted) }
        ensures { result ≡ ltb self.room (self.count * self.v) }
    {
        self.room < self.count * self.v
    }

    // Whether v is within the margin, and the window is not too long.
    fn fits(self) -> bool
        requires { (self.count ≤ most_days) × (self.v ≤ highest_shifted) }
        ensures { result ≡ true → (self.top < self.v) × (self.count * self.v ≤ self.room) }
    {
        self.top < self.v && !self.is_over()
    }

    // The level as shown, on a day whose shift is `here`.
    fn shown(self, here: u32) -> u16
        requires { (here ≤ self.v) × (self.v - here ≤ highest_level) }
        ensures { result ≡ self.v - here }
    {
        (self.v - here) as u16
    }
}

// What a pass reads: the floors and rises of n days, of which `days` count, and the margin.
#[derive(Clone, Copy)]
struct Pass<'a> {
    floors: &'a [u16; MOST_DAYS],
    rises: &'a [u16; MOST_DAYS],
    n: usize,
    days: usize,
    margin: u32,
}

impl Pass<'_> {
    // Before the last day, whose shift is `end`: its levels, shifted, and no day yet.
    fn start(&self, ceiling: u32, floor: u32, end: u32) -> Window
        requires { (ceiling < 65536) × (floor < 65536) × (end ≤ highest_shift) × (self.now.days ≤ most_days) }
        ensures { result ≡ record { v = ceiling + end; past = self.now.days; count = 0; room = self.now.margin; top = floor + end; end = end } }
    {
        Window {
            v: ceiling + end,
            past: self.days as u32,
            count: 0,
            room: self.margin,
            top: floor + end,
            end,
        }
    }

    // Drops the window's last day.
    fn drop_last<E: End>(&self, i: u32, w: Window) -> Window
        requires sight { let p = self.now in Sight E.back p.floors.now p.rises.now p.n p.days }
        requires sticking { let p = self.now in Sticking (viewed E.back p.floors.now p.n) (viewed_rises E.back p.rises.now p.n p.days) p.days i p.margin w.v w.past w.count w.room w.top w.end }
        ensures v_value { (result.v ≡ w.v) × (result.past < w.past) }
        ensures fact { let p = self.now in Open (viewed E.back p.floors.now p.n) (viewed_rises E.back p.rises.now p.n p.days) p.days i p.margin w.v result.past result.count result.room result.top result.end }
    {
        let past = w.past - 1;
        let last = past as usize - 1;
        let end = shift_before(w.end, E::rise(self.rises, self.n, last));
        let top = E::level(self.floors, self.n, last) + end;
        Window {
            v: w.v,
            past,
            count: w.count - 1,
            room: w.room - w.top,
            top,
            end,
        }
    }

    // The level with its window, from a window that may be too long. How many days drop out is known only at the end, so that this is no `for`; nor is `lower`.
    fn settle<E: End>(&self, i: u32, w: Window) -> Window
        requires sight { let p = self.now in Sight E.back p.floors.now p.rises.now p.n p.days }
        requires fact { let p = self.now in Open (viewed E.back p.floors.now p.n) (viewed_rises E.back p.rises.now p.n p.days) p.days i p.margin w.v w.past w.count w.room w.top w.end }
        ensures { let p = self.now in (result.v ≡ w.v) × Found (viewed E.back p.floors.now p.n) (viewed_rises E.back p.rises.now p.n p.days) p.days i p.margin w.v result.past result.count result.room result.top result.end }
    {
        let mut at = w;
        while at.sticks(i) {
            at = self.drop_last::<E>(i, at);
        }
        at
    }

    // One round for day i: the level falls to what the room has for each day of the window, or to the floor of the last if that is more, and its window is
    // found again.
    fn round<E: End>(&self, i: u32, w: Window) -> Window
        requires sight { let p = self.now in Sight E.back p.floors.now p.rises.now p.n p.days }
        requires overloaded { let p = self.now in Overloaded (viewed E.back p.floors.now p.n) (viewed_rises E.back p.rises.now p.n p.days) p.days i p.margin w.v w.past w.count w.room w.top w.end }
        ensures { let p = self.now in Rounded (viewed E.back p.floors.now p.n) (viewed_rises E.back p.rises.now p.n p.days) p.days i p.margin w.v result.v result.past result.count result.room result.top result.end }
    {
        let even = w.room / w.count;
        if w.top < even {
            return w.lowered_to(even);
        }
        self.settle::<E>(i, w.lowered_to(w.top))
    }

    // Lowers day i's shifted ceiling by rounds until it is within the margin.
    fn lower<E: End>(&self, i: u32, w: Window) -> Window
        requires sight { let p = self.now in Sight E.back p.floors.now p.rises.now p.n p.days }
        requires fact { let p = self.now in Open (viewed E.back p.floors.now p.n) (viewed_rises E.back p.rises.now p.n p.days) p.days i p.margin w.v w.past w.count w.room w.top w.end }
        requires v_le_highest_shifted { let p = self.now in (w.v ≤ highest_shifted) × (shifted (viewed E.back p.floors.now p.n) (viewed_rises E.back p.rises.now p.n p.days) p.days i ≤ w.v) }
        ensures { let p = self.now in Lowest (viewed E.back p.floors.now p.n) (viewed_rises E.back p.rises.now p.n p.days) p.days i p.margin w.v result.v result.past result.count result.room result.top result.end }
    {
        let mut at = self.settle::<E>(i, w);
        while at.is_over() {
            at = self.round::<E>(i, at);
        }
        at
    }

    // Lowers the ceiling of day i after that of the next day. Most days fit as they are.
    fn lower_day<E: End>(&self, i: u32, ceiling: u32, floor: u32, next: Window) -> Window
        requires sight { let p = self.now in Sight E.back p.floors.now p.rises.now p.n p.days }
        requires entering { let p = self.now in Entering (viewed E.back p.floors.now p.n) (viewed_rises E.back p.rises.now p.n p.days) p.days i p.margin ceiling floor next.v next.past next.count next.room next.top next.end }
        ensures { let p = self.now in Lowest (viewed E.back p.floors.now p.n) (viewed_rises E.back p.rises.now p.n p.days) p.days i p.margin (min next.v ceiling) result.v result.past result.count result.room result.top result.end }
    {
        let w = next.entered(ceiling, floor);
        if w.fits() {
            return w;
        }
        self.lower::<E>(i, w)
    }
}

// ---- all days

// Lowers the ceilings of n days, of which those from day `first` on count, from the last of these to the first, and carries the others back. In a turn `here`
// is the day's shift.
pub fn lower_ceilings(
    floors: &[u16; MOST_DAYS],
    ceilings: &mut [u16; MOST_DAYS],
    rises: &[u16; MOST_DAYS],
    n: usize,
    first: usize,
    margin: u32,
)
    requires { Ready floors.now ceilings.old rises.now n × (first < n) × (margin ≤ highest_held) }
    ensures { ceilings.new ≡ written (lowered floors.now ceilings.old rises.now n (counted first n) margin) n ceilings.old }
{
    let pass = Pass {
        floors,
        rises,
        n,
        days: n,
        margin,
    };
    let last = n - 1;
    let mut here = LAST_SHIFT as u32;
    let mut day = pass.start(
        ceilings[last] as u32,
        floors[last] as u32,
        shift_before(here, rises[last] as u32),
    );
    for i in (first as u32..n as u32).rev() {
        let k = i as usize;
        here = shift_before(here, rises[k] as u32);
        let ceiling = ceilings[k] as u32 + here;
        let floor = floors[k] as u32 + here;
        day = pass.lower_day::<FromFirst>(i, ceiling, floor, day);
        ceilings[k] = day.shown(here);
    }
    carry_back(ceilings, rises, first);
}

// Raises the floors of n days, of which those from day `first` on count, from the first of these to the last: the same pass from the other end of the days and
// of the scale. In a turn `here` is the day's shift from that end, and `rise` the code of the rise to the day, or 0 for the first.
pub fn raise_floors(
    floors: &mut [u16; MOST_DAYS],
    ceilings: &[u16; MOST_DAYS],
    rises: &[u16; MOST_DAYS],
    n: usize,
    first: usize,
    margin: u32,
)
    requires { FloorsReady floors.old ceilings.now rises.now n × (first < n) × (margin ≤ highest_held) }
    ensures { floors.new ≡ raised floors.old ceilings.now rises.now n first margin }
{
    let pass = Pass {
        floors: ceilings,
        rises,
        n,
        days: n - first,
        margin,
    };
    let mut here = LAST_SHIFT as u32;
    let mut rise = 0u32;
    let mut day = pass.start(
        mirror_level(floors[first]),
        mirror_level(ceilings[first]),
        shift_before(here, rise),
    );
    for i in first as u32..n as u32 {
        let k = i as usize;
        here = shift_before(here, rise);
        let ceiling = mirror_level(floors[k]) + here;
        let floor = mirror_level(ceilings[k]) + here;
        day = pass.lower_day::<FromLast>(n as u32 - (i + 1), ceiling, floor, day);
        floors[k] = mirror_level(day.shown(here)) as u16;
        rise = rises[k] as u32;
    }
}
