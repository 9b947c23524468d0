// Lists as a caller in C hands them over: byte strings of 2-byte little-endian elements. Loops count in 32 bits, which take the board half as many instructions
// as the 64 of `usize`.
#![tactic(auto)]

ghost use Rattle.std.specs.Prelude.{◌≡◌, true, not, ◌||◌, ℕ, ℤ, ◌+◌, ◌*◌, ◌≤◌, ◌<◌, length};
ghost use Rattle.std.proofs.lemmas.List.Edits.{sets};
ghost use Rattle.limits.specs.Limits.{most_days, lowest_point, highest_point, highest_level, lowest_setpoint, highest_setpoint};
ghost use Rattle.theory_lists.specs.Sum.{at};
ghost use Rattle.theory_lists.specs.Written.{written};
ghost use Rattle.base_codes.specs.Code.{within, code, decoded, on, every, code_or_zero};
ghost use Rattle.refusals.specs.Number.{refusal_of};
ghost use Rattle.c_lists.specs.Lists.{point_at, points_in, level_at, levels_crossed, point_bytes, cell_bytes};
ghost use Rattle.c_lists.specs.Profiles.{have_lengths, byte_counts_refusal};

use base_codes::{code_cell, decode_short};
use base_little_endian::{i16_at, put_i16, put_u16};
use limits::{HIGHEST_POINT, LOWEST_POINT, MOST_DAYS};
use refusals::Refusal;
use session::Session;

// What coding floors and ceilings tells: whether a point is outside its bounds, and whether a day's floor has a higher
// code than its ceiling.
#[derive(Clone, Copy)]
pub struct CodedRanges {
    pub outside: bool,
    pub crossed: bool,
}

// Stores n elements, the k-th as `element` gives it.
pub fn fill_each<T: Copy, F: Fn(usize) -> T>(n: usize, out: &mut [T; MOST_DAYS], element: F)
    requires { (n ≤ most_days) × ((k : ℕ) → k < n → F.pre element k) }
    ensures { (f : ℕ → T) → ((k : ℕ) (x : _) → k < n → F.post element k x → x ≡ f k) → out.new ≡ written f n out.old }
{
    for j in 0..n as u32 {
        let k = j as usize;
        out[k] = element(k);
    }
}

// Stores the first n points of a list.
pub fn points(bytes: &[u8], n: usize, out: &mut [i16; MOST_DAYS])
    requires { (n ≤ most_days) × (n * 2 ≤ length bytes.now) }
    ensures { out.new ≡ written (point_at bytes.now) n out.old }
{
    fill_each(n, out, |k| i16_at(bytes, k * 2));
}

// Stores the codes of the first n points of a list, 0 for one outside its bounds, and says whether there is one. All have 16 bits.
pub fn code_points(bytes: &[u8], n: usize, low: i32, high: i32, out: &mut [u16; MOST_DAYS]) -> bool
    requires { (code low high ≤ 65535) × (n ≤ most_days) × (n * 2 ≤ length bytes.now) }
    ensures value { result ≡ not (every (within low high) (points_in bytes.now n)) }
    ensures out_after { out.new ≡ written (λ k. code_or_zero low high (point_at bytes.now k)) n out.old }
    ensures n_value { every (within lowest_setpoint highest_setpoint) (points_in bytes.now n) ≡ true }
{
    let mut outside = false;
    for j in 0..n as u32 {
        let k = j as usize;
        let cell = code_cell(i16_at(bytes, k * 2), low, high);
        out[k] = cell.unwrap_or(0);
        outside |= cell.is_none();
    }
    outside
}

// The same for the floors and the ceilings of n days, which are compared on the way.
pub fn code_ranges(
    floors: &[u8],
    ceilings: &[u8],
    n: usize,
    low: &mut [u16; MOST_DAYS],
    high: &mut [u16; MOST_DAYS],
) -> CodedRanges
    requires { (n ≤ most_days) × (n * 2 ≤ length floors.now) × (n * 2 ≤ length ceilings.now) }
    ensures outside_value { result.outside ≡ (not (every (within lowest_point highest_point) (points_in floors.now n)) || not (every (within lowest_point highest_point) (points_in ceilings.now n))) }
    ensures crossed_value { result.crossed ≡ levels_crossed floors.now ceilings.now n }
    ensures low_after { low.new ≡ written (level_at floors.now) n low.old }
    ensures high_after { high.new ≡ written (level_at ceilings.now) n high.old }
{
    let mut outside = false;
    let mut crossed = false;
    for j in 0..n as u32 {
        let k = j as usize;
        let floor = code_cell(i16_at(floors, k * 2), LOWEST_POINT, HIGHEST_POINT);
        let ceiling = code_cell(i16_at(ceilings, k * 2), LOWEST_POINT, HIGHEST_POINT);
        outside |= floor.is_none() | ceiling.is_none();
        let floor = floor.unwrap_or(0);
        let ceiling = ceiling.unwrap_or(0);
        low[k] = floor;
        high[k] = ceiling;
        crossed |= ceiling < floor;
    }
    CodedRanges { outside, crossed }
}

// Stores n points from a place on, the k-th as `point` gives it.
#[tactic(auto, unfolding(crate::specs::Lists::point_bytes))]
pub fn put_each_point<F: Fn(usize) -> i16>(n: usize, place: usize, out: &mut [u8], point: F)
    requires { (n ≤ most_days) × (place + n * 2 ≤ length out.old) × ((k : ℕ) → k < n → F.pre point k) }
    ensures { (f : ℕ → ℤ) → ((k : ℕ) (z : _) → k < n → F.post point k z → z ≡ f k) → out.new ≡ sets out.old place (point_bytes f n) }
{
    for j in 0..n as u32 {
        let k = j as usize;
        put_i16(out, place + k * 2, point(k));
    }
}

// Stores n points as the front of a list.
pub fn put_points(points: &[i16; MOST_DAYS], n: usize, out: &mut [u8])
    requires { (n ≤ most_days) × (n * 2 ≤ length out.old) }
    ensures { out.new ≡ sets out.old 0 (point_bytes (on points.now) n) }
{
    put_each_point(n, 0, out, |k| points[k]);
}

// Stores the points of n levels as the front of a list.
pub fn put_levels(levels: &[u16; MOST_DAYS], n: usize, out: &mut [u8])
    requires { (n ≤ most_days) × (n * 2 ≤ length out.old) × ((k : ℕ) → k < n → at levels.now k ≤ highest_level) }
    ensures { out.new ≡ sets out.old 0 (point_bytes (λ k. decoded lowest_point (at levels.now k)) n) }
{
    put_each_point(n, 0, out, |k| decode_short(levels[k], LOWEST_POINT));
}

// Stores n unsigned numbers from a place on.
#[tactic(auto, unfolding(crate::specs::Lists::cell_bytes))]
pub fn put_cells(cells: &[u16; MOST_DAYS], n: usize, place: usize, out: &mut [u8])
    requires { (n ≤ most_days) × (place + n * 2 ≤ length out.old) }
    ensures { out.new ≡ sets out.old place (cell_bytes (at cells.now) n) }
{
    for j in 0..n as u32 {
        let k = j as usize;
        put_u16(out, place + k * 2, cells[k]);
    }
}

// Whether a profile's lists are as long as its days ask, by their counts of bytes.
fn have_lengths(days: usize, floors: usize, ceilings: usize, rises: usize) -> bool
    requires { (0 < days) × (days ≤ most_days) }
    ensures { result ≡ have_lengths days floors ceilings rises }
{
    (floors == days * 2) & (ceilings == days * 2) & (rises == (days - 1) * 2)
}

// 1 for a bad day count, then 2 for a list of the wrong length.
#[tactic(auto, unfolding(crate::specs::Profiles::byte_counts_refusal))]
pub fn check_lengths(
    days: usize,
    floors: usize,
    ceilings: usize,
    rises: usize,
) -> Result<(), Refusal>
    ensures { refusal_of result ≡ byte_counts_refusal days floors ceilings rises }
{
    if days == 0 {
        return Err(Refusal::Count);
    }
    if Session::MOST_DAYS < days {
        return Err(Refusal::Count);
    }
    if !have_lengths(days, floors, ceilings, rises) {
        return Err(Refusal::Length);
    }
    Ok(())
}
