// A session's bytes stored: a fresh session whole, and what a cut changes. Loops over days count in 32 bits, as in `c_lists`.
#![tactic(auto, using(c_layout::proofs::Held::days_few))]

ghost use Rattle.std.specs.Prelude.{◌≡◌, true, false, ◌++◌, ◌+◌, ◌-◌, ◌*◌, ◌≤◌, min, length, replicate};
ghost use Rattle.std.proofs.lemmas.List.Edits.{sets};
ghost use Rattle.limits.specs.Limits.{most_days, highest_level, highest_total_code};
ghost use Rattle.theory_lists.specs.Sum.{at};
ghost use Rattle.theory_lists.specs.Front.{in_front};
ghost use Rattle.theory_lists.specs.Written.{written};
ghost use Rattle.base_little_endian.specs.Fields.{u16_at};
ghost use Rattle.theory_method.specs.Filter.{InBounds};
ghost use Rattle.tighten_filtering.specs.Boxed.{boxed};
ghost use Rattle.session.specs.Opening.{fresh};
ghost use Rattle.session_order.specs.Order.{settled_losers, day_cells};
ghost use Rattle.session_changed.specs.Changes.{lost};
ghost use Rattle.c_lists.specs.Lists.{cell_bytes};
ghost use Rattle.c_layout.specs.Layout.{cell_length, totals_length, block_length, ranges_length, session_bytes, total_bytes, block_bytes, encoding, decoding};
ghost use Rattle.c_layout.specs.Layout.{present_place, patched};

use base_codes::CodedNumbers;
use base_little_endian::{put_i32, put_u16};
use c_layout::{
    BLOCK_BYTES, CELL_BYTES, DAYS_AT, FIRST_AT, MARK_AT, OPENED_AT, OPENED_TOTALS_AT, PRESENT_AT,
    PRESENT_TOTALS_AT, RISES_AT, TOTAL_BYTES,
};
use c_lists::put_cells;
use c_loading::{days_of, level, totals};
use limits::MOST_DAYS;
use session::Session;

// ---- a whole session stored

fn put_totals(least: usize, most: usize, place: usize, out: &mut [u8])
    requires { (least ≤ highest_total_code) × (most ≤ highest_total_code) × (place + totals_length ≤ length out.old) }
    ensures { out.new ≡ sets out.old place (total_bytes least most) }
{
    put_i32(out, place, base_codes::decode(least, Session::LOWEST_TOTAL));
    put_i32(
        out,
        place + TOTAL_BYTES,
        base_codes::decode(most, Session::LOWEST_TOTAL),
    );
}

fn put_zeros(out: &mut [u8], from: usize, to: usize)
    requires { (from ≤ to) × (to ≤ length out.old) }
    ensures { out.new ≡ sets out.old from (replicate (to - from) 0) }
{
    out[from..to].fill(0);
}

// The cells of n days, and 0 past the last.
fn put_block(cells: &[u16; MOST_DAYS], n: usize, place: usize, out: &mut [u8])
    requires { (n ≤ most_days) × (place + block_length ≤ length out.old) }
    ensures { out.new ≡ sets out.old place (block_bytes cells.now n) }
{
    put_cells(cells, n, place, out);
    put_zeros(out, place + n * CELL_BYTES, place + BLOCK_BYTES);
}

fn put_ranges(
    floors: &[u16; MOST_DAYS],
    ceilings: &[u16; MOST_DAYS],
    n: usize,
    place: usize,
    out: &mut [u8],
)
    requires { (n ≤ most_days) × (place + ranges_length ≤ length out.old) }
    ensures { out.new ≡ sets out.old place (block_bytes floors.now n ++ block_bytes ceilings.now n) }
{
    put_block(floors, n, place, out);
    put_block(ceilings, n, place + BLOCK_BYTES, out);
}

// Stores a fresh session: the rises, and the tightened ranges as opened and at present.
pub fn store_fresh(
    rises: &[u16; MOST_DAYS],
    floors: &[u16; MOST_DAYS],
    ceilings: &[u16; MOST_DAYS],
    numbers: CodedNumbers,
    out: &mut [u8],
)
    requires { InBounds (boxed floors.now ceilings.now rises.now numbers) × (length out.old ≡ session_bytes) }
    ensures { out.new ≡ encoding (fresh numbers.days numbers.first rises.now (record { floors = floors.entry.now; ceilings = ceilings.now; lowest = numbers.lowest; highest = numbers.highest })) }
{
    let n = numbers.days;
    let first = numbers.first;
    let lowest = numbers.lowest;
    let highest = numbers.highest;
    put_u16(out, DAYS_AT, n as u16);
    put_u16(out, MARK_AT, u16::from(false));
    put_totals(lowest, highest, OPENED_TOTALS_AT, out);
    put_totals(lowest, highest, PRESENT_TOTALS_AT, out);
    put_block(rises, n, RISES_AT, out);
    put_ranges(floors, ceilings, n, OPENED_AT, out);
    put_ranges(floors, ceilings, n, PRESENT_AT, out);
    put_u16(out, FIRST_AT, first as u16);
}

// ---- what a cut changes

// Stores the ranges of n days as the present ones, and leaves how many points the range of each day lost.
fn store_days(
    floors: &[u16; MOST_DAYS],
    ceilings: &[u16; MOST_DAYS],
    n: usize,
    out: &mut [u8],
    losses: &mut [u16; MOST_DAYS],
)
    requires { (length out.old ≡ session_bytes) × (n ≤ most_days) }
    ensures losses_after { losses.new ≡ written (λ k. (min (u16_at out.old (present_place + block_length + k * cell_length)) highest_level - min (u16_at out.old (present_place + k * cell_length)) highest_level) - (at ceilings.now k - at floors.now k)) n losses.old }
    ensures out_after { out.new ≡ sets (sets out.old present_place (cell_bytes (at floors.now) n)) (present_place + block_length) (cell_bytes (at ceilings.now) n) }
{
    for j in 0..n as u32 {
        let k = j as usize;
        let floor = floors[k];
        let ceiling = ceilings[k];
        let low = PRESENT_AT + k * CELL_BYTES;
        let high = PRESENT_AT + BLOCK_BYTES + k * CELL_BYTES;
        let before = level(out, high).saturating_sub(level(out, low));
        let after = ceiling.saturating_sub(floor);
        losses[k] = before.saturating_sub(after);
        put_u16(out, low, floor);
        put_u16(out, high, ceiling);
    }
}

// Stores the present ranges that a cut leaves, and lists the days that lost points, the largest loss first; gives how many they are. The ranges are gone
// afterwards: their arrays take the chains.
pub fn store_cut(
    losses: &mut [u16; MOST_DAYS],
    floors: &mut [u16; MOST_DAYS],
    ceilings: &mut [u16; MOST_DAYS],
    numbers: CodedNumbers,
    out: &mut [u8],
    changed: &mut [u8],
) -> usize
    requires losses_len { (length losses.old ≡ most_days) × (length floors.old ≡ most_days) × (length ceilings.old ≡ most_days) }
    requires lowest_le_highest_total_code { (numbers.lowest ≤ highest_total_code) × (numbers.highest ≤ highest_total_code) × (length out.old ≡ session_bytes) × (numbers.days ≡ (decoding out.old).days) × (numbers.days * cell_length ≤ length changed.old) }
    ensures value { result ≡ length (settled_losers (lost (decoding out.old).present.floors (decoding out.old).present.ceilings floors.old ceilings.old) numbers.days) }
    ensures changed_after { changed.new ≡ in_front (day_cells (settled_losers (lost (decoding out.old).present.floors (decoding out.old).present.ceilings floors.old ceilings.old) numbers.days)) changed.old }
    ensures out_after { out.new ≡ patched out.old numbers.days false (record { floors = floors.entry.now; ceilings = ceilings.old; lowest = numbers.lowest; highest = numbers.highest }) }
{
    let n = numbers.days;
    let lowest = numbers.lowest;
    let highest = numbers.highest;
    put_u16(out, MARK_AT, u16::from(false));
    put_totals(lowest, highest, PRESENT_TOTALS_AT, out);
    store_days(floors, ceilings, n, out, losses);
    session_order::list_losers(losses, n, floors, ceilings, changed)
}

// Stores n levels from one place at a place behind them. A loop of its own, since it reads the bytes that it stores to: lent in two parts
// (`split_at_mut`) it took more of the board's instructions.
#[tactic(auto, unfolding(c_lists::specs::Lists::cell_bytes))]
fn copy_levels(bytes: &mut [u8], from: usize, n: usize, place: usize)
    requires { (n ≤ most_days) × (from + n * cell_length ≤ place) × (place + n * cell_length ≤ length bytes.old) }
    ensures { bytes.new ≡ sets bytes.old place (cell_bytes (λ k. min (u16_at bytes.old (from + k * cell_length)) highest_level) n) }
{
    for j in 0..n as u32 {
        let k = j as usize;
        let held = level(bytes, from + k * CELL_BYTES);
        put_u16(bytes, place + k * CELL_BYTES, held);
    }
}

// Marks the session spent: its present ranges are those that it had when opened.
pub fn spend(bytes: &mut [u8])
    requires { length bytes.old ≡ session_bytes }
    ensures { bytes.new ≡ patched bytes.old (decoding bytes.old).days true (decoding bytes.old).opened }
{
    let n = days_of(bytes);
    let opened = totals(bytes, OPENED_TOTALS_AT);
    let lowest = opened.lowest;
    let highest = opened.highest;
    put_u16(bytes, MARK_AT, u16::from(true));
    put_totals(lowest, highest, PRESENT_TOTALS_AT, bytes);
    copy_levels(bytes, OPENED_AT, n, PRESENT_AT);
    copy_levels(bytes, OPENED_AT + BLOCK_BYTES, n, PRESENT_AT + BLOCK_BYTES);
}
