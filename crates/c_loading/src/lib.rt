// What a session's bytes hold, each part read when it is needed.
#![tactic(auto, using(c_layout::proofs::Held::days_few))]

ghost use Rattle.std.specs.Prelude.{◌≡◌, ◌+◌, ◌*◌, ◌≤◌, ◌<◌, min, length};
ghost use Rattle.std.proofs.lemmas.List.Edits.{sets};
ghost use Rattle.limits.specs.Limits.{most_days, lowest_point, highest_level};
ghost use Rattle.theory_lists.specs.Sum.{at};
ghost use Rattle.theory_lists.specs.Front.{in_front};
ghost use Rattle.theory_lists.specs.Written.{written};
ghost use Rattle.base_codes.specs.Code.{decoded};
ghost use Rattle.base_little_endian.specs.Fields.{u16_at};
ghost use Rattle.theory_method.specs.Filter.{zeros};
ghost use Rattle.session.specs.Showing.{floor_on, ceiling_on};
ghost use Rattle.c_lists.specs.Lists.{point_bytes};
ghost use Rattle.c_layout.specs.Layout.{cell_length, total_length, totals_length, session_bytes, total_at, decoding};

use base_codes::{TotalRange, decode_short};
use base_little_endian::{i32_at, u16_at};
use c_layout::{
    BLOCK_BYTES, CELL_BYTES, DAYS_AT, FIRST_AT, MARK_AT, PRESENT_AT, PRESENT_TOTALS_AT, RISES_AT,
    TOTAL_BYTES,
};
use c_lists::{fill_each, put_each_point};
use limits::MOST_DAYS;
use session::Session;

// As cells of 2 bytes.
const MOST_LEVEL: u16 = limits::HIGHEST_LEVEL as u16;

const MOST_RISE_CODE: u16 = limits::HIGHEST_RISE_CODE as u16;

// ---- fields: whatever the bytes are, the numbers are in bounds

// The first n cells from a place on.
fn cells(bytes: &[u8], place: usize, n: usize, most: u16, out: &mut [u16; MOST_DAYS])
    requires { (n ≤ most_days) × (place + n * cell_length ≤ length bytes.now) }
    ensures { out.new ≡ written (λ k. min (u16_at bytes.now (place + k * cell_length)) most) n out.old }
{
    fill_each(n, out, |k| u16_at(bytes, place + k * CELL_BYTES).min(most));
}

// A bound of the total, as it is held.
fn bound(bytes: &[u8], place: usize) -> usize
    requires { place + total_length ≤ length bytes.now }
    ensures { result ≡ total_at bytes.now place }
{
    base_codes::code(
        i32_at(bytes, place),
        Session::LOWEST_TOTAL,
        Session::HIGHEST_TOTAL,
    )
    .unwrap_or(0)
}

pub fn totals(bytes: &[u8], place: usize) -> TotalRange
    requires { place + totals_length ≤ length bytes.now }
    ensures { (result.lowest ≡ total_at bytes.now place) × (result.highest ≡ total_at bytes.now (place + total_length)) }
{
    TotalRange {
        lowest: bound(bytes, place),
        highest: bound(bytes, place + TOTAL_BYTES),
    }
}

pub fn level(bytes: &[u8], place: usize) -> u16
    requires { place + cell_length ≤ length bytes.now }
    ensures { result ≡ min (u16_at bytes.now place) highest_level }
{
    u16_at(bytes, place).min(MOST_LEVEL)
}

// ---- parts of the session, each read when it is needed

// By `min` and `max`, of which the compiler sees that loops over the days stay within an array; of `clamp` it does not.
#[tactic(auto, unfolding(c_layout::specs::Layout::decoding))]
pub fn days_of(bytes: &[u8]) -> usize
    requires { length bytes.now ≡ session_bytes }
    ensures { result ≡ (decoding bytes.now).days }
{
    usize::from(u16_at(bytes, DAYS_AT))
        .min(Session::MOST_DAYS)
        .max(1)
}

// The first counted day, one of the session's days.
#[tactic(auto, unfolding(c_layout::specs::Layout::decoding))]
pub fn first_of(bytes: &[u8]) -> usize
    requires { length bytes.now ≡ session_bytes }
    ensures { result ≡ (decoding bytes.now).first }
{
    let last = days_of(bytes) - 1;
    usize::from(u16_at(bytes, FIRST_AT)).min(last)
}

#[tactic(auto, unfolding(c_layout::specs::Layout::decoding))]
pub fn is_spent(bytes: &[u8]) -> bool
    requires { length bytes.now ≡ session_bytes }
    ensures { result ≡ (decoding bytes.now).spent }
{
    u16_at(bytes, MARK_AT) != 0
}

// The total's present range.
#[tactic(auto, unfolding(c_layout::specs::Layout::decoding, c_layout::specs::Layout::ranges_at))]
pub fn total_of(bytes: &[u8]) -> TotalRange
    requires { length bytes.now ≡ session_bytes }
    ensures { (result.lowest ≡ (decoding bytes.now).present.lowest) × (result.highest ≡ (decoding bytes.now).present.highest) }
{
    totals(bytes, PRESENT_TOTALS_AT)
}

// The present range of a day.
pub fn floor_of(bytes: &[u8], day: usize) -> u16
    requires { (length bytes.now ≡ session_bytes) × (day < (decoding bytes.now).days) }
    ensures { result ≡ at (decoding bytes.now).present.floors day }
{
    level(bytes, PRESENT_AT + day * CELL_BYTES)
}

pub fn ceiling_of(bytes: &[u8], day: usize) -> u16
    requires { (length bytes.now ≡ session_bytes) × (day < (decoding bytes.now).days) }
    ensures { result ≡ at (decoding bytes.now).present.ceilings day }
{
    level(bytes, PRESENT_AT + BLOCK_BYTES + day * CELL_BYTES)
}

// Loads the rises and the present ranges into arrays that hold zeros.
pub fn load_present(
    bytes: &[u8],
    rises: &mut [u16; MOST_DAYS],
    floors: &mut [u16; MOST_DAYS],
    ceilings: &mut [u16; MOST_DAYS],
)
    requires { (length bytes.now ≡ session_bytes) × (rises.old ≡ zeros) × (floors.old ≡ zeros) × (ceilings.old ≡ zeros) }
    ensures rises_after { rises.new ≡ (decoding bytes.now).rises }
    ensures floors_after { floors.new ≡ (decoding bytes.now).present.floors }
    ensures ceilings_after { ceilings.new ≡ (decoding bytes.now).present.ceilings }
{
    let n = days_of(bytes);
    cells(bytes, RISES_AT, n, MOST_RISE_CODE, rises);
    cells(bytes, PRESENT_AT, n, MOST_LEVEL, floors);
    cells(bytes, PRESENT_AT + BLOCK_BYTES, n, MOST_LEVEL, ceilings);
}

// ---- shown

// Stores the points of n levels as the front of a list.
fn show_levels(bytes: &[u8], place: usize, n: usize, out: &mut [u8])
    requires { (n ≤ most_days) × (place + n * cell_length ≤ length bytes.now) × (n * cell_length ≤ length out.old) }
    ensures { out.new ≡ sets out.old 0 (point_bytes (λ k. decoded lowest_point (min (u16_at bytes.now (place + k * cell_length)) highest_level)) n) }
{
    put_each_point(
        n,
        0,
        out,
        |k| decode_short(level(bytes, place + k * CELL_BYTES), Session::LOWEST_POINT),
    );
}

// Stores the present range of each day, in points, as the front of both lists.
pub fn show_present(bytes: &[u8], floors: &mut [u8], ceilings: &mut [u8])
    requires { (length bytes.now ≡ session_bytes) × ((decoding bytes.now).days * cell_length ≤ length floors.old) × ((decoding bytes.now).days * cell_length ≤ length ceilings.old) }
    ensures floors_after { floors.new ≡ in_front (point_bytes (floor_on (decoding bytes.now)) (decoding bytes.now).days) floors.old }
    ensures ceilings_after { ceilings.new ≡ in_front (point_bytes (ceiling_on (decoding bytes.now)) (decoding bytes.now).days) ceilings.old }
{
    let n = days_of(bytes);
    show_levels(bytes, PRESENT_AT, n, floors);
    show_levels(bytes, PRESENT_AT + BLOCK_BYTES, n, ceilings);
}
