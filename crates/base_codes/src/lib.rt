// The border between signed numbers within bounds and the unsigned numbers that the other crates work with: a number's code is how far it is above its
// lowest bound. The bounds are the caller's.
#![tactic(auto)]

ghost use Rattle.std.specs.Prelude.{◌≡◌, true, not, ℕ, ◌≤◌, ◌<◌, pos, length, get_or, ◌≤ℤ◌};
ghost use Rattle.limits.specs.Limits.{most_days, lowest_setpoint, highest_setpoint};
ghost use Rattle.theory_lists.specs.Written.{written};
ghost use Rattle.base_codes.specs.Code.{within, code, decoded, on, every, coded, code_or_zero};

use limits::MOST_DAYS;

// A profile's numbers as codes: the day count, the first counted day, and the total's bounds as they are held.
#[derive(Clone, Copy)]
pub struct CodedNumbers {
    pub days: usize,
    pub first: usize,
    pub lowest: usize,
    pub highest: usize,
}

// The total's range as it is held.
#[derive(Clone, Copy)]
pub struct TotalRange {
    pub lowest: usize,
    pub highest: usize,
}

// A number's code, or none where the number is outside its bounds.
pub fn code(z: i32, low: i32, high: i32) -> Option<usize>
    requires { code low high ≤ 2147483647 }
    ensures { result ≡ coded low high z }
{
    if z < low || high < z {
        return None;
    }
    Some((z - low) as usize)
}

// The same in 16 bits.
pub fn code_cell(z: i16, low: i32, high: i32) -> Option<u16>
    requires { code low high ≤ 65535 }
    ensures { result ≡ coded low high z }
{
    let code = code(i32::from(z), low, high)?;
    Some(code as u16)
}

// Stores the code of each number, 0 for one outside its bounds, and says whether there is one. All have 16 bits.
pub fn code_all(xs: &[i16], low: i32, high: i32, out: &mut [u16; MOST_DAYS]) -> bool
    requires { (code low high ≤ 65535) × (length xs.now ≤ most_days) }
    ensures value { result ≡ not (every (within low high) xs.now) }
    ensures out_after { out.new ≡ written (λ k. code_or_zero low high (on xs.now k)) (length xs.now) out.old }
    ensures xs_value { every (within lowest_setpoint highest_setpoint) xs.now ≡ true }
{
    let mut outside = false;
    for i in 0..xs.len() {
        let cell = code_cell(xs[i], low, high);
        out[i] = cell.unwrap_or(0);
        outside |= cell.is_none();
    }
    outside
}

// The number n above low.
pub fn decode(n: usize, low: i32) -> i32
    requires { (low ≤ℤ pos 0) × (n ≤ 2147483647) }
    ensures { result ≡ decoded low n }
{
    low + n as i32
}

// The same in 16 bits.
pub fn decode_short(n: u16, low: i32) -> i16
    requires { (within lowest_setpoint (pos 0) low ≡ true) × (n ≤ 32767) }
    ensures { result ≡ decoded low n }
{
    decode(n as usize, low) as i16
}

// Stores the numbers of the first n codes.
pub fn decode_all(codes: &[u16; MOST_DAYS], n: usize, low: i32, out: &mut [i16])
    requires { (within lowest_setpoint (pos 0) low ≡ true) × (n ≤ most_days) × (n ≤ length out.old) × ((k : ℕ) → k < n → get_or codes.now k 0 ≤ 32767) }
    ensures { out.new ≡ written (λ k. decoded low (get_or codes.now k 0)) n out.old }
{
    for k in 0..n {
        out[k] = decode_short(codes[k], low);
    }
}
