// Text in a lent list, in ASCII: each function stores from a place on, and answers the place after what it stored.
#![tactic(auto)]

ghost use Rattle.std.specs.Prelude.{◌≡◌, ◌+◌, ◌≤◌, length};
ghost use Rattle.std.proofs.lemmas.List.Edits.{sets};
ghost use Rattle.base_text.specs.Numbers.{decimal, number};

// Stores the text itself.
pub fn put(out: &mut [u8], at: usize, text: &[u8]) -> usize
    requires { at + length text.now ≤ length out.old }
    ensures out_after { out.new ≡ sets out.old at text.now }
    ensures value { result ≡ at + length text.now }
{
    out[at..at + text.len()].copy_from_slice(text);
    at + text.len()
}

// Not std's printing, whose clauses say the digits by a relation: `decimal` is one definition that computes.
pub fn put_decimal(out: &mut [u8], at: usize, n: usize) -> usize
    requires { at + length (decimal n) ≤ length out.old }
    ensures out_after { out.new ≡ sets out.old at (decimal n) }
    ensures value { result ≡ at + length (decimal n) }
{
    let next = if 9 < n {
        put_decimal(out, at, n / 10)
    } else {
        at
    };
    out[next] = b'0' + (n % 10) as u8;
    next + 1
}

pub fn put_number(out: &mut [u8], at: usize, z: i32) -> usize
    requires { at + length (number z) ≤ length out.old }
    ensures out_after { out.new ≡ sets out.old at (number z) }
    ensures value { result ≡ at + length (number z) }
{
    let magnitude = z.unsigned_abs() as usize;
    if z < 0 {
        out[at] = b'-';
        return put_decimal(out, at + 1, magnitude);
    }
    put_decimal(out, at, magnitude)
}
