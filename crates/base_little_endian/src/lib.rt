// Little-endian fields of 2 and 4 bytes, read from a slice and stored in one.
#![tactic(auto)]

ghost use Rattle.std.specs.Prelude.{◌≡◌, ◌+◌, ◌≤◌, length};
ghost use Rattle.std.proofs.lemmas.List.Edits.{sets};
ghost use Rattle.base_little_endian.specs.Fields.{u16_at, i16_at, i32_at, u16_bytes, i16_bytes, i32_bytes};

// Bytes of a field of 16 bits, as days and levels have.
pub const CELL_BYTES: usize = 2;

// ---- read

pub fn u16_at(bytes: &[u8], at: usize) -> u16
    requires { at + 2 ≤ length bytes.now }
    ensures { result ≡ u16_at bytes.now at }
{
    u16::from_le_bytes([bytes[at], bytes[at + 1]])
}

pub fn i16_at(bytes: &[u8], at: usize) -> i16
    requires { at + 2 ≤ length bytes.now }
    ensures { result ≡ i16_at bytes.now at }
{
    i16::from_le_bytes([bytes[at], bytes[at + 1]])
}

pub fn i32_at(bytes: &[u8], at: usize) -> i32
    requires { at + 4 ≤ length bytes.now }
    ensures { result ≡ i32_at bytes.now at }
{
    i32::from_le_bytes([bytes[at], bytes[at + 1], bytes[at + 2], bytes[at + 3]])
}

// ---- stored, byte by byte: std's copy of so few was slower on the board, since it asks each time which of both lists lies first

pub fn put_u16(out: &mut [u8], at: usize, x: u16)
    requires { at + 2 ≤ length out.old }
    ensures { out.new ≡ sets out.old at (u16_bytes x) }
{
    let [low, high] = x.to_le_bytes();
    out[at] = low;
    out[at + 1] = high;
}

pub fn put_i16(out: &mut [u8], at: usize, z: i16)
    requires { at + 2 ≤ length out.old }
    ensures { out.new ≡ sets out.old at (i16_bytes z) }
{
    put_u16(out, at, z.cast_unsigned());
}

pub fn put_i32(out: &mut [u8], at: usize, z: i32)
    requires { at + 4 ≤ length out.old }
    ensures { out.new ≡ sets out.old at (i32_bytes z) }
{
    let [first, second, third, fourth] = z.to_le_bytes();
    out[at] = first;
    out[at + 1] = second;
    out[at + 2] = third;
    out[at + 3] = fourth;
}
