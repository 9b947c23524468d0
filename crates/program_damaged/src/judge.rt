// The reader's checks, directly from document 01, on the bytes.
ghost use Rattle.std.specs.Prelude.{◌+◌, ◌*◌, ◌≤◌, length};

use crate::verdict::Verdict;

// The field of 2 bytes at a place.
fn field(file: &[u8], at: usize) -> usize
    requires { at + 2 ≤ length file.now }
    ensures { result ≤ 65535 }
{
    usize::from(u16::from_le_bytes([file[at], file[at + 1]]))
}

// An unknown kind, or a total cut whose day is not 0.
fn bad_cut(cut: &[u8]) -> bool
    requires { 8 ≤ length cut.now }
{
    match field(cut, 0) {
        0 | 1 => false,
        2 | 3 => field(cut, 2) != 0,
        _ => true,
    }
}

pub(crate) fn judged(file: &[u8]) -> Verdict {
    let length = file.len();
    if length < 18 {
        return Verdict::Refused(11);
    }
    let days = field(file, 0);
    let cuts = field(file, 2);
    if days == 0 || 512 < days || 512 < cuts {
        return Verdict::Refused(1);
    }
    let end = 18 + 6 * days;
    if length != end + 8 * cuts || field(file, 4) != 18 || field(file, 6) != end {
        return Verdict::Refused(11);
    }
    if field(file, end - 2) != 0 || file[end..].chunks_exact(8).any(|cut| bad_cut(cut)) {
        return Verdict::Refused(12);
    }
    Verdict::Taken
}
