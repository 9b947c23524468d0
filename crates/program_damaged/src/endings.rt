// What a text of `file_printing::print_ranges` says.
ghost use Rattle.std.specs.Prelude.{◌≤◌, length};

use crate::verdict::Verdict;

// The number from 1 to 13 that stands before a line feed.
fn number(line: &[u8]) -> Verdict {
    match line {
        [digit @ b'1'..=b'9', b'\n'] => Verdict::Refused(*digit - b'0'),
        [b'1', digit @ b'0'..=b'3', b'\n'] => Verdict::Refused(*digit - b'0' + 10),
        _ => Verdict::Other,
    }
}

pub(crate) fn ending(text: &[u8]) -> Verdict {
    if text.starts_with(b"total ") {
        return Verdict::Taken;
    }
    if text.starts_with(b"refused ") {
        return number(&text[8..]);
    }
    Verdict::Other
}
