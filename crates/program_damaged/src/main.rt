// Two profile files damaged: every truncation and every change of one byte is read, judged, printed as the program `ranges` prints it, and written back.
#![tactic(auto)]

mod endings;
mod judge;
mod tally;
mod verdict;
mod writing;

ghost use Rattle.std.specs.Prelude.{◌<◌, length};

use std::io;
use tally::Tally;

// Document 01's file, examples/doc01.profile: header, first counted day, days, cuts.
const DOC01: [u8; 52] = *b"\
    \x03\x00\x02\x00\x12\x00\x24\x00\x0A\x00\x00\x00\x0C\x00\x00\x00\
    \x00\x00\
    \x02\x00\x06\x00\x00\x00\
    \x04\x00\x07\x00\x00\x00\
    \x04\x00\x07\x00\x00\x00\
    \x00\x00\x00\x00\x03\x00\x00\x00\
    \x03\x00\x00\x00\x0B\x00\x00\x00";

// The bytes of the longer file.
pub(crate) const LONGEST: usize = 78;

// examples/too_warm.profile.
const TOO_WARM: [u8; LONGEST] = *b"\
    \x0A\x00\x00\x00\x12\x00\x4E\x00\x50\x46\x00\x00\x08\x52\x00\x00\
    \x00\x00\
    \x08\x07\xD0\x07\x4B\x00\
    \x08\x07\xD0\x07\x4B\x00\
    \x08\x07\xD0\x07\x4B\x00\
    \x08\x07\xD0\x07\x4B\x00\
    \x08\x07\xD0\x07\x4B\x00\
    \x08\x07\x34\x08\x4B\x00\
    \x08\x07\x34\x08\x4B\x00\
    \x08\x07\x34\x08\x4B\x00\
    \x08\x07\x34\x08\x4B\x00\
    \x08\x07\x34\x08\x00\x00";

fn truncated(file: &[u8]) -> Tally {
    let mut tally = Tally::default();
    for k in 0..file.len() {
        tally.note(&file[..k]);
    }
    tally
}

// Byte i changed to each of its other values, then back.
fn change_byte(tally: &mut Tally, file: &mut [u8], i: usize)
    requires { i < length file.old }
{
    let byte = file[i];
    for more in 1..=255u8 {
        file[i] = byte.wrapping_add(more);
        tally.note(file);
    }
    file[i] = byte;
}

fn changed(file: &mut [u8]) -> Tally {
    let mut tally = Tally::default();
    for i in 0..file.len() {
        change_byte(&mut tally, file, i);
    }
    tally
}

fn main(rt: HostRuntime) -> io::Result<()> {
    let mut doc01 = DOC01;
    println!(rt; "doc01 truncated: {}", truncated(&doc01))?;
    println!(rt; "doc01 changed: {}", changed(&mut doc01))?;
    let mut too_warm = TOO_WARM;
    println!(rt; "too_warm truncated: {}", truncated(&too_warm))?;
    println!(rt; "too_warm changed: {}", changed(&mut too_warm))
}
