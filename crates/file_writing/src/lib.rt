// The profile file's writer.
#![tactic(auto)]

ghost use Rattle.std.specs.Prelude.{◌≡◌, ◌≤◌, length, get_or};
ghost use Rattle.limits.specs.Limits.{most_cuts};
ghost use Rattle.theory_lists.specs.First.{first_nonzero};
ghost use Rattle.refusals.specs.Number.{refusal_of};
ghost use Rattle.session.specs.Opening.{profile};
ghost use Rattle.session_cuts.specs.Sheet.{blank, cuts_of};
ghost use Rattle.session_cutting.specs.Cutting.{malformed};
ghost use Rattle.file_writing.specs.Writing.{write_as, write_answer, output};

use file_format::{CUT_BYTES, day_offset};
use file_parts::{put_days, put_entries, put_header};
use limits::MOST_CUTS;
use refusals::Refusal;
use session::{Numbers, check_early};
use session_cuts::{Entry, Sheet};

// The first refusal of the entries in their order.
fn check_entries(entries: [Entry; MOST_CUTS], count: usize, days: usize) -> Result<(), Refusal>
    requires { count ≤ most_cuts }
    ensures { refusal_of result ≡ first_nonzero (λ j. malformed days (get_or entries j blank).cut) count }
{
    for j in 0..count {
        session_cutting::check(entries[j].cut, days)?;
    }
    Ok(())
}

// Writes a file: document 01's checks 1 to 6 and 13 as opening does, each cut in order as cutting does, then 2 where the output is too short.
pub fn write(
    numbers: Numbers,
    floors: &[i16],
    ceilings: &[i16],
    rises: &[i16],
    sheet: Sheet,
    out: &mut [u8],
) -> Result<usize, Refusal>
    ensures value { write_as result ≡ write_answer (profile numbers floors.now ceilings.now rises.now) (cuts_of sheet) (length out.old) }
    ensures out_after { out.new ≡ output (profile numbers floors.now ceilings.now rises.now) (cuts_of sheet) out.old }
{
    let days = numbers.days;
    let count = sheet.count;
    let entries = sheet.entries;
    if MOST_CUTS < count {
        return Err(Refusal::Count);
    }
    check_early(numbers, floors, ceilings, rises)?;
    check_entries(entries, count, days)?;
    let from = day_offset(days);
    let length = from + count * CUT_BYTES;
    if out.len() < length {
        return Err(Refusal::Length);
    }
    put_header(numbers, count, out);
    put_days(floors, ceilings, rises, days, out);
    put_entries(entries, count, from, out);
    Ok(length)
}
