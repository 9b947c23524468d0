// The panel's entries for C, on numbers and byte strings: include/cloverdrum.h says how they are called. An entry gives its refusal's number, 0 for none,
// and its other results through lent numbers, which are 0 beside a refusal.
#![tactic(auto)]

ghost use Rattle.std.specs.Prelude.{◌≡◌, cond, ◌-◌, length};
ghost use Rattle.session_cuts.specs.Numbered.{numbered};
ghost use Rattle.session.specs.Opening.{numbers_with};
ghost use Rattle.session.specs.Showing.{floor_on, ceiling_on};
ghost use Rattle.file_format.specs.Format.{day_count, floor_at, ceiling_at, rise_at};
ghost use Rattle.c_lists.specs.Lists.{lent_points};
ghost use Rattle.c_lists.specs.Profiles.{byte_profile};
ghost use Rattle.c_layout.specs.Layout.{session_bytes, decoding};
ghost use Rattle.c_files.specs.Reading.{read_into, cuts_lent};
ghost use Rattle.c_files.specs.Writing.{write_over, output_over};
ghost use Rattle.c_sessions.specs.Sessions.{open_refusal, bytes_opened, cut_answer, bytes_cut, changed_bytes, shown_over, marked};
ghost use Rattle.c_sheets.specs.Sheets.{sheet_answer, bytes_after_sheet, answers_after, days_after};
ghost use Rattle.c_schedules.specs.Schedules.{setpoint_for, write_refusal, inspected_over};
ghost use Rattle.c_schedules.specs.declared.Subject.TheVariants.{Day, Total};

use c_files::Contents;
use c_layout::SESSION_BYTES;
use c_schedules::Subject;
use refusals::number_of;
use schedule_inspection::Finding;
use session::{Numbers, Shown};

// What is lent back beside a refusal.
const NOTHING_SHOWN: Shown = Shown {
    lowest: 0,
    highest: 0,
    spent: false,
};

const NOTHING_READ: Contents = Contents {
    numbers: Numbers::NONE,
    cuts: 0,
};

// How many bytes a session has.
#[unsafe(no_mangle)]
pub extern "C" fn cloverdrum_session_bytes() -> usize
    ensures { result ≡ session_bytes }
{
    SESSION_BYTES
}

// ---- opening

#[unsafe(no_mangle)]
pub extern "C" fn cloverdrum_open(
    session: &mut [u8],
    days: usize,
    floors: &[u8],
    ceilings: &[u8],
    rises: &[u8],
    total_floor: i32,
    total_ceiling: i32,
    first_counted_day: usize,
) -> u8
    ensures value { result ≡ open_refusal session.old (byte_profile (numbers_with days first_counted_day total_floor total_ceiling) floors.now ceilings.now rises.now) }
    ensures session_after { session.new ≡ bytes_opened session.old (byte_profile (numbers_with days first_counted_day total_floor total_ceiling) floors.now ceilings.now rises.now) }
{
    let numbers = Numbers {
        days,
        first: first_counted_day,
        lowest: total_floor,
        highest: total_ceiling,
    };
    number_of(&c_sessions::open(session, numbers, floors, ceilings, rises))
}

// ---- cutting

#[unsafe(no_mangle)]
pub extern "C" fn cloverdrum_cut(
    session: &mut [u8],
    kind: usize,
    day: usize,
    value: i32,
    changed: &mut [u8],
    changed_days: &mut usize,
) -> u8
    ensures changed_days_after { record { refusal = result; changed = changed_days.new } ≡ cut_answer session.old (numbered kind day value) (length changed.old) }
    ensures session_after { session.new ≡ bytes_cut session.old (numbered kind day value) (length changed.old) }
    ensures changed_after { changed.new ≡ changed_bytes session.old (numbered kind day value) changed.old }
{
    let answer = c_sessions::cut(session, kind, day, value, changed);
    *changed_days = answer.unwrap_or(0);
    number_of(&answer)
}

// Makes up to 512 cuts in order.
#[unsafe(no_mangle)]
pub extern "C" fn cloverdrum_cut_sheet(
    session: &mut [u8],
    cuts: &[u8],
    answers: &mut [u8],
    changed: &mut [u8],
    changed_days: &mut usize,
) -> u8
    ensures changed_days_after { record { refusal = result; changed = changed_days.new } ≡ sheet_answer session.old cuts.now (length answers.old) (length changed.old) }
    ensures session_after { session.new ≡ bytes_after_sheet result session.old cuts.now }
    ensures answers_after { answers.new ≡ answers_after result session.old cuts.now answers.old }
    ensures changed_after { changed.new ≡ days_after result session.old cuts.now changed.old }
{
    let sheet = c_sheets::cut_sheet(session, cuts, answers, changed);
    *changed_days = sheet.unwrap_or(0);
    number_of(&sheet)
}

// ---- showing

// Shows the ranges.
#[unsafe(no_mangle)]
pub extern "C" fn cloverdrum_read(
    session: &[u8],
    floors: &mut [u8],
    ceilings: &mut [u8],
    total_floor: &mut i32,
    total_ceiling: &mut i32,
    spent: &mut u8,
) -> u8
    ensures spent_after { record { refusal = result; lowest = total_floor.new; highest = total_ceiling.new; spent = spent.new } ≡ marked (shown_over session.now (length floors.old) (length ceilings.old)) }
    ensures floors_after { floors.new ≡ lent_points result (floor_on (decoding session.now)) (decoding session.now).days floors.old }
    ensures ceilings_after { ceilings.new ≡ lent_points result (ceiling_on (decoding session.now)) (decoding session.now).days ceilings.old }
{
    let answer = c_sessions::show(session, floors, ceilings);
    let shown = answer.unwrap_or(NOTHING_SHOWN);
    *total_floor = shown.lowest;
    *total_ceiling = shown.highest;
    *spent = u8::from(shown.spent);
    number_of(&answer)
}

// ---- schedules

#[unsafe(no_mangle)]
pub extern "C" fn cloverdrum_write_day(
    session: &[u8],
    day: usize,
    value: i32,
    schedule: &mut [u8],
) -> u8
    ensures value { result ≡ write_refusal session.now (Day day) value schedule.old }
    ensures schedule_after { schedule.new ≡ lent_points result (setpoint_for (decoding session.now) (Day day) value) (decoding session.now).days schedule.old }
{
    number_of(&c_schedules::write(session, Subject::Day(day), value, schedule))
}

#[unsafe(no_mangle)]
pub extern "C" fn cloverdrum_write_total(session: &[u8], value: i32, schedule: &mut [u8]) -> u8
    ensures value { result ≡ write_refusal session.now Total value schedule.old }
    ensures schedule_after { schedule.new ≡ lent_points result (setpoint_for (decoding session.now) Total value) (decoding session.now).days schedule.old }
{
    number_of(&c_schedules::write(session, Subject::Total, value, schedule))
}

#[unsafe(no_mangle)]
pub extern "C" fn cloverdrum_inspect(
    session: &[u8],
    schedule: &[u8],
    rule: &mut usize,
    place: &mut usize,
) -> u8
    ensures { record { refusal = result; rule = rule.new; place = place.new } ≡ inspected_over session.now schedule.now }
{
    let answer = c_schedules::inspect(session, schedule);
    let found = answer.unwrap_or(Finding::Kept);
    *rule = found.rule();
    *place = found.place();
    number_of(&answer)
}

// ---- files

#[unsafe(no_mangle)]
pub extern "C" fn cloverdrum_read_file(
    file: &[u8],
    floors: &mut [u8],
    ceilings: &mut [u8],
    rises: &mut [u8],
    cuts: &mut [u8],
    days: &mut usize,
    cuts_count: &mut usize,
    total_floor: &mut i32,
    total_ceiling: &mut i32,
    first_counted_day: &mut usize,
) -> u8
    ensures cuts_count_after { record { refusal = result; numbers = record { days = days.exit.now; first = first_counted_day.new; lowest = total_floor.new; highest = total_ceiling.new }; cuts = cuts_count.new } ≡ read_into file.now (length floors.old) (length ceilings.old) (length rises.old) (length cuts.old) }
    ensures floors_after { floors.new ≡ lent_points result (floor_at file.now) (day_count file.now) floors.old }
    ensures ceilings_after { ceilings.new ≡ lent_points result (ceiling_at file.now) (day_count file.now) ceilings.old }
    ensures rises_after { rises.new ≡ lent_points result (rise_at file.now) (day_count file.now - 1) rises.old }
    ensures cuts_after { cuts.new ≡ cuts_lent result file.now cuts.old }
{
    let answer = c_files::read(file, floors, ceilings, rises, cuts);
    let contents = answer.unwrap_or(NOTHING_READ);
    let numbers = contents.numbers;
    *days = numbers.days;
    *cuts_count = contents.cuts;
    *total_floor = numbers.lowest;
    *total_ceiling = numbers.highest;
    *first_counted_day = numbers.first;
    number_of(&answer)
}

#[unsafe(no_mangle)]
pub extern "C" fn cloverdrum_write_file(
    days: usize,
    floors: &[u8],
    ceilings: &[u8],
    rises: &[u8],
    total_floor: i32,
    total_ceiling: i32,
    first_counted_day: usize,
    cuts: &[u8],
    file: &mut [u8],
    file_bytes: &mut usize,
) -> u8
    ensures file_bytes_after { record { refusal = result; length = file_bytes.new } ≡ write_over (byte_profile (numbers_with days first_counted_day total_floor total_ceiling) floors.now ceilings.now rises.now) cuts.now (length file.old) }
    ensures file_after { file.new ≡ output_over (byte_profile (numbers_with days first_counted_day total_floor total_ceiling) floors.now ceilings.now rises.now) cuts.now file.old }
{
    let numbers = Numbers {
        days,
        first: first_counted_day,
        lowest: total_floor,
        highest: total_ceiling,
    };
    let answer = c_files::write(numbers, floors, ceilings, rises, cuts, file);
    *file_bytes = answer.unwrap_or(0);
    number_of(&answer)
}
