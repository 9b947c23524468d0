// Schedules written for a session's bytes and inspected by them, as a caller in C hands them over.
#![tactic(auto)]

ghost use Rattle.std.specs.Prelude.{◌≡◌, ◌*◌, length};
ghost use Rattle.theory_lists.specs.Written.{written};
ghost use Rattle.theory_method.specs.Filter.{zeros};
ghost use Rattle.refusals.specs.Number.{refusal_of};
ghost use Rattle.schedule_writing.specs.Stages.{value_as};
ghost use Rattle.schedule_inspection.specs.Inspecting.{found, finding, judged};
ghost use Rattle.c_lists.specs.Lists.{points_in, lent_points};
ghost use Rattle.c_layout.specs.Layout.{session_bytes, decoding};
ghost use Rattle.c_schedules.specs.Schedules.{setpoint_for, write_refusal, inspected_over};
ghost use Rattle.c_schedules.specs.Stages.{checked_for, CodeFits, levels_for};

use c_layout::SESSION_BYTES;
use c_lists::{code_points, put_levels};
use c_loading::{ceiling_of, days_of, first_of, floor_of, is_spent, load_present, total_of};
use limits::{HIGHEST_SETPOINT, LOWEST_SETPOINT, MOST_DAYS};
use refusals::Refusal;
use schedule_inspection::Finding;
use schedule_writing::write_through;

// What a schedule is written for.
#[derive(Clone, Copy)]
pub enum Subject {
    Day(usize),
    Total,
}

// Checks 7, 9 and 10 of a value for a day.
fn check_day(session: &[u8], day: usize, value: i32) -> Result<usize, Refusal>
    requires { length session.now ≡ session_bytes }
    ensures { value_as result ≡ checked_for (decoding session.now) (Subject.Day day) value }
{
    if days_of(session) <= day {
        return Err(Refusal::Day);
    }
    schedule_writing::check_day(
        value,
        floor_of(session, day),
        ceiling_of(session, day),
        is_spent(session),
    )
}

// Checks 9 and 10 of a value for the total.
fn check_total(session: &[u8], value: i32) -> Result<usize, Refusal>
    requires { length session.now ≡ session_bytes }
    ensures { value_as result ≡ checked_for (decoding session.now) Subject.Total value }
{
    let total = total_of(session);
    schedule_writing::check_total(value, total.lowest, total.highest, is_spent(session))
}

fn check(session: &[u8], subject: Subject, value: i32) -> Result<usize, Refusal>
    requires { length session.now ≡ session_bytes }
    ensures { value_as result ≡ checked_for (decoding session.now) subject value }
{
    match subject {
        Subject::Day(day) => check_day(session, day, value),
        Subject::Total => check_total(session, value),
    }
}

// Turns zeros into the schedule's levels, by the code of the value that it is written for.
fn load_levels(session: &[u8], subject: Subject, code: usize, levels: &mut [u16; MOST_DAYS])
    requires { (length session.now ≡ session_bytes) × CodeFits (decoding session.now) subject code × (levels.old ≡ zeros) }
    ensures { levels.new ≡ written (levels_for (decoding session.now) subject code) (decoding session.now).days (decoding session.now).present.floors }
{
    let n = days_of(session);
    let first = first_of(session);
    let mut rises = [0u16; MOST_DAYS];
    let mut ceilings = [0u16; MOST_DAYS];
    load_present(session, &mut rises, levels, &mut ceilings);
    match subject {
        Subject::Day(day) => {
            let lowest = total_of(session).lowest;
            write_through(levels, &mut ceilings, &rises, n, first, lowest, day, code);
        }
        Subject::Total => schedule_raising::raise_to(levels, &ceilings, &rises, n, first, code),
    }
}

// Fills a list with the schedule for its subject's value.
pub fn write(session: &[u8], subject: Subject, value: i32, list: &mut [u8]) -> Result<(), Refusal>
    ensures value { refusal_of result ≡ write_refusal session.now subject value list.old }
    ensures list_after { list.new ≡ lent_points (refusal_of result) (setpoint_for (decoding session.now) subject value) (decoding session.now).days list.old }
{
    if session.len() != SESSION_BYTES {
        return Err(Refusal::Length);
    }
    let n = days_of(session);
    if list.len() != n * 2 {
        return Err(Refusal::Length);
    }
    let code = check(session, subject, value)?;
    let mut levels = [0u16; MOST_DAYS];
    load_levels(session, subject, code, &mut levels);
    put_levels(&levels, n, list);
    Ok(())
}

// Judges a list that is n long by the present ranges and rises.
fn judge_points(session: &[u8], list: &[u8]) -> Finding
    requires { (length session.now ≡ session_bytes) × (length list.now ≡ (decoding session.now).days * 2) }
    ensures { found result ≡ judged (decoding session.now) (points_in list.now (decoding session.now).days) }
{
    let n = days_of(session);
    let first = first_of(session);
    let mut rises = [0u16; MOST_DAYS];
    let mut floors = [0u16; MOST_DAYS];
    let mut ceilings = [0u16; MOST_DAYS];
    let mut setpoints = [0u16; MOST_DAYS];
    load_present(session, &mut rises, &mut floors, &mut ceilings);
    code_points(list, n, LOWEST_SETPOINT, HIGHEST_SETPOINT, &mut setpoints);
    let total = total_of(session);
    schedule_inspection::judge_codes(
        &setpoints,
        &floors,
        &ceilings,
        &rises,
        n,
        first,
        total.lowest,
        total.highest,
    )
}

// Judges a schedule by the session's present ranges and rises.
pub fn inspect(session: &[u8], list: &[u8]) -> Result<Finding, Refusal>
    ensures { finding result ≡ inspected_over session.now list.now }
{
    if session.len() != SESSION_BYTES {
        return Err(Refusal::Length);
    }
    if list.len() != days_of(session) * 2 {
        return Err(Refusal::Length);
    }
    if is_spent(session) {
        return Err(Refusal::Spent);
    }
    Ok(judge_points(session, list))
}
