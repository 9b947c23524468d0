// Cuts made one after another of a session's ranges in lent arrays, without their lists of changed days.
#![tactic(auto)]

ghost use Rattle.std.specs.Prelude.{◌≡◌, cond, ◌+◌, ◌-◌, ◌≤◌, ltb, length, Err};
ghost use Rattle.limits.specs.Limits.{most_days};
ghost use Rattle.theory_lists.specs.Sum.{at};
ghost use Rattle.theory_lists.specs.Written.{written};
ghost use Rattle.session.specs.Showing.{SessionInBounds};
ghost use Rattle.session.specs.declared.Session.{Session};
ghost use Rattle.session_order.specs.Order.{losers};
ghost use Rattle.session_cutting.specs.Cutting.{after_numbered};
ghost use Rattle.session_steps.specs.Steps.{width, Holds, Holding, Stepped};

use base_codes::CodedNumbers;
use limits::MOST_DAYS;
use refusals::Refusal;
use session_cuts::Cut;

// A session's numbers while cuts are made of it, whether it is spent, and the answer to the last cut.
#[derive(Clone, Copy)]
pub struct Step {
    pub numbers: CodedNumbers,
    pub spent: bool,
    pub answer: Result<usize, Refusal>,
}

// One more where a width fell.
fn tally(count: usize, before: u16, after: u16) -> usize
    requires { count ≤ most_days }
    ensures { result ≡ cond (ltb 0 (before - after)) (count + 1) count }
{
    if after < before { count + 1 } else { count }
}

// Leaves the width of each day's range, and gives how many are smaller than they were.
pub fn count_narrowed(
    floors: &[u16; MOST_DAYS],
    ceilings: &[u16; MOST_DAYS],
    n: usize,
    widths: &mut [u16; MOST_DAYS],
) -> usize
    requires { n ≤ most_days }
    ensures value { result ≡ length (losers (λ k. at widths.old k - width floors.now ceilings.now k) n) }
    ensures widths_after { widths.new ≡ written (width floors.now ceilings.now) n widths.old }
{
    let mut count = 0;
    for k in 0..n {
        let before = widths[k];
        let after = ceilings[k].saturating_sub(floors[k]);
        widths[k] = after;
        count = tally(count, before, after);
    }
    count
}

fn refuse(numbers: CodedNumbers, spent: bool, refusal: Refusal) -> Step
    ensures { result ≡ record { numbers = numbers; spent = spent; answer = Err refusal } }
{
    Step {
        numbers,
        spent,
        answer: Err(refusal),
    }
}

// Makes one cut: document 01's checks 12, 7, 3 or 5, 9, 8.
pub fn cut_next(
    step: Step,
    asked: Option<Cut>,
    rises: &[u16; MOST_DAYS],
    floors: &mut [u16; MOST_DAYS],
    ceilings: &mut [u16; MOST_DAYS],
    widths: &mut [u16; MOST_DAYS],
) -> Step
    requires { Holding step rises.now floors.old ceilings.old widths.old }
    ensures { (s : Session) → SessionInBounds s → Holds s step rises.now floors.old ceilings.old widths.old → Stepped (after_numbered s asked s.days) result rises.now floors.new ceilings.new widths.new }
{
    let numbers = step.numbers;
    let n = numbers.days;
    let spent = step.spent;
    let Some(cut) = asked else {
        return refuse(numbers, spent, Refusal::Kind);
    };
    let value = match session_cutting::check(cut, n) {
        Ok(value) => value,
        Err(refusal) => return refuse(numbers, spent, refusal),
    };
    if spent {
        return refuse(numbers, spent, Refusal::Spent);
    }
    let Some(total) = session_cutting::cut_ranges(floors, ceilings, rises, numbers, cut, value)
    else {
        return refuse(numbers, true, Refusal::NoSchedule);
    };
    let count = count_narrowed(floors, ceilings, n, widths);
    Step {
        numbers: CodedNumbers {
            lowest: total.lowest,
            highest: total.highest,
            ..numbers
        },
        spent: false,
        answer: Ok(count),
    }
}
