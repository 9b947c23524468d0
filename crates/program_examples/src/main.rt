// What opening, a cut, writing a schedule and inspecting one answer at the bounds of an entry, for profiles with filling days, and the order of changed days: the
// documents' examples that are run and not proved.
#![tactic(auto)]

mod cut_refusals;
mod filling_days;
mod opening_refusals;
mod refused;
mod schedule_refusals;
mod settled_order;

use std::io;

fn main(rt: HostRuntime) -> io::Result<()> {
    opening_refusals::print(&rt)?;
    filling_days::print_profiles(&rt)?;
    cut_refusals::print(&rt)?;
    settled_order::print(&rt)?;
    schedule_refusals::print(&rt)?;
    filling_days::print_schedules(&rt)
}
