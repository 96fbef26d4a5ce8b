//! Calendars of the records of an extract, and their runs.
ghost use Rattle.std.specs.Prelude.{◌<◌, All, IfOk, length, map};
ghost use Rattle.cif_weeks.specs.Runs.{AreSources};

use crate::calendars::positions::{all_positions, are_below, positions_of};
use crate::calendars::report::{push_pieces, push_run, push_sources, push_window};
use crate::case::Case;
use crate::output::Output;
use cif_calendar::{Calendar, CalendarFault, Entry, Window, calendar};
use cif_columns::Day;
use cif_weeks::{Form, runs};
use std::alloc::Global;

/// Appends what runs on the dates from the first to the last by the members that the case asks for.
pub(crate) fn push_calendar<E: Entry>(
    alloc: Global,
    out: &mut Output,
    case: &Case,
    entries: &[E],
    first: Day,
    last: Day,
) {
    if first > last {
        return writeln!(out, "no window");
    }
    let members = match case.value("members") {
        Some(words) => positions_of(alloc, words),
        None => all_positions(alloc, entries.len()),
    };
    let Ok(members) = members else {
        return out.fail();
    };
    if !are_below(members.as_slice(), entries.len()) {
        return writeln!(out, "no such record");
    }
    let members = members.as_slice();
    match calendar_of(alloc, entries, members, Window { first, last }) {
        Ok(calendar) => push_dates(alloc, out, entries, &calendar),
        Err(fault) => writeln!(out, "{fault}"),
    }
}

/// Appends what the calendar of the members and its runs say.
fn push_dates<E: Entry>(alloc: Global, out: &mut Output, entries: &[E], calendar: &Calendar)
    requires { AreSources (map E.terms entries.now) calendar.now }
{
    push_window(out, calendar.window());
    push_sources(out, entries, calendar);
    push_pieces(out, entries, calendar.pieces());
    push_runs(alloc, out, entries, calendar, Form::One);
    push_runs(alloc, out, entries, calendar, Form::Two);
    push_runs(alloc, out, entries, calendar, Form::Three)
}

/// The calendar of these members.
#[tactic(auto, using(cif_weeks::proofs::CalendarSources::calendar_sources))]
pub(crate) fn calendar_of<E: Entry>(
    alloc: Global,
    entries: &[E],
    members: &[usize],
    window: Window,
) -> Result<Calendar, CalendarFault>
    requires { All (λ i. i < length entries.now) members.now }
    ensures sources { IfOk result (AreSources (map E.terms entries.now)) }
{
    calendar(alloc, entries, members, window)
}

/// Appends the runs of the calendar in this form.
fn push_runs<E: Entry>(
    alloc: Global,
    out: &mut Output,
    entries: &[E],
    calendar: &Calendar,
    form: Form,
)
    requires { AreSources (map E.terms entries.now) calendar.now }
{
    let Ok(runs) = runs(alloc, entries, calendar, form) else {
        return out.fail();
    };
    for run in &runs {
        push_run(out, entries, form, run);
    }
}
