//! Which schedule of a train decides on each date, as records of form 3 whose bodies are the positions of the schedules.
ghost use Rattle.std.specs.Prelude.{◌≡◌, ◌<◌, ◌∷◌, [], ℕ, All, Contains, IfOk, List, Some, length, map, slice_get};
ghost use Rattle.std.specs.{BTreeMap.get, List.range_with_len, Ordering.nat_cmp};
ghost use Rattle.cif_calendar.specs.{Clash.IsClear, Runs.BodyRuns};
ghost use Rattle.cif_feed.specs.Steps.Deciding.{AppliesAt, AreForm3, AreRunsAt, AreShown, DecidesAmong, IsFirstOf, ShowsOn, sourced};
ghost use Rattle.cif_feed.specs.Steps.{Deciding.terms_in, Dropping.ReadsTrains};
ghost use Rattle.cif_weeks.specs.{Window.IsWithin, Window.window_days};

use crate::prepare::{ClashDates, dates_of, prepared_last};
use crate::prepared_record::{PreparedRecord, add_parts};
use crate::{Holidays, PublishedSchedule};
use cif_calendar::{CalendarFault, Entry, Window, calendar};
use cif_columns::{Day, DaysRun, Stp};
use cif_extract::Schedule;
use cif_weeks::{Form, Run, runs, runs_of_few};
use std::alloc::{AllocError, Global};

/// Dates on which a schedule decides, as an entry of the calendar: what runs on them is the schedule's position.
#[derive(Drop)]
pub(crate) struct DecidingDates {
    /// The dates and the position. A last date before the first counts as the first.
    run: Run,
    /// Whether they go before others.
    before: bool,
}

impl Entry for DecidingDates {
    // All are of one train.
    type Key = usize;

    type Body = usize;

    ghost use Rattle.std.proofs.{Common.rules, lemmas.Grind.common_steps};
    ghost use Rattle.std.proofs.Math.Nat.{le-max_left};
    ghost use Rattle.cif_feed.specs.{Laws.Deciding.cancelled_dates, Steps.Deciding.terms_of_dates};

    ghost key = { λ d. d.run.source };

    ghost terms = { λ d. terms_of_dates d.run d.before };

    fn key(&self) -> &usize {
        &self.run.source
    }

    fn first(&self) -> Day {
        self.run.first
    }

    fn last(&self) -> Day {
        self.run.first.max(self.run.last)
    }

    fn days(&self) -> DaysRun {
        self.run.days
    }

    fn letter(&self) -> Stp {
        if self.before { Stp::O } else { Stp::P }
    }

    fn body(&self) -> Option<&usize> {
        Some(&self.run.source)
    }

    ghost same_key = { Prim.search (rules, common_steps) };

    ghost same_body = { Prim.search (rules, common_steps) };

    ghost dates_ordered = { λ d. le-max_left d.run.first d.run.last };

    ghost cancelled = { λ d. cancelled_dates d.run d.before };
}

/// The schedules of a published extract, and what takes dates from them.
#[derive(Clone, Copy)]
pub(crate) struct Deciders<'a> {
    pub(crate) schedules: &'a [PublishedSchedule],
    pub(crate) window: &'a Window,
    pub(crate) holidays: &'a Holidays,
    /// The dates on which no schedule of a train decides.
    pub(crate) clash_dates: &'a ClashDates<u64>,
}

/// The records of form 3 of the schedules of one train, of which each decides on its dates but those of the schedules before
/// it. The source of a run is the position of the schedule.
pub(crate) fn decided(
    alloc: Global,
    deciders: Deciders<'_>,
    ranked: &[(u8, usize)],
) -> Result<Vec<Run>, AllocError>
    requires { All (λ p. p.1 < length deciders.schedules.now) ranked.now }
    ensures within { IfOk result (λ runs. All (λ run. run.source < length deciders.entry.schedules.now) runs.items) }
    ensures form { IfOk result (λ runs. AreForm3 (window_days deciders.entry.window.now) runs.items) }
    ensures decides { IfOk result (λ runs. (days : List ℕ → List ℕ) → ReadsTrains days (get nat_cmp deciders.entry.clash_dates.now)
        → AreShown (window_days deciders.entry.window.now) (DecidesAmong (AppliesAt deciders.entry.holidays.now days deciders.entry.window.now.last
        deciders.entry.schedules.now) (map (λ p. p.1) ranked.now)) runs.items) }
{
    match ranked {
        [] => Ok(Vec::new(alloc)),
        [(_, position)] => {
            dates_alone(alloc, deciders, *position, &deciders.schedules[*position])
        }
        _ => {
            let (front, back) = ranked.split_at(ranked.len() / 2);
            let before = decided(alloc, deciders, front)?;
            let after = decided(alloc, deciders, back)?;
            merged(alloc, before.as_slice(), after.as_slice(), deciders.window)
        }
    }
}

/// The records of form 3 of the dates on which the schedule at this position applies, but for those that are taken from it.
fn dates_alone(
    alloc: Global,
    deciders: Deciders<'_>,
    position: usize,
    one: &PublishedSchedule,
) -> Result<Vec<Run>, AllocError>
    requires { slice_get deciders.schedules.now position ≡ Some one.now }
    ensures within { IfOk result (λ runs. All (λ run. run.source < length deciders.entry.schedules.now) runs.items) }
    ensures form { IfOk result (λ runs. AreForm3 (window_days deciders.entry.window.now) runs.items) }
    ensures decides { IfOk result (λ runs. (days : List ℕ → List ℕ) → ReadsTrains days (get nat_cmp deciders.entry.clash_dates.now)
        → AreShown (window_days deciders.entry.window.now) (DecidesAmong (AppliesAt deciders.entry.holidays.now days deciders.entry.window.now.last
        deciders.entry.schedules.now) (position ∷ [])) runs.items) }
{
    let schedule = &one.schedule;
    let last = prepared_last(schedule, one.open_end, deciders.window.last);
    let holidays = deciders.holidays.of(one.code);
    let dates = dates_of(deciders.clash_dates, schedule);
    let mut parts = Vec::new(alloc);
    add_parts(schedule, last, holidays, dates, &mut parts)?;
    let mut entries = Vec::with_capacity(alloc, parts.len())?;
    for part in &parts {
        entries.push(DecidingDates {
            run: Run {
                first: part.first,
                last: part.last,
                days: schedule.days,
                source: position,
            },
            before: false,
        })?;
    }
    runs_of(alloc, entries.as_slice(), deciders.window)
}

/// The records of form 3 of the runs of two lists, where those of the first go before those of the other.
fn merged(
    alloc: Global,
    before: &[Run],
    after: &[Run],
    window: &Window,
) -> Result<Vec<Run>, AllocError>
    requires before { AreForm3 (window_days window.now) before.now }
    requires after { AreForm3 (window_days window.now) after.now }
    ensures { IfOk result (λ runs.
        AreShown (window_days window.now) (IsFirstOf (ShowsOn before.now) (ShowsOn after.now)) runs.items) }
{
    let mut entries = Vec::new(alloc);
    for run in before {
        entries.push(DecidingDates {
            run: *run,
            before: true,
        })?;
    }
    for run in after {
        entries.push(DecidingDates {
            run: *run,
            before: false,
        })?;
    }
    runs_of(alloc, entries.as_slice(), window)
}

/// The records of form 3 that show which of the schedules decides on each date of the window.
fn runs_of(
    alloc: Global,
    entries: &[DecidingDates],
    window: &Window,
) -> Result<Vec<Run>, AllocError>
    requires { (n : ℕ) → IsWithin (window_days window.now) n → IsClear (Contains (terms_in entries.now)) n }
    ensures { IfOk result (λ runs. AreShown (window_days window.now) (BodyRuns (Contains (terms_in entries.now))) runs.items) }
{
    let mut made = runs_by_entries(alloc, entries, window)?;
    name_sources(made.as_mut_slice(), entries);
    Ok(made)
}

/// Gives each run the position that its entry has, in place of the entry's own.
fn name_sources(runs: &mut [Run], entries: &[DecidingDates])
    requires { All (λ run. run.source < length entries.now) runs.old }
    ensures { runs.new ≡ map (sourced entries.now) runs.old }
{
    for place in 0..runs.len() {
        let run = runs[place];
        let source = entries[run.source].run.source;
        runs[place] = Run { source, ..run };
    }
}

/// The same, where the source of a run is the position of an entry.
fn runs_by_entries(
    alloc: Global,
    entries: &[DecidingDates],
    window: &Window,
) -> Result<Vec<Run>, AllocError>
    requires { (n : ℕ) → IsWithin (window_days window.now) n → IsClear (Contains (terms_in entries.now)) n }
    ensures { IfOk result (λ runs. AreRunsAt (window_days window.now) (terms_in entries.now) runs.items) }
{
    let members = all_positions(alloc, entries.len())?;
    let members = members.as_slice();
    let mut made = Vec::new(alloc);
    if runs_of_few(&mut made, entries, members, window, Form::Three)? {
        return Ok(made);
    }
    match calendar(alloc, entries, members, *window) {
        Ok(calendar) => runs(alloc, entries, &calendar, Form::Three),
        Err(CalendarFault::Memory) => Err(AllocError),
        Err(CalendarFault::Ambiguous(_)) => unreachable!(),
    }
}

/// So many positions, from 0 on.
fn all_positions(alloc: Global, count: usize) -> Result<Vec<usize>, AllocError>
    ensures { IfOk result (λ positions. positions.items ≡ range_with_len 0 count) }
{
    let mut positions = Vec::with_capacity(alloc, count)?;
    for position in 0..count {
        positions.push(position)?;
    }
    Ok(positions)
}
