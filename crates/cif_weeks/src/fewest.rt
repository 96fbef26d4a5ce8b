//! Form 3: a run goes on as long as can be, and where it can't, another begins.

ghost use Rattle.std.specs.Prelude.{◌≡◌, ◌<◌, ◌≤◌, ◌+◌, ◌++◌, IfNone, IfOk, IfSome, List, ℕ, length, reverse};
ghost use Rattle.cif_columns.specs.Day.{weekday_of};
ghost use Rattle.cif_weeks.specs.{Exact.IsExact, Steps.BodyRuns.AreAdded, Steps.BodyRuns.AreFewestBefore, Steps.Spans.Shows};
ghost use Rattle.cif_weeks.specs.Steps.Fewest.{GoesOn, HasGoneOn, IsPart, IsReach, IsRunDay, Stops};
ghost use Rattle.cif_weeks.specs.declared.span.Span.{Span};

use crate::form::Run;
use crate::span::no_days;
use cif_columns::{Day, DaysRun};
use std::alloc::AllocError;

/// The number of the first day of the weekday from this day on.
fn first_from(day: Day, weekday: u8) -> u16
    requires { weekday < 7 }
    ensures from { day ≤ result }
    ensures first { result < day + 7 }
    ensures weekday { weekday_of result ≡ weekday }
{
    day.fits();
    let days_on = (weekday + 7 - day.weekday()) % 7;
    day.number() + u16::from(days_on)
}

/// The number of the first day of the weekday after this day.
fn first_after(day: Day, weekday: u8) -> u16
    requires { weekday < 7 }
    ensures after { day < result }
    ensures first { result ≤ day + 7 }
    ensures weekday { weekday_of result ≡ weekday }
{
    day.fits();
    let days_on = (weekday + 6 - day.weekday()) % 7;
    day.number() + u16::from(days_on) + 1
}

/// The first and the last day of the weekday between two days; `None` if there is none.
fn days_between(first: Day, last: Day, weekday: u8) -> Option<(Day, Day)>
    requires { weekday < 7 }
    ensures some { IfSome result (λ days. (first ≤ days.0) × (days.0 < first + 7)
        × (weekday_of days.0 ≡ weekday) × (days.0 ≤ days.1) × (days.1 ≤ last)
        × (last < days.1 + 7) × (weekday_of days.1 ≡ weekday)) }
    ensures none { IfNone result ((n : ℕ) → first ≤ n → n ≤ last → ¬ (weekday_of n ≡ weekday)) }
{
    last.fits();
    let start = first_from(first, weekday);
    if last.number() < start {
        return None;
    }
    let days_back = (last.weekday() + 7 - weekday) % 7;
    let Some(from) = Day::from_number(start) else {
        unreachable!()
    };
    let Some(to) = Day::from_number(last.number() - u16::from(days_back)) else {
        unreachable!()
    };
    Some((from, to))
}

/// The first day of the weekday to which the run can't go on, where `next` comes after it; `None` if
/// there is none.
fn stop_on(run: &Run, next: &Run, weekday: u8) -> Option<u16>
    requires { weekday < 7 }
    ensures some { IfSome result (λ day. Stops run.now next.now day
        × ((n : ℕ) → weekday_of n ≡ weekday → n < day → GoesOn run.now next.now n)) }
    ensures none { IfNone result ((n : ℕ) → weekday_of n ≡ weekday → GoesOn run.now next.now n) }
{
    if run.days.has(weekday) {
        let day = first_after(run.last, weekday);
        if next.days.has(weekday) && next.first.number() <= day {
            return None;
        }
        return Some(day);
    }
    if next.days.has(weekday) {
        let day = first_from(next.first, weekday);
        run.first.fits();
        if run.first.number() + 7 <= day {
            return Some(day);
        }
    }
    None
}

/// The last day of `next`, or one before it, up to which the run can go on.
fn reach(run: &Run, next: &Run) -> Day
    ensures { IsReach run.now next.now result }
{
    let mut reach = next.last;
    for weekday in 0..7u8 {
        if let Some(day) = stop_on(run, next, weekday) {
            if day <= reach.number() {
                reach.fits();
                let Some(before) = Day::from_number(day - 1) else {
                    unreachable!()
                };
                reach = before;
            }
        }
    }
    reach
}

/// The run's days from one day to another; `None` if there are none.
fn part(run: &Run, from: Day, to: Day) -> Option<Run>
    ensures some { IfSome result (IsPart run.now from to) }
    ensures none { IfNone result ((n : ℕ) → IsRunDay run.now n → from ≤ n → to < n) }
{
    let first = run.first.max(from);
    let last = run.last.min(to);
    let mut days = no_days();
    let mut start = last;
    let mut end = first;
    for weekday in 0..7u8 {
        if run.days.has(weekday) {
            if let Some((one, other)) = days_between(first, last, weekday) {
                days = days.union(DaysRun::only(weekday));
                start = start.min(one);
                end = end.max(other);
            }
        }
    }
    match days.first() {
        Some(_) => Some(Run {
            first: start,
            last: end,
            days,
            source: run.source,
        }),
        None => None,
    }
}

/// The run, gone on into `next` as long as can be, and what is left of `next`.
fn go_on(run: &Run, next: &Run) -> (Run, Option<Run>)
    ensures { (spans : List Span) (source : ℕ)
        → IsExact (Shows spans source) run.now.first run.now.last run.now.days
        → IsExact (Shows spans source) next.now.first next.now.last next.now.days
        → run.now.last < next.now.first
        → ((n : ℕ) → run.now.last < n → n < next.now.first → ¬ Shows spans source n)
        → HasGoneOn (Shows spans source) run.now next.now result.0 result.1 }
{
    let reach = reach(run, next);
    let longer = match part(next, next.first, reach) {
        Some(head) => Run {
            last: head.last,
            days: run.days.union(head.days),
            ..*run
        },
        None => *run,
    };
    let left = match reach.next_up_to(next.last) {
        Some(day) => part(next, day, next.last),
        None => None,
    };
    (longer, left)
}

/// Adds the days of `next` to a body's runs, which are those from `start` on: the last of them goes on
/// as long as can be, and of the days that are left another is made.
pub(crate) fn add_days(runs: &mut Vec<Run>, start: usize, next: Run) -> Result<(), AllocError>
    ensures { IfOk result (λ _. (spans : List Span) (old : List Run) (limit : ℕ)
        → length old ≡ start
        → IsExact (Shows spans next.source) next.first next.last next.days
        → limit ≤ next.first
        → ((n : ℕ) → limit ≤ n → n < next.first → ¬ Shows spans next.source n)
        → AreAdded old runs.old.items (AreFewestBefore (Shows spans next.source) next.source limit)
        → AreAdded old runs.new.items
        (AreFewestBefore (Shows spans next.source) next.source (next.last + 1))) }
{
    if start < runs.len() {
        let place = runs.len() - 1;
        let (longer, left) = go_on(&runs[place], &next);
        runs[place] = longer;
        let Some(rest) = left else {
            return Ok(());
        };
        runs.push(rest)?;
        return Ok(());
    }
    runs.push(next)?;
    Ok(())
}
