//! The runs of one body: the weekdays on which its spans lead, week by week. Weeks that have one mask
//! are taken at once.

ghost use Rattle.std.specs.Prelude.{◌≡◌, ◌<◌, ◌≤◌, ◌+◌, ◌*◌, ◌++◌, ◌↔◌, All, Contains, IfNone, IfOk, IfSome, IsTrue};
ghost use Rattle.std.specs.Prelude.{List, MatchBool, Some, length, map, ℕ};
ghost use Rattle.std.specs.List.Sorted.{IsNonDecreasingBy};
ghost use Rattle.cif_columns.specs.Day.{IsDay, week_of};
ghost use Rattle.cif_calendar.specs.Source.{body_at};
ghost use Rattle.cif_weeks.specs.Steps.BodyRuns.{AreAdded, AreBodyRuns, AreFewestBefore};
ghost use Rattle.cif_weeks.specs.Steps.BodyRuns.{AreGrownTo, AreNextWeeks, AreRunsOfBody, monday_of};
ghost use Rattle.cif_weeks.specs.Steps.Spans.{AgreeOn, HaveOneMask, IsDisputed, IsSourceAmong, Leads, Shows};
ghost use Rattle.cif_weeks.specs.{Steps.Growing.IsByWeeks, Window.IsWithin};
ghost use Rattle.cif_weeks.specs.{Window.window_days, declared.form.Run.Run, declared.span.Span.Span};

use crate::fewest::add_days;
use crate::form::{Form, Joining, Run};
use crate::span::{Span, Weeks, no_days};
use cif_calendar::{Entry, Window, same_body};
use cif_columns::Day;
use std::alloc::AllocError;

/// The day of the week, which a date of the window has.
fn day_of(week: u32, weekday: u8) -> Day
    requires weekday { weekday < 7 }
    requires in_range { (n : ℕ) × (n + 4 ≡ week * 7 + weekday) × IsDay n }
    ensures { result + 4 ≡ week * 7 + weekday }
{
    match Day::in_week(week, weekday) {
        Some(day) => day,
        None => unreachable!(),
    }
}

/// The week, and those after it up to `until` in which the span leads on the same weekdays. `None` if
/// a span with another body leads on one of these dates too. The spans are in the order of their first
/// weeks; those that begin later aren't looked at.
fn weeks_led(spans: &[Span], span: &Span, week: u32, until: u32) -> Option<Weeks>
    requires listed { Contains spans.now span.now }
    requires order { IsNonDecreasingBy (λ s. s.first_week) spans.now }
    requires in_order { week ≤ until }
    requires in_range { until < 65536 }
    ensures weeks { IfSome result
        (HaveOneMask (λ n. Leads spans.now n span.now) week until) }
    ensures agreed { IfSome result
        (AgreeOn spans.now (λ n. Leads spans.now n span.now) week) }
    ensures disputed { IfNone result ((n : ℕ) × (week_of n ≡ week) × IsDisputed spans.now n) }
{
    let own = span.weeks_from(week, until);
    let mut last = own.last;
    let mut over = no_days();
    let mut rivals = no_days();
    for other in spans {
        if last < other.first_week {
            break;
        }
        if other.letter < span.letter {
            let weeks = other.weeks_from(week, last);
            over = over.union(weeks.days);
            last = weeks.last;
        } else if other.letter == span.letter && other.source != span.source {
            let weeks = other.weeks_from(week, last);
            rivals = rivals.union(weeks.days);
            last = weeks.last;
        }
    }
    let days = own.days.minus(over);
    days.fits();
    match days.intersection(rivals).first() {
        Some(_) => None,
        None => Some(Weeks { days, last }),
    }
}

/// The week, and those after it up to `until` in which the body at `source` is shown on the same
/// weekdays. `None` if another body leads on one of these dates too.
fn weeks_shown(spans: &[Span], source: usize, week: u32, until: u32) -> Option<Weeks>
    requires order { IsNonDecreasingBy (λ s. s.first_week) spans.now }
    requires in_order { week ≤ until }
    requires in_range { until < 65536 }
    ensures weeks { IfSome result (HaveOneMask (Shows spans.now source) week until) }
    ensures agreed { IfSome result (AgreeOn spans.now (Shows spans.now source) week) }
    ensures disputed { IfNone result ((n : ℕ) × (week_of n ≡ week) × IsDisputed spans.now n) }
{
    if let [span] = spans {
        if span.source == source {
            return Some(span.weeks_from(week, until));
        }
    }
    let mut days = no_days();
    let mut last = until;
    for span in spans {
        if last < span.first_week {
            break;
        }
        if span.source == source {
            let weeks = weeks_led(spans, span, week, last)?;
            days = days.union(weeks.days);
            last = weeks.last;
        }
    }
    Some(Weeks { days, last })
}

/// Adds the next weeks, in which the body at `source` is shown, to its runs, which are those from
/// `start` on. The last of them goes on if they join it; else another begins.
fn grow(
    runs: &mut Vec<Run>,
    start: usize,
    week: u32,
    weeks: Weeks,
    source: usize,
    joining: &Joining,
) -> Result<(), AllocError>
    requires by_weeks { IsByWeeks joining.now.form }
    requires shown { (spans : List Span)
        × AreNextWeeks (window_days joining.now.window) spans source week weeks }
    requires in_range { IsDay joining.now.window.last }
    ensures { IfOk result (λ _. (spans : List Span) (old : List Run)
        → AreNextWeeks (window_days joining.now.window) spans source week weeks
        → length old ≡ start
        → AreAdded old runs.old.items (AreBodyRuns joining.now.form
        (window_days joining.now.window) (Shows spans source) source week)
        → AreAdded old runs.new.items (AreBodyRuns joining.now.form
        (window_days joining.now.window) (Shows spans source) source (weeks.last + 1))) }
{
    let Some(first_weekday) = weeks.days.first() else {
        return Ok(());
    };
    let Some(last_weekday) = weeks.days.last() else {
        return Ok(());
    };
    let last = day_of(weeks.last, last_weekday);
    if start < runs.len() {
        let place = runs.len() - 1;
        let run = runs[place];
        run.last.fits();
        if run.last.week() + 1 == week && joining.agree(week, run.days, weeks.days) {
            let days = run.days.union(weeks.days);
            runs[place] = Run { last, days, ..run };
            return Ok(());
        }
    }
    runs.push(Run {
        first: day_of(week, first_weekday),
        last,
        days: weeks.days,
        source,
    })?;
    Ok(())
}

/// Adds the next weeks, in which the body at `source` is shown, to its runs in form 3, which are those
/// from `start` on.
fn add_weeks_days(
    runs: &mut Vec<Run>,
    start: usize,
    week: u32,
    weeks: Weeks,
    source: usize,
    window: &Window,
) -> Result<(), AllocError>
    requires shown { (spans : List Span)
        × AreNextWeeks (window_days window.now) spans source week weeks }
    requires in_range { IsDay window.now.last }
    ensures { IfOk result (λ _. (spans : List Span) (old : List Run)
        → AreNextWeeks (window_days window.now) spans source week weeks
        → length old ≡ start
        → AreAdded old runs.old.items
        (AreFewestBefore (Shows spans source) source (monday_of week))
        → AreAdded old runs.new.items
        (AreFewestBefore (Shows spans source) source (monday_of (weeks.last + 1)))) }
{
    let Some(first_weekday) = weeks.days.first() else {
        return Ok(());
    };
    let Some(last_weekday) = weeks.days.last() else {
        return Ok(());
    };
    let next = Run {
        first: day_of(week, first_weekday),
        last: day_of(weeks.last, last_weekday),
        days: weeks.days,
        source,
    };
    add_days(runs, start, next)
}

/// Adds the next weeks, in which the body at `source` is shown, to its runs, which are those from
/// `start` on.
fn add_weeks(
    runs: &mut Vec<Run>,
    start: usize,
    week: u32,
    weeks: Weeks,
    source: usize,
    joining: &Joining,
) -> Result<(), AllocError>
    requires shown { (spans : List Span)
        × AreNextWeeks (window_days joining.now.window) spans source week weeks }
    requires in_range { IsDay joining.now.window.last }
    ensures { IfOk result (λ _. (spans : List Span) (old : List Run)
        → AreNextWeeks (window_days joining.now.window) spans source week weeks
        → length old ≡ start
        → AreGrownTo joining.now.form (window_days joining.now.window)
        (Shows spans source) source week old runs.old.items
        → AreGrownTo joining.now.form (window_days joining.now.window)
        (Shows spans source) source (weeks.last + 1) old runs.new.items) }
{
    match joining.form {
        Form::One | Form::Two => grow(runs, start, week, weeks, source, joining),
        Form::Three => add_weeks_days(runs, start, week, weeks, source, &joining.window),
    }
}

/// The weeks, from the first to the last, in which spans have this source.
fn weeks_of(spans: &[Span], source: usize) -> (u32, u32)
    ensures weeks { (n : ℕ) → Shows spans.now source n →
        (result.0 ≤ week_of n) × (week_of n ≤ result.1) }
    ensures in_range { result.1 < 65535 }
{
    let mut first = u32::MAX;
    let mut last = 0u32;
    for span in spans {
        if span.source == source {
            first = first.min(span.first_week);
            last = last.max(span.last_week);
        }
    }
    (first, last)
}

/// Adds the runs of the body at `source`. The spans are in the order of their first weeks. `false` if
/// another body leads on one of its dates too.
pub(crate) fn add_body_runs(
    runs: &mut Vec<Run>,
    spans: &[Span],
    source: usize,
    joining: &Joining,
) -> Result<bool, AllocError>
    requires inside { (n : ℕ) → Shows spans.now source n →
        IsWithin (window_days joining.now.window) n }
    requires order { IsNonDecreasingBy (λ s. s.first_week) spans.now }
    ensures { IfOk result (λ made. MatchBool made
        ((added : List Run) × (runs.new.items ≡ runs.old.items ++ added)
        × AreRunsOfBody joining.now.form (window_days joining.now.window)
        spans.now source added)
        ((n : ℕ) × IsDisputed spans.now n)) }
{
    joining.window.last.fits();
    let (first, last) = weeks_of(spans, source);
    let start = runs.len();
    let mut week = first;
    let mut left = spans;
    while let [span, after @ ..] = left {
        let from = week.max(span.first_week);
        if last.min(span.last_week) < from {
            left = after;
        } else {
            let Some(weeks) = weeks_shown(left, source, from, last) else {
                return Ok(false);
            };
            let next = weeks.last + 1;
            add_weeks(runs, start, from, weeks, source, joining)?;
            week = next;
        }
    }
    Ok(true)
}

/// Whether the entries at two positions have one body.
pub(crate) fn have_one_body<E: Entry>(entries: &[E], one: usize, other: usize) -> bool
    requires one { one < length entries.now }
    requires other { other < length entries.now }
    ensures { IsTrue result ↔ (body_at (map E.terms entries.now) (Some one)
        ≡ body_at (map E.terms entries.now) (Some other)) }
{
    one == other || same_body(&entries[one], &entries[other])
}

/// The position that stands for the body of the entry at `position`: the source of a span with this
/// body, or `position` itself if there is none. Spans that end before the week before `week` don't
/// count; where there are any, the spans rise by their last weeks.
pub(crate) fn source_of<E: Entry>(
    entries: &[E],
    spans: &[Span],
    week: u32,
    position: usize,
) -> usize
    requires position { position < length entries.now }
    requires sources { All (λ s. s.source < length entries.now) spans.now }
    requires order { 0 < week → IsNonDecreasingBy (λ s. s.last_week) spans.now }
    ensures body { body_at (map E.terms entries.now) (Some result)
        ≡ body_at (map E.terms entries.now) (Some position) }
    ensures source { IsSourceAmong (map E.terms entries.now) spans.now week position result }
{
    let mut place = spans.len();
    while 0 < place {
        place -= 1;
        let span = &spans[place];
        if span.last_week + 1 < week {
            break;
        }
        if have_one_body(entries, span.source, position) {
            return span.source;
        }
    }
    position
}
