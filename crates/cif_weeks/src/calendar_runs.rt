//! The canonical runs of a calendar, body by body, from the spans of its pieces.

ghost use Rattle.std.specs.Prelude.{◌≡◌, ◌<◌, ◌+◌, ◌↔◌, ℕ, All, Contains, IfOk, Some, length, map, slice_get, []};
ghost use Rattle.cif_columns.specs.DaysRun.{RunsOn};
ghost use Rattle.cif_calendar.specs.declared.key_calendar.Piece.{Piece};
ghost use Rattle.cif_weeks.specs.{Runs.AreCanonicalRuns, Runs.AreSources, Runs.window_of, Steps.BodyRuns.AreRunsOfSpans};
ghost use Rattle.cif_weeks.specs.{Steps.BodyRuns.HasBody, Steps.Spans.IsAgreed, Steps.Spans.Shows, Window.IsWithin, Window.window_days};
ghost use Rattle.cif_weeks.specs.declared.span.Span.{Span};
ghost use Rattle.cif_weeks.specs.Steps.PieceSpans.{AreBySource, AreSpansBefore, HasBodyOn, IsWinnerOn, named};

use crate::body_runs::{add_body_runs, have_one_body, source_of};
use crate::form::{Form, Joining, Run, sort_by_first};
use crate::span::{Span, no_days};
use cif_calendar::{Calendar, Entry, Piece};
use cif_columns::{DaysRun, Stp};
use std::alloc::{AllocError, Global};

/// The winner on the piece's dates of the weekday. `None` where it has no such date, or nothing runs.
fn winner_on(piece: &Piece, weekday: u8) -> Option<usize>
    requires { weekday < 7 }
    ensures { (i : ℕ) → (result ≡ Some i) ↔ IsWinnerOn piece.now weekday i }
{
    let days_on = (weekday + 7 - piece.first.weekday()) % 7;
    if piece.first.number() + u16::from(days_on) <= piece.last.number() {
        piece.winners[usize::from(weekday)]
    } else {
        None
    }
}

/// The weekdays on which the piece's winners have the body of the entry at `source`.
fn days_of<E: Entry>(entries: &[E], piece: &Piece, source: usize) -> DaysRun
    requires source { source < length entries.now }
    requires winners { (w i : ℕ) → IsWinnerOn piece.now w i → i < length entries.now }
    ensures { (w : ℕ) → RunsOn result w ↔ HasBodyOn (map E.terms entries.now) piece.now source w }
{
    let mut days = no_days();
    for weekday in 0..7u8 {
        if let Some(winner) = winner_on(piece, weekday) {
            if have_one_body(entries, source, winner) {
                days = days.union(DaysRun::only(weekday));
            }
        }
    }
    days
}

/// Adds the spans of the calendar's piece with this number: one for each body, with its weekdays. A
/// body that has a span in the week before or later keeps its source.
fn add_piece<E: Entry>(
    spans: &mut Vec<Span>,
    entries: &[E],
    calendar: &Calendar,
    number: usize,
) -> Result<(), AllocError>
    requires sources { AreSources (map E.terms entries.now) calendar.now }
    requires number { number < length calendar.now.pieces }
    requires spans { (piece : Piece) → slice_get calendar.now.pieces number ≡ Some piece →
        AreSpansBefore (map E.terms entries.now) calendar.now piece.first spans.old.items }
    ensures { IfOk result (λ _. (piece : Piece) → slice_get calendar.now.pieces number ≡ Some piece →
        AreSpansBefore (map E.terms entries.now) calendar.now (piece.last + 1) spans.new.items) }
{
    let piece = &calendar.pieces()[number];
    let mut taken = no_days();
    for weekday in 0..7u8 {
        if let Some(winner) = winner_on(piece, weekday) {
            if !taken.has(weekday) {
                let source = source_of(entries, spans.as_slice(), piece.first.week(), winner);
                let days = days_of(entries, piece, source);
                spans.push(Span::between(piece.first, piece.last, days, Stp::P, source))?;
                taken = taken.union(days);
            }
        }
    }
    Ok(())
}

/// Makes the runs of all bodies, rising by first date. On each date spans of one source lead.
fn add_runs_by_source(
    runs: &mut Vec<Run>,
    spans: &[Span],
    joining: &Joining,
) -> Result<(), AllocError>
    requires none { runs.old.items ≡ [] }
    requires inside { (source n : ℕ) → Shows spans.now source n →
        IsWithin (window_days joining.now.window) n }
    requires bodied { All HasBody spans.now }
    requires level { (s t : Span) → Contains spans.now s → Contains spans.now t → s.letter ≡ t.letter }
    requires agreed { (n : ℕ) → IsAgreed spans.now n }
    requires order { AreBySource spans.now }
    ensures { IfOk result (λ _. AreRunsOfSpans joining.now.form
        (window_days joining.now.window) spans.now runs.new.items) }
{
    let mut left = spans;
    while let [span, ..] = left {
        let source = span.source;
        let count = left.partition_point(|other| other.source <= source);
        let (own, others) = left.split_at(count);
        if !add_body_runs(runs, own, source, joining)? {
            unreachable!()
        }
        left = others;
    }
    sort_by_first(runs);
    Ok(())
}

/// Gives each run the calendar's source of its first date.
fn name_sources(runs: &mut [Run], calendar: &Calendar)
    requires { All (λ run. IsWithin (window_of calendar.now) run.first) runs.old }
    ensures { runs.new ≡ map (named calendar.now) runs.old }
{
    for place in 0..runs.len() {
        let run = runs[place];
        let source = calendar.source_on(run.first).unwrap_or(run.source);
        runs[place] = Run { source, ..run };
    }
}

/// The canonical runs of a calendar in a form, rising by first date.
///
/// Hand in the entries from which the calendar was made. A run's source is the calendar's on the run's
/// first date. The time depends on the runs and pieces of the calendar, not on its dates.
pub fn runs<E: Entry>(
    alloc: Global,
    entries: &[E],
    calendar: &Calendar,
    form: Form,
) -> Result<Vec<Run>, AllocError>
    requires sources { AreSources (map E.terms entries.now) calendar.now }
    ensures { IfOk result (λ runs.
        AreCanonicalRuns form (map E.terms entries.now) calendar.now runs.items) }
{
    let mut runs = Vec::new(alloc);
    let mut spans = Vec::new(alloc);
    for number in 0..calendar.pieces().len() {
        add_piece(&mut spans, entries, calendar, number)?;
    }
    spans.sort_unstable_by_key(|span| (span.source, span.first_week));
    let joining = Joining {
        form,
        window: calendar.window(),
    };
    add_runs_by_source(&mut runs, spans.as_slice(), &joining)?;
    name_sources(runs.as_mut_slice(), calendar);
    Ok(runs)
}
