//! The canonical runs of few records, body by body and without a calendar.

ghost use Rattle.std.specs.Prelude.{◌≡◌, ◌≢◌, ◌<◌, ◌⊎◌, [], All, IfOk, MatchBool, ℕ, length, map};
ghost use Rattle.std.specs.List.Sorted.{IsNonDecreasingBy};
ghost use Rattle.cif_weeks.specs.{MemberRuns.AreRunsOfMembers, MemberRuns.HaveClash, Steps.BodyRuns.AreRunsOfSpans, Steps.BodyRuns.HasBody};
ghost use Rattle.cif_weeks.specs.{Steps.BodyRuns.HasSource, Steps.Spans.IsDisputed, Steps.Spans.Shows, Window.IsWithin, Window.window_days};

use crate::body_runs::{add_body_runs, source_of};
use crate::form::{Form, Joining, Run, sort_by_first};
use crate::span::Span;
use arrayvec::ArrayVec;
use cif_calendar::{Entry, Window};
use cif_columns::Stp;
use std::alloc::AllocError;

/// The most records for which runs are made without a calendar.
const FEW: usize = 8;

/// Whether nothing is left to be added for a span: it has no body, or a span before it has the same.
fn is_added(before: &[Span], span: &Span) -> bool
    ensures { MatchBool result (HasBody span.now → HasSource before.now span.now.source)
        (HasBody span.now × All (λ s. HasBody s → s.source ≢ span.now.source) before.now) }
{
    if span.letter == Stp::C {
        return true;
    }
    for other in before {
        if other.letter != Stp::C && other.source == span.source {
            return true;
        }
    }
    false
}

/// Makes the runs of all bodies, rising by first date. The spans are in the order of their first weeks.
/// `false` if two bodies lead on one date.
fn add_runs_of_spans(
    runs: &mut Vec<Run>,
    spans: &[Span],
    joining: &Joining,
) -> Result<bool, AllocError>
    requires none { runs.old.items ≡ [] }
    requires inside { (source n : ℕ) → Shows spans.now source n →
        IsWithin (window_days joining.now.window) n }
    requires order { IsNonDecreasingBy (λ s. s.first_week) spans.now }
    ensures { IfOk result (λ made. MatchBool made
        (AreRunsOfSpans joining.now.form (window_days joining.now.window)
        spans.now runs.new.items)
        ((n : ℕ) × IsDisputed spans.now n)) }
{
    for (number, span) in spans.iter().enumerate() {
        if is_added(&spans[..number], span) {
            continue;
        }
        if !add_body_runs(runs, spans, span.source, joining)? {
            return Ok(false);
        }
    }
    sort_by_first(runs);
    Ok(true)
}

/// Makes the runs of the canonical records that say what runs by the entries at `members`, rising by
/// first date, in place of those that the list has. `false` if there are more than eight members, or
/// two winners of a date of the window have different bodies: then make a calendar.
///
/// A run's source is the position of a member with its body. `runs` of the members' calendar gives
/// runs with the same dates, weekdays and bodies.
pub fn runs_of_few<E: Entry>(
    runs: &mut Vec<Run>,
    entries: &[E],
    members: &[usize],
    window: &Window,
    form: Form,
) -> Result<bool, AllocError>
    requires within { All (λ i. i < length entries.now) members.now }
    ensures { IfOk result (λ made. MatchBool made
        (AreRunsOfMembers form (map E.terms entries.now) members.now
        (window_days window.now) runs.new.items)
        ((8 < length members.now) ⊎ HaveClash (map E.terms entries.now) members.now
        (window_days window.now))) }
{
    if FEW < members.len() {
        return Ok(false);
    }
    runs.clear();
    let mut spans = ArrayVec::<Span, FEW>::new();
    for position in members {
        let source = source_of(entries, spans.as_slice(), 0, *position);
        if let Some(span) = Span::of(&entries[*position], source, window) {
            spans.push(span);
        }
    }
    spans
        .as_mut_slice()
        .sort_unstable_by_key(|span| span.first_week);
    let joining = Joining {
        form,
        window: *window,
    };
    add_runs_of_spans(runs, spans.as_slice(), &joining)
}
