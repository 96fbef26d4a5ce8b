//! What only one of a key's two calendars says, day by day.
ghost use Rattle.std.specs.Prelude.{◌≡◌, ◌↔◌, ◌≤◌, IfOk, IsTrue, map};
ghost use Rattle.cif_calendar.specs.{Calendar.body_on, Source.body_at};
ghost use Rattle.cif_canon.specs.Steps.Differences.{AreAlikeBy, HasBodies, HoldsFrom, IsBodied};
ghost use Rattle.cif_canon.specs.Steps.OnlySides.{AreOfOneKey, AreOnlyRuns, AreOnlyWinners, AreRisingRuns, IsOnlyCalendar, IsOnlySource};

use cif_calendar::{Calendar, Entry, Piece, same_body};
use cif_columns::Day;
use cif_weeks::{Form, Run, runs};
use std::alloc::{AllocError, Global};

/// Whether the calendars have the same body, or none, on each day of their window.
pub(crate) fn are_alike<E: Entry>(left: &[E], one: &Calendar, right: &[E], other: &Calendar) -> bool
    requires { AreOfOneKey (map E.terms left.now) one.now (map E.terms right.now) other.now }
    ensures { IsTrue result ↔ HoldsFrom (λ d. body_on (map E.terms left.now) one.now d
        ≡ body_on (map E.terms right.now) other.now d) one.now.first one.now.last }
{
    let window = one.window();
    let mut first = window.first;
    loop {
        let piece = one.piece_on(first);
        let peer = other.piece_on(first);
        let last = piece.last.min(peer.last);
        if !are_pieces_alike(left, piece, right, peer, first, last) {
            return false;
        }
        match last.next_up_to(window.last) {
            Some(next) => first = next,
            None => return true,
        }
    }
}

/// Whether the pieces have the same body, or none, on each of these days.
fn are_pieces_alike<E: Entry>(
    left: &[E],
    piece: &Piece,
    right: &[E],
    peer: &Piece,
    first: Day,
    last: Day,
) -> bool
    requires in_order { first ≤ last }
    requires left { HasBodies (map E.terms left.now) piece.now first last }
    requires right { HasBodies (map E.terms right.now) peer.now first last }
    ensures { IsTrue result ↔ HoldsFrom (AreAlikeBy (map E.terms left.now) piece.now
        (map E.terms right.now) peer.now) first last }
{
    let mut day = first;
    for _ in 0..7u8 {
        let weekday = usize::from(day.weekday());
        if !have_same_body(left, piece.winners[weekday], right, peer.winners[weekday]) {
            return false;
        }
        match day.next_up_to(last) {
            Some(next) => day = next,
            None => return true,
        }
    }
    // After seven days each weekday was seen.
    true
}

/// Whether the entries at two sources have the same body, or there is none at both.
fn have_same_body<E: Entry>(
    left: &[E],
    one: Option<usize>,
    right: &[E],
    other: Option<usize>,
) -> bool
    requires left { IsBodied (map E.terms left.now) one }
    requires right { IsBodied (map E.terms right.now) other }
    ensures { IsTrue result ↔ (body_at (map E.terms left.now) one
        ≡ body_at (map E.terms right.now) other) }
{
    match (one, other) {
        (Some(i), Some(j)) => same_body(&left[i], &right[j]),
        (None, None) => true,
        _ => false,
    }
}

/// The source `one`, or none where the other one has the same body.
fn only_source<E: Entry>(
    entries: &[E],
    one: Option<usize>,
    others: &[E],
    other: Option<usize>,
) -> Option<usize>
    requires left { IsBodied (map E.terms entries.now) one }
    requires right { IsBodied (map E.terms others.now) other }
    ensures { IsOnlySource (map E.terms entries.now) (map E.terms others.now) one other result }
{
    if have_same_body(entries, one, others, other) {
        None
    } else {
        one
    }
}

/// The winners of the piece on these days, but not where the other piece's winner has the same body.
fn only_winners<E: Entry>(
    entries: &[E],
    piece: &Piece,
    others: &[E],
    peer: &Piece,
    first: Day,
    last: Day,
) -> [Option<usize>; 7]
    requires in_order { first ≤ last }
    requires left { HasBodies (map E.terms entries.now) piece.now first last }
    requires right { HasBodies (map E.terms others.now) peer.now first last }
    ensures { AreOnlyWinners (map E.terms entries.now) (map E.terms others.now)
        piece.now peer.now first last result }
{
    let mut winners = [None; 7];
    let mut day = first;
    for _ in 0..7u8 {
        let weekday = usize::from(day.weekday());
        let winner = only_source(
            entries,
            piece.winners[weekday],
            others,
            peer.winners[weekday],
        );
        winners[weekday] = winner;
        match day.next_up_to(last) {
            Some(next) => day = next,
            None => return winners,
        }
    }
    winners
}

/// The calendar `one`, without the dates on which the other one has the same body.
fn only_calendar<E: Entry>(
    alloc: Global,
    entries: &[E],
    one: &Calendar,
    others: &[E],
    other: &Calendar,
) -> Result<Calendar, AllocError>
    requires { AreOfOneKey (map E.terms entries.now) one.now (map E.terms others.now) other.now }
    ensures { IfOk result (IsOnlyCalendar (map E.terms entries.now) one.now
        (map E.terms others.now) other.now) }
{
    let window = one.window();
    let mut pieces = Vec::new(alloc);
    let mut first = window.first;
    loop {
        let piece = one.piece_on(first);
        let peer = other.piece_on(first);
        let last = piece.last.min(peer.last);
        let winners = only_winners(entries, piece, others, peer, first, last);
        pieces.push(Piece {
            first,
            last,
            winners,
        })?;
        match last.next_up_to(window.last) {
            Some(next) => first = next,
            None => return Ok(Calendar::new(window, pieces)),
        }
    }
}

/// The runs of the canonical records, in form 2, of what only the calendar `one` says.
pub(crate) fn only_runs<E: Entry>(
    alloc: Global,
    entries: &[E],
    one: &Calendar,
    others: &[E],
    other: &Calendar,
) -> Result<Vec<Run>, AllocError>
    requires { AreOfOneKey (map E.terms entries.now) one.now (map E.terms others.now) other.now }
    ensures runs { IfOk result (λ runs. AreOnlyRuns (map E.terms entries.now) one.now
        (map E.terms others.now) other.now runs.items) }
    ensures rising { IfOk result (λ runs. AreRisingRuns runs.items) }
{
    let only = only_calendar(alloc, entries, one, others, other)?;
    runs(alloc, entries, &only, Form::Two)
}
