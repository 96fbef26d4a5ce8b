//! The calendar of a list of members: from the stretches of dates on which no member begins or ends, and who leads on them.

ghost use Rattle.std.specs.Prelude.{◌≡◌, ◌<◌, ◌≤◌, ◌+◌, ℕ, length, map, All, IfErr, IfOk};
ghost use Rattle.cif_calendar.specs.{Calendar.IsAnswer, Calendar.IsFault, Pieces.IsPiece, Source.IsChosen, Steps.Standing.AreAlike};
ghost use Rattle.cif_calendar.specs.Steps.Stretches.{AreBehind, AreStretchesOf, IsPart, IsStretch};

use crate::applies::{Dates, Window};
use crate::entry::Entry;
use crate::key_calendar::{Calendar, CalendarFault, Piece};
use crate::standing::{Members, Standing, Standings, look_at, winner_by};
use cif_columns::{Day, DaysRun};
use std::alloc::{AllocError, Global};

/// Of at most so many members all are looked at for each stretch, which takes less time than to halve
/// them.
const MOST_DIRECT: usize = 16;

/// Dates on each of which the same members apply as on the others of its weekday. A stretch begins
/// on the day after the one before it in a list, and the first with the window.
#[derive(Clone, Copy)]
pub(crate) struct Stretch {
    /// The last date.
    pub(crate) last: Day,
    /// Who leads on the dates of each weekday.
    pub(crate) standings: Standings,
}

/// The stretch that begins on `first`, in a window that ends on `last`, of the members in `part`, the
/// first of which has this number.
fn stretch_from<E: Entry>(
    members: &Members<E>,
    alike: &mut [Option<usize>],
    number: usize,
    part: &[usize],
    first: Day,
    last: Day,
) -> Stretch
    requires alike { AreAlike members.now.terms members.now.positions alike.old }
    requires part { IsPart members.now.positions number part.now }
    requires in_order { first ≤ last }
    ensures alike { AreAlike members.now.terms members.now.positions alike.new }
    ensures stretch { IsStretch members.now.terms members.now.positions part.now (last + 1) first result }
{
    let mut end = last;
    let mut standings = [Standing::Nobody; 7];
    for index in 0..part.len() {
        let dates = Dates::of(members.entry(number + index));
        if dates.first <= first {
            if first <= dates.last {
                end = end.min(dates.last);
                let others = [Standing::Leader(number + index); 7];
                look_at(members, alike, &mut standings, dates.days, &others);
            }
        } else if let Some(before) = dates.first.previous() {
            end = end.min(before);
        }
    }
    Stretch {
        last: end,
        standings,
    }
}

/// The stretches that remain after the day, of which only the first may end by then.
fn behind(stretches: &[Stretch], day: Day) -> &[Stretch]
    ensures { AreBehind stretches.now day result.now }
{
    match stretches {
        [one, after @ ..] if one.last <= day => after,
        _ => stretches,
    }
}

/// The stretches of the few members in `part`, the first of which has this number: all of them are
/// looked at for each stretch.
fn stretches_of_few<E: Entry>(
    alloc: Global,
    members: &Members<E>,
    alike: &mut [Option<usize>],
    number: usize,
    part: &[usize],
    window: &Window,
) -> Result<Vec<Stretch>, AllocError>
    requires alike { AreAlike members.now.terms members.now.positions alike.old }
    requires part { IsPart members.now.positions number part.now }
    ensures alike { AreAlike members.now.terms members.now.positions alike.new }
    ensures stretches { IfOk result
        (λ made. AreStretchesOf members.now.terms members.now.positions part.now window.now made.items) }
{
    let mut stretches = Vec::new(alloc);
    let mut first = window.first;
    loop {
        let stretch = stretch_from(members, alike, number, part, first, window.last);
        let next = stretch.last.next_up_to(window.last);
        stretches.push(stretch)?;
        match next {
            Some(next) => first = next,
            None => return Ok(stretches),
        }
    }
}

/// The stretches of the members in `part`, the first of which has this number. Those of many are made
/// from those of both halves.
pub(crate) fn stretches_of<E: Entry>(
    alloc: Global,
    members: &Members<E>,
    alike: &mut [Option<usize>],
    number: usize,
    part: &[usize],
    window: &Window,
) -> Result<Vec<Stretch>, AllocError>
    requires alike { AreAlike members.now.terms members.now.positions alike.old }
    requires part { IsPart members.now.positions number part.now }
    ensures alike { AreAlike members.now.terms members.now.positions alike.new }
    ensures stretches { IfOk result
        (λ made. AreStretchesOf members.now.terms members.now.positions part.now window.now made.items) }
{
    if part.len() <= MOST_DIRECT {
        return stretches_of_few(alloc, members, alike, number, part, window);
    }
    let half = part.len() / 2;
    let (first_half, second_half) = part.split_at(half);
    let lefts = stretches_of(alloc, members, alike, number, first_half, window)?;
    let rights = stretches_of(alloc, members, alike, number + half, second_half, window)?;
    let mut left = lefts.as_slice();
    let mut right = rights.as_slice();
    let mut stretches = Vec::new(alloc);
    let days = DaysRun::of([true; 7]);
    while let ([one, ..], [other, ..]) = (left, right) {
        // Both have the next date, and nothing changes until the sooner of them ends.
        let last = one.last.min(other.last);
        let mut standings = one.standings;
        look_at(members, alike, &mut standings, days, &other.standings);
        left = behind(left, last);
        right = behind(right, last);
        stretches.push(Stretch { last, standings })?;
    }
    Ok(stretches)
}

/// The piece of a stretch that begins on `first`, or its first date with a clash. The first seven
/// dates say of the others.
fn judge<E: Entry>(
    members: &Members<E>,
    first: Day,
    stretch: &Stretch,
) -> Result<Piece, CalendarFault>
    requires stretch { (end : ℕ) × IsStretch members.now.terms members.now.positions members.now.positions end
        first stretch.now }
    ensures piece { IfOk result (λ p. (p.first ≡ first) × (p.last ≡ stretch.now.last)
        × IsPiece members.now.terms members.now.positions p) }
    ensures fault { IfErr result (IsFault (IsChosen members.now.terms members.now.positions) first
        stretch.now.last) }
{
    let mut winners = [None; 7];
    let mut day = first;
    for _ in 0..7u8 {
        let weekday = usize::from(day.weekday());
        winners[weekday] = winner_by(members, stretch.standings[weekday], day)?;
        match day.next_up_to(stretch.last) {
            Some(next) => day = next,
            None => break,
        }
    }
    Ok(Piece {
        first,
        last: stretch.last,
        winners,
    })
}

/// The calendar of the members, from their stretches.
fn calendar_of<E: Entry>(
    alloc: Global,
    members: &Members<E>,
    stretches: &[Stretch],
    window: Window,
) -> Result<Calendar, CalendarFault>
    requires stretches { AreStretchesOf members.now.terms members.now.positions members.now.positions window
        stretches.now }
    ensures { IsAnswer members.now.terms members.now.positions window.first window.last result }
{
    let mut pieces = Vec::new(alloc);
    let mut first = window.first;
    for stretch in stretches {
        let Ok(()) = pieces.push(judge(members, first, stretch)?) else {
            return Err(CalendarFault::Memory);
        };
        first = stretch.last.next_up_to(window.last).unwrap_or(first);
    }
    Ok(Calendar::new(window, pieces))
}

/// What runs on each date of the window, by the entries at `members`.
///
/// `members` are positions in `entries`. Hand in those of one key's records: all members are judged
/// together, whatever their keys. `Ambiguous` comes where two winners of a date of the window have
/// different bodies, and names the first such date; a clash among records that do not win is no
/// fault. `Memory` comes where a request for memory was refused.
///
/// The stretches of many members are made from those of both halves: the time is proportional to
/// their number times its logarithm.
pub fn calendar<E: Entry>(
    alloc: Global,
    entries: &[E],
    members: &[usize],
    window: Window,
) -> Result<Calendar, CalendarFault>
    requires positions { All (λ i. i < length entries.now) members.now }
    ensures { IsAnswer (map E.terms entries.now) members.now window.first window.last result }
{
    let all = Members {
        entries,
        positions: members,
    };
    let mut alike = vec![in alloc; None; members.len()]?;
    let stretches = stretches_of(alloc, &all, alike.as_mut_slice(), 0, members, &window)?;
    calendar_of(alloc, &all, stretches.as_slice(), window)
}
