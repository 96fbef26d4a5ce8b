//! The dates of a window on which winners differ.
ghost use Rattle.std.specs.Prelude.{◌≡◌, ◌<◌, ◌≤◌, ◌+◌, ℕ, All, IfOk, IsTrue, length, map, slice_index_or};
ghost use Rattle.cif_calendar.specs.{ClashDates.AreClashDates, Source.IsChosen};
ghost use Rattle.cif_calendar.specs.Steps.Stretches.{AddsIfDisputed, AreStretchesOf, IsStretch};
ghost use Rattle.cif_calendar.specs.declared.standing.Standing.TheVariants.{Disputed, Nobody};

use crate::applies::Window;
use crate::entry::Entry;
use crate::standing::{Members, Standing, Standings};
use crate::stretch::{Stretch, stretches_of};
use cif_columns::Day;
use std::alloc::{AllocError, Global};

/// The dates of the window on which two winners have different bodies, by the entries at `members`, rising.
///
/// `members` are positions in `entries`. Hand in those of one key's records: all members are judged
/// together, whatever their keys. The time is that of `calendar`, and of the dates that are found.
pub fn clash_dates<E: Entry>(
    alloc: Global,
    entries: &[E],
    members: &[usize],
    window: &Window,
) -> Result<Vec<Day>, AllocError>
    requires { All (λ i. i < length entries.now) members.now }
    ensures { IfOk result (λ days. AreClashDates (IsChosen (map E.terms entries.now) members.now)
        window.now.first (window.now.last + 1) days.items) }
{
    if members.len() < 2 {
        return Ok(Vec::new(alloc));
    }
    let all = Members {
        entries,
        positions: members,
    };
    let mut alike = vec![in alloc; None; members.len()]?;
    let stretches = stretches_of(alloc, &all, alike.as_mut_slice(), 0, members, window)?;
    dates_of(alloc, &all, stretches.as_slice(), window)
}

/// The dates of the window with a clash, by the stretches of the members.
fn dates_of<E: Entry>(
    alloc: Global,
    members: &Members<E>,
    stretches: &[Stretch],
    window: &Window,
) -> Result<Vec<Day>, AllocError>
    requires stretches { AreStretchesOf members.now.terms members.now.positions members.now.positions window.now
        stretches.now }
    ensures { IfOk result (λ days. AreClashDates (IsChosen members.now.terms members.now.positions)
        window.now.first (window.now.last + 1) days.items) }
{
    let mut days = Vec::new(alloc);
    let mut first = window.first;
    for stretch in stretches {
        add_dates(members, first, stretch, &mut days)?;
        first = stretch.last.next_up_to(window.last).unwrap_or(first);
    }
    Ok(days)
}

/// Appends the dates with a clash of a stretch, which begins on `first`.
fn add_dates<E: Entry>(
    _members: &Members<E>,
    first: Day,
    stretch: &Stretch,
    days: &mut Vec<Day>,
) -> Result<(), AllocError>
    requires stretch { (end : ℕ) × IsStretch _members.now.terms _members.now.positions
        _members.now.positions end first stretch.now }
    ensures { IfOk result (λ _. (from : ℕ) → from ≤ first
        → AreClashDates (IsChosen _members.now.terms _members.now.positions) from first days.old.items
        → AreClashDates (IsChosen _members.now.terms _members.now.positions) from (stretch.now.last + 1)
        days.new.items) }
{
    if !has_dispute(&stretch.standings) {
        return Ok(());
    }
    let mut day = first;
    loop {
        add_if_disputed(stretch.standings[usize::from(day.weekday())], day, days)?;
        match day.next_up_to(stretch.last) {
            Some(next) => day = next,
            None => return Ok(()),
        }
    }
}

/// Appends the date, if two winners differ on it.
fn add_if_disputed(standing: Standing, day: Day, days: &mut Vec<Day>) -> Result<(), AllocError>
    ensures { IfOk result (λ _. AddsIfDisputed standing day days.old.items days.new.items) }
{
    match standing {
        Standing::Disputed(_) => days.push(day)?,
        Standing::Leader(_) | Standing::Nobody => {}
    }
    Ok(())
}

/// Whether two winners differ on one of the weekdays.
fn has_dispute(standings: &Standings) -> bool
    ensures { (k w : ℕ) → w < 7 → slice_index_or standings.now w Nobody ≡ Disputed k → IsTrue result }
{
    for standing in standings {
        if let Standing::Disputed(_) = standing {
            return true;
        }
    }
    false
}
