//! What stands on each date of a window.
ghost use Rattle.std.specs.Prelude.{◌+◌, ◌<◌, ℕ, All, IfOk, length, map};
ghost use Rattle.cif_calendar.specs.{DayState.AreDayStates, DayState.IsDayState, Source.IsChosen, Steps.Standing.IsBelow};
ghost use Rattle.cif_calendar.specs.{Steps.Standing.Stands, Steps.Stretches.AreStretchesOf, Steps.Stretches.IsStretch};

use crate::applies::Window;
use crate::entry::Entry;
use crate::standing::{Members, Standing};
use crate::stretch::{Stretch, stretches_of};
use cif_columns::{Day, Stp};
use std::alloc::{AllocError, Global};

/// What stands on a date, by the records of a key.
#[derive(Clone, Copy)]
pub enum DayState {
    /// No record applies.
    NoneApplies,
    /// Two winners have different bodies.
    Clash,
    /// The letter of the winners, which agree.
    Letter(Stp),
}

/// What stands on each date of the window, by the entries at `members`, in order.
///
/// `members` are positions in `entries`. Hand in those of one key's records: all members are judged
/// together, whatever their keys. The time is that of `calendar`, and of the dates.
pub fn day_states<E: Entry>(
    alloc: Global,
    entries: &[E],
    members: &[usize],
    window: &Window,
) -> Result<Vec<DayState>, AllocError>
    requires { All (λ i. i < length entries.now) members.now }
    ensures { IfOk result (λ states. AreDayStates (IsChosen (map E.terms entries.now) members.now)
        window.now.first (window.now.last + 1) states.items) }
{
    let all = Members {
        entries,
        positions: members,
    };
    let mut alike = vec![in alloc; None; members.len()]?;
    let stretches = stretches_of(alloc, &all, alike.as_mut_slice(), 0, members, window)?;
    states_of(alloc, &all, stretches.as_slice(), window)
}

/// What stands on each date of the window, by the stretches of the members.
fn states_of<E: Entry>(
    alloc: Global,
    members: &Members<E>,
    stretches: &[Stretch],
    window: &Window,
) -> Result<Vec<DayState>, AllocError>
    requires stretches { AreStretchesOf members.now.terms members.now.positions members.now.positions window.now
        stretches.now }
    ensures { IfOk result (λ states. AreDayStates (IsChosen members.now.terms members.now.positions)
        window.now.first (window.now.last + 1) states.items) }
{
    let mut states = Vec::new(alloc);
    let mut first = window.first;
    for stretch in stretches {
        add_states(members, first, stretch, &mut states)?;
        first = stretch.last.next_up_to(window.last).unwrap_or(first);
    }
    Ok(states)
}

/// Appends what stands on each date of a stretch, which begins on `first`.
fn add_states<E: Entry>(
    members: &Members<E>,
    first: Day,
    stretch: &Stretch,
    states: &mut Vec<DayState>,
) -> Result<(), AllocError>
    requires stretch { (end : ℕ) × IsStretch members.now.terms members.now.positions members.now.positions end
        first stretch.now }
    ensures { IfOk result (λ _. (from : ℕ)
        → AreDayStates (IsChosen members.now.terms members.now.positions) from first states.old.items
        → AreDayStates (IsChosen members.now.terms members.now.positions) from (stretch.now.last + 1)
        states.new.items) }
{
    let mut day = first;
    loop {
        let weekday = usize::from(day.weekday());
        states.push(state_by(members, stretch.standings[weekday]))?;
        match day.next_up_to(stretch.last) {
            Some(next) => day = next,
            None => return Ok(()),
        }
    }
}

/// What stands on a date on which this standing is that of all members.
fn state_by<E: Entry>(members: &Members<E>, standing: Standing) -> DayState
    requires leader { IsBelow (length members.now.positions) standing }
    ensures { (day : ℕ) → Stands members.now.terms members.now.positions
        (IsChosen members.now.terms members.now.positions) day standing
        → IsDayState (IsChosen members.now.terms members.now.positions) day result }
{
    match standing {
        Standing::Nobody => DayState::NoneApplies,
        Standing::Leader(number) => DayState::Letter(members.entry(number).letter()),
        Standing::Disputed(_) => DayState::Clash,
    }
}
