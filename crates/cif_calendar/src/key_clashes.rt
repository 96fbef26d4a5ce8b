//! The keys that have a clash in a window.
ghost use Rattle.std.specs.Prelude.{◌<◌, All, IfOk, OnOk, length};
ghost use Rattle.cif_calendar.specs.{Clashes.StandForClashes, Keys.ArePositionsOf, Keys.keyed, Steps.Clashes.IsAddedOfKey};
ghost use Rattle.cif_calendar.specs.{Steps.Clashes.IsFaultAdded};

use crate::applies::Window;
use crate::by_key::{count_of_first_key, positions_by_key};
use crate::entry::{Entry, RankedEntry};
use crate::key_calendar::CalendarFault;
use crate::stretch::calendar;
use cif_columns::Day;
use std::alloc::{AllocError, Global};

/// A key with a clash in a window.
#[derive(Clone, Copy, Debug)]
pub struct KeyClash {
    /// The position of an entry with the key.
    pub position: usize,
    /// The first date of the window with a clash of the key's entries.
    pub day: Day,
}

/// The keys of the entries that have a clash in the window, rising, each once.
pub fn clashing_keys<E: RankedEntry>(
    alloc: Global,
    entries: &[E],
    window: &Window,
) -> Result<Vec<KeyClash>, AllocError>
    ensures clashes { IfOk result (λ found. StandForClashes E.Key.cmp (keyed E.key E.terms entries.now)
        window.now.first window.now.last found.items) }
    ensures within { IfOk result (λ found. All (λ clash. clash.position < length entries.now) found.items) }
{
    let positions = positions_by_key(alloc, entries)?;
    let mut found = Vec::new(alloc);
    let mut rest = positions.as_slice();
    while !rest.is_empty() {
        let (members, later) = rest.split_at(count_of_first_key(entries, rest));
        add_clash_of_key(alloc, &mut found, entries, members, window)?;
        rest = later;
    }
    Ok(found)
}

/// Appends the first clash in the window of the key whose entries are at `members`, if it has one.
fn add_clash_of_key<E: Entry>(
    alloc: Global,
    found: &mut Vec<KeyClash>,
    entries: &[E],
    members: &[usize],
    window: &Window,
) -> Result<(), AllocError>
    requires within { All (λ i. i < length entries.now) members.now }
    requires some { 0 < length members.now }
    ensures added { OnOk result ((k : E.Key) →
        ArePositionsOf (keyed E.key E.terms entries.now) k members.now →
        IsAddedOfKey (keyed E.key E.terms entries.now)
        window.now.first window.now.last k found.old.items found.new.items) }
    ensures within { OnOk result (All (λ clash. clash.position < length entries.now) found.old.items →
        All (λ clash. clash.position < length entries.now) found.new.items) }
{
    match calendar(alloc, entries, members, *window) {
        Ok(_calendar) => Ok(()),
        Err(fault) => add_clash(found, members[0], &fault),
    }
}

/// Appends the clash that a calendar found, of the key of the entry at the position.
fn add_clash(
    found: &mut Vec<KeyClash>,
    position: usize,
    fault: &CalendarFault,
) -> Result<(), AllocError>
    ensures { OnOk result (IsFaultAdded position fault.now found.old.items found.new.items) }
{
    match fault {
        CalendarFault::Ambiguous(day) => {
            found.push(KeyClash {
                position,
                day: *day,
            })?;
            Ok(())
        }
        CalendarFault::Memory => Err(AllocError),
    }
}
