//! What only one of two extracts says.
ghost use Rattle.std.specs.Prelude.{◌≡◌, ◌↔◌, ◌<◌, IfErr, IfOk, IsTrue, OnOk, length, map};
ghost use Rattle.cif_calendar.specs.Keys.{keyed};
ghost use Rattle.cif_extract.specs.ExtractParts.{extract_parts};
ghost use Rattle.cif_canon.specs.{Asked.header_window, Comparison.IsCompareFault, Differences.AreDifferences, Differences.AreNone};
ghost use Rattle.cif_canon.specs.{Differences.TurnLeftIntoRight, Meaning.Agree, Steps.Differences.AreComparable};
ghost use Rattle.cif_canon.specs.Steps.OnlySides.{AreAppendedRuns, AreDifferentRuns, AreKeyDifferences, AreOfOneKey, AreRisingRuns};
ghost use Rattle.cif_canon.specs.{Steps.OnlySides.IsFirstSide, declared.differing.Extent.TheVariants.FirstKey};
ghost use Rattle.cif_weeks.specs.Window.{window_days};

use crate::Differences;
use crate::extract_runs::extract_runs;
use crate::listed_differences::{Side, Sided, push_next};
use crate::only_days::{are_alike, only_runs};
use crate::tiplocs::different_tiplocs;
use cif_calendar::{
    Calendar, CalendarFault, Entry, RankedEntry, Window, calendar, first_key, positions_by_key,
};
use cif_extract::{Extract, Fault};
use cif_weeks::{Form, Run};
use std::alloc::{AllocError, Global};

/// What only one of two extracts with one window says: its locations, and the canonical records, in
/// form 2, of what holds and what runs by it alone. The other columns of their headers don't count.
///
/// The faults are those of `compare`, in its order.
pub fn differences<'a>(
    alloc: Global,
    left: &'a Extract,
    right: &'a Extract,
) -> Result<Differences<'a>, Fault>
    ensures ok { IfOk result
        (AreDifferences (extract_parts left.now) (extract_parts right.now)) }
    // There is none exactly where `compare` answers Same.
    ensures same { IfOk result (λ found. AreNone found
        ↔ Agree (header_window left.now.header) (extract_parts left.now) (extract_parts right.now)) }
    ensures turn { IfOk result
        (TurnLeftIntoRight (extract_parts left.now) (extract_parts right.now)) }
    ensures fault { IfErr result
        (IsCompareFault (extract_parts left.now) (extract_parts right.now)) }
{
    check_one_window(left, right)?;
    let window = Window::of(&left.header);
    let tiplocs = different_tiplocs(alloc, left.tiplocs.as_slice(), right.tiplocs.as_slice())?;
    let Ok(associations) = different_records(
        alloc,
        left.associations.as_slice(),
        right.associations.as_slice(),
        &window,
        Extent::AllKeys,
    ) else {
        return Err(fault_of_both(alloc, left, right));
    };
    let Ok(schedules) = different_records(
        alloc,
        left.schedules.as_slice(),
        right.schedules.as_slice(),
        &window,
        Extent::AllKeys,
    ) else {
        return Err(fault_of_both(alloc, left, right));
    };
    Ok(Differences::of(left, right, tiplocs, associations, schedules))
}

/// Whether two extracts have one window. Otherwise the fault is that of `compare`.
pub(crate) fn check_one_window(left: &Extract, right: &Extract) -> Result<(), Fault>
    ensures ok { OnOk result (header_window left.now.header ≡ header_window right.now.header) }
    ensures fault { IfErr result
        (IsCompareFault (extract_parts left.now) (extract_parts right.now)) }
{
    if left.header.first != right.header.first || left.header.last != right.header.last {
        return Err(Fault::WindowsDiffer);
    }
    Ok(())
}

/// Whether two extracts can be compared: they have one window, and neither has a clash in it.
/// Otherwise the fault is that of `compare`.
pub(crate) fn check_comparable(alloc: Global, left: &Extract, right: &Extract) -> Result<(), Fault>
    ensures ok { OnOk result (AreComparable (extract_parts left.now) (extract_parts right.now)) }
    ensures fault { IfErr result
        (IsCompareFault (extract_parts left.now) (extract_parts right.now)) }
{
    check_one_window(left, right)?;
    // A clash is found where the runs are made.
    extract_runs(alloc, left, Form::Two)?;
    extract_runs(alloc, right, Form::Two)?;
    Ok(())
}

/// Why two extracts with one window weren't compared to the end: their first clash, or memory ran out.
pub(crate) fn fault_of_both(alloc: Global, left: &Extract, right: &Extract) -> Fault
    requires { header_window left.now.header ≡ header_window right.now.header }
    ensures { IsCompareFault (extract_parts left.now) (extract_parts right.now) result }
{
    match check_comparable(alloc, left, right) {
        Ok(()) => Fault::Memory,
        Err(fault) => fault,
    }
}

/// The side of the run that comes first by its first date, and the left one where the dates are the
/// same; none where there is no run.
fn first_side(left: &[Run], right: &[Run]) -> Option<Side>
    ensures { IsFirstSide left.now right.now result }
{
    match (left, right) {
        ([], []) => None,
        ([], _) => Some(Side::Right),
        (_, []) => Some(Side::Left),
        ([one, ..], [other, ..]) => {
            if one.first <= other.first {
                Some(Side::Left)
            } else {
                Some(Side::Right)
            }
        }
    }
}

/// Appends the runs of both sides, which rise by first date, in that order; of two with one first
/// date the left one is first.
fn push_merged(found: &mut Vec<Sided<Run>>, left: &[Run], right: &[Run]) -> Result<(), AllocError>
    requires left { AreRisingRuns left.now }
    requires right { AreRisingRuns right.now }
    ensures { OnOk result
        (AreAppendedRuns left.now right.now found.old.items found.new.items) }
{
    let mut lefts = left;
    let mut rights = right;
    while let Some(side) = first_side(lefts, rights) {
        let rest = push_next(found, side, lefts, rights)?;
        lefts = rest.0;
        rights = rest.1;
    }
    Ok(())
}

/// Appends the runs of what only one of a key's two calendars says.
fn push_differences<E: Entry>(
    alloc: Global,
    found: &mut Vec<Sided<Run>>,
    left: &[E],
    one: &Calendar,
    right: &[E],
    other: &Calendar,
) -> Result<(), AllocError>
    requires { AreOfOneKey (map E.terms left.now) one.now (map E.terms right.now) other.now }
    ensures { OnOk result (AreKeyDifferences (map E.terms left.now) one.now
        (map E.terms right.now) other.now found.old.items found.new.items) }
{
    // Most keys have no difference, and need no further lists.
    if are_alike(left, one, right, other) {
        return Ok(());
    }
    let lefts = only_runs(alloc, left, one, right, other)?;
    let rights = only_runs(alloc, right, other, left, one)?;
    push_merged(found, lefts.as_slice(), rights.as_slice())
}

/// How far two lists are compared.
#[derive(Clone, Copy)]
pub(crate) enum Extent {
    /// Up to the first key of which they say different things.
    FirstKey,
    /// To the end.
    AllKeys,
}

/// Whether the runs are those of enough keys.
fn is_enough(extent: Extent, runs: &[Sided<Run>]) -> bool
    ensures { IsTrue result ↔ ((extent ≡ FirstKey) × (0 < length runs.now)) }
{
    match extent {
        Extent::FirstKey => !runs.is_empty(),
        Extent::AllKeys => false,
    }
}

/// The runs of the canonical records, in form 2, of what only one of the two lists says, by key and
/// then first date, left before right: those of all keys, or of the first that has any. The source of
/// a run is the position of an entry of its side, with the record's key and body. Ambiguous comes where
/// a key of either list has a clash in the window.
pub(crate) fn different_records<E: RankedEntry>(
    alloc: Global,
    left: &[E],
    right: &[E],
    window: &Window,
    extent: Extent,
) -> Result<Vec<Sided<Run>>, CalendarFault>
    ensures { IfOk result (λ runs. AreDifferentRuns E.Key.cmp
        (window_days window.now)
        (keyed E.key E.terms left.now) (keyed E.key E.terms right.now) extent runs.items) }
{
    let left_positions = positions_by_key(alloc, left)?;
    let right_positions = positions_by_key(alloc, right)?;
    let mut left_rest = left_positions.as_slice();
    let mut right_rest = right_positions.as_slice();
    let mut found = Vec::new(alloc);
    while let Some(first) = first_key(left, left_rest, right, right_rest) {
        let one = calendar(alloc, left, first.left, *window)?;
        let other = calendar(alloc, right, first.right, *window)?;
        push_differences(alloc, &mut found, left, &one, right, &other)?;
        if is_enough(extent, found.as_slice()) {
            return Ok(found);
        }
        left_rest = first.left_later;
        right_rest = first.right_later;
    }
    Ok(found)
}
