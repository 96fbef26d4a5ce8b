//! The canonical records of an extract, key by key.
ghost use Rattle.std.specs.Prelude.{◌≡◌, ◌<◌, IfErr, IfOk, OnOk, All, length};
ghost use Rattle.std.specs.{Cmp.Lexicographic.slice_cmp, Ordering.nat_cmp};
ghost use Rattle.cif_calendar.specs.{Entries.association_entries, Entries.schedule_entries, Keys.ArePositionsOf, Keys.keyed};
ghost use Rattle.cif_extract.specs.ExtractParts.{extract_parts};
ghost use Rattle.cif_records.specs.AssocKey.{key_cmp};
ghost use Rattle.cif_canon.specs.{Asked.header_window, Fault.IsCanonFault};
ghost use Rattle.cif_canon.specs.Steps.Records.{AreCanonicalRecords, IsRecordsFault, AreRunsOfKey, IsKeyFault, extract_fault};
ghost use Rattle.cif_weeks.specs.Window.{window_days};

use cif_calendar::{
    CalendarFault, Entry, NamedEntry, RankedEntry, Window, calendar, count_of_first_key,
    positions_by_key,
};
use cif_columns::Day;
use cif_extract::{Extract, Fault};
use cif_weeks::{Form, Run, runs, runs_of_few};
use std::alloc::Global;

/// The runs of an extract's canonical records in a form, by kind, each rising by key and first date.
#[derive(Drop)]
pub(crate) struct ExtractRuns {
    pub(crate) associations: Vec<Run>,
    pub(crate) schedules: Vec<Run>,
}

/// The runs of the extract's canonical records, or why it has none: Ambiguous with its first clash,
/// associations before trains, by key and then date; Memory where memory ran out.
pub(crate) fn extract_runs(
    alloc: Global,
    extract: &Extract,
    form: Form,
) -> Result<ExtractRuns, Fault>
    ensures associations { IfOk result (λ runs. AreCanonicalRecords key_cmp form
        (header_window extract.now.header) (association_entries extract.now.associations.items)
        runs.associations.items) }
    ensures schedules { IfOk result (λ runs. AreCanonicalRecords (slice_cmp nat_cmp) form
        (header_window extract.now.header) (schedule_entries extract.now.schedules.items)
        runs.schedules.items) }
    ensures fault { IfErr result (IsCanonFault (extract_parts extract.now)) }
{
    let window = Window::of(&extract.header);
    let associations = runs_of_entries(alloc, extract.associations.as_slice(), &window, form)?;
    let schedules = runs_of_entries(alloc, extract.schedules.as_slice(), &window, form)?;
    Ok(ExtractRuns {
        associations,
        schedules,
    })
}

/// A fault of the calendar of the entry's key, as one of the extract.
fn fault_of<E: NamedEntry>(fault: CalendarFault, entry: &E) -> Fault
    ensures { result ≡ extract_fault (E.clash_of (E.key entry.now)) fault }
{
    match fault {
        CalendarFault::Ambiguous(day) => Fault::Ambiguous(entry.clash_on(day)),
        CalendarFault::Memory => Fault::Memory,
    }
}

/// Makes the runs of one key's canonical records, in place of those that the list has. The key's
/// entries are at `members`.
fn add_runs_of_key<E: NamedEntry>(
    alloc: Global,
    made: &mut Vec<Run>,
    entries: &[E],
    members: &[usize],
    window: &Window,
    form: Form,
) -> Result<(), Fault>
    requires within { All (λ i. i < length entries.now) members.now }
    requires some { 0 < length members.now }
    ensures runs { OnOk result ((k : E.Key) →
        ArePositionsOf (keyed E.key E.terms entries.now) k members.now →
        AreRunsOfKey form (window_days window.now)
        (keyed E.key E.terms entries.now) k made.new.items) }
    ensures fault { IfErr result (λ fault. (k : E.Key) →
        ArePositionsOf (keyed E.key E.terms entries.now) k members.now →
        IsKeyFault E.clash_of (window_days window.now)
        (keyed E.key E.terms entries.now) k fault) }
{
    if runs_of_few(made, entries, members, window, form)? {
        return Ok(());
    }
    let calendar = match calendar(alloc, entries, members, *window) {
        Ok(calendar) => calendar,
        Err(fault) => return Err(fault_of(fault, &entries[members[0]])),
    };
    *made = runs(alloc, entries, &calendar, form)?;
    Ok(())
}

/// How many entries or records are looked at before they are worked on. In the order of their keys
/// they stand far from one another; so memory is waited for once, and not for each of them.
pub(crate) const AT_ONCE: usize = 32;

/// Looks at the entries at the positions: each first date is one, but to know it, the entry has to
/// come from memory.
fn look_ahead<E: Entry>(entries: &[E], positions: &[usize])
    requires within { All (λ i. i < length entries.now) positions.now }
{
    for i in positions {
        match Day::from_number(entries[*i].first().number()) {
            Some(_) => {}
            None => unreachable!(),
        }
    }
}

/// The runs of the canonical records of the entries in a form: for each key, in order, those that
/// say what its entries say of the window, rising by first date. The source of a run is the
/// position of an entry with the record's key and body.
///
/// Ambiguous comes only where on some date two winners of a key have different bodies, and names the
/// first such key and its first such date; Memory where memory ran out.
pub(crate) fn runs_of_entries<E: NamedEntry + RankedEntry>(
    alloc: Global,
    entries: &[E],
    window: &Window,
    form: Form,
) -> Result<Vec<Run>, Fault>
    ensures records { IfOk result (λ runs.
        AreCanonicalRecords E.Key.cmp form (window_days window.now)
        (keyed E.key E.terms entries.now) runs.items) }
    ensures fault { IfErr result (IsRecordsFault E.Key.cmp E.clash_of (keyed E.key E.terms entries.now)
        (window_days window.now)) }
{
    let positions = positions_by_key(alloc, entries)?;
    let mut all = Vec::new(alloc);
    // The runs of one key, in the memory of those of the key before it.
    let mut runs = Vec::new(alloc);
    let mut rest = positions.as_slice();
    let mut looked_at = 0;
    while !rest.is_empty() {
        if looked_at == 0 {
            looked_at = rest.len().min(AT_ONCE);
            look_ahead(entries, &rest[..looked_at]);
        }
        let (members, later) = rest.split_at(count_of_first_key(entries, rest));
        looked_at = looked_at.saturating_sub(members.len());
        add_runs_of_key(alloc, &mut runs, entries, members, window, form)?;
        all.extend_from_slice(runs.as_slice())?;
        rest = later;
    }
    Ok(all)
}
