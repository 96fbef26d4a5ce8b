//! The schedules of a canonical form, by their positions.
ghost use Rattle.std.specs.Prelude.{◌≡◌, ◌↔◌, ◌<◌, IfErr, IfOk, IsTrue, Some, length, slice_get};
ghost use Rattle.cif_extract.specs.ExtractParts.{extract_parts};
ghost use Rattle.cif_canon.specs.{Canon.AreCanonSchedules, Fault.IsCanonFault};

use crate::canonical_form::{CanonSchedule, look_ahead_at, record_of};
use crate::extract_runs::extract_runs;
use cif_extract::{Extract, Fault, Schedule};
use cif_weeks::{Form, Run};
use std::alloc::Global;
use std::marker::Model;

/// The schedules of a canonical form, rising by UID and first date, whose bodies are borrowed from the extract. A
/// clause sees each with its UID.
#[derive(Drop)]
pub struct CanonSchedules<'a> {
    schedules: &'a [Schedule],
    runs: Vec<Run>,
}

impl<'a> Model for CanonSchedules<'a> {
    ghost use Rattle.std.specs.Prelude.{ℕ, All, List};
    ghost use Rattle.std.specs.List.{flat_map};
    ghost use Rattle.cif_calendar.specs.Entries.{schedule_entries};
    ghost use Rattle.cif_canon.specs.Steps.Texts.{HasRecord, of_run};
    ghost use Rattle.cif_extract.specs.Body.{BodyLines};
    ghost use Rattle.cif_weeks.specs.Permanent.{Permanent};

    ghost Value = { List (List ℕ × Permanent BodyLines) };

    ghost view = { λ s. flat_map (of_run (λ e. e) (schedule_entries s.schedules.now)) s.runs.items };

    ghost invariant = { λ s. All (HasRecord (schedule_entries s.schedules.now)) s.runs.items };
}

/// The schedules of the extract's canonical form.
///
/// Ambiguous comes with the first clash of the extract, associations before trains, and Memory if memory ran out.
pub fn canon_schedules(
    alloc: Global,
    extract: &Extract,
    form: Form,
) -> Result<CanonSchedules<'_>, Fault>
    ensures schedules { IfOk result (λ schedules. AreCanonSchedules form (extract_parts extract.now) schedules) }
    ensures fault { IfErr result (IsCanonFault (extract_parts extract.now)) }
{
    let runs = extract_runs(alloc, extract, form)?;
    Ok(CanonSchedules {
        schedules: extract.schedules.as_slice(),
        runs: runs.schedules,
    })
}

impl<'a> CanonSchedules<'a> {
    /// How many there are.
    pub fn len(&self) -> usize
        ensures { result ≡ length self.now }
    {
        self.runs.as_slice().len()
    }

    /// The schedule at this position, counted from 0.
    // If they are taken in their order, those that come next are on their way from memory.
    pub fn at(&self, position: usize) -> CanonSchedule<'_>
        requires { position < length self.now }
        ensures { slice_get self.now position ≡ Some result }
    {
        let runs = self.runs.as_slice();
        look_ahead_at(self.schedules, runs, position);
        record_of(self.schedules, &runs[position])
    }
}
