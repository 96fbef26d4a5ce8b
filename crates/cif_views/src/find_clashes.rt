//! Finding all clashes of an extract.
ghost use Rattle.std.specs.Prelude.{◌≡◌, ◌↔◌, [], IfErr, IfOk, Some, slice_get};
ghost use Rattle.cif_calendar.specs.{AllClashes.AreAllClashes, Keys.keyed};
ghost use Rattle.cif_extract.specs.{ExtractParts.extract_parts, declared.fault.Clash.Clash, declared.fault.Fault.TheVariants.Memory};
ghost use Rattle.cif_canon.specs.{Accepted.IsClearExtract, Fault.IsFirstClashIn};
ghost use Rattle.cif_views.specs.Steps.Clashes.{AreAdded};

use crate::Clashes;
use cif_calendar::{NamedEntry, RankedEntry, Window, add_named, clashing_keys};
use cif_extract::{Clash, Extract, Fault};
use std::alloc::{AllocError, Global};

/// All clashes of the extract in its window: each key with one, and its first date. There are none
/// where `canon` takes the extract, and else the first is the one that it names.
pub fn clashes(alloc: Global, extract: &Extract) -> Result<Clashes, Fault>
    ensures all { IfOk result (AreAllClashes (extract_parts extract.now)) }
    ensures clear { IfOk result (λ found.
        (found ≡ []) ↔ IsClearExtract (extract_parts extract.now)) }
    ensures first { IfOk result (λ found. (clash : Clash) →
        (slice_get found 0 ≡ Some clash) ↔ IsFirstClashIn (extract_parts extract.now) clash) }
    ensures fault { IfErr result (λ fault. fault ≡ Memory) }
{
    let window = Window::of(&extract.header);
    let none = Vec::new(alloc);
    let some = add_clashes(alloc, none, extract.associations.as_slice(), &window)?;
    let all = add_clashes(alloc, some, extract.schedules.as_slice(), &window)?;
    Ok(Clashes::of(all))
}

/// Appends the clashes of the entries in the window: for each key that has one its first, rising by
/// key.
fn add_clashes<E: NamedEntry + RankedEntry>(
    alloc: Global,
    known: Vec<Clash>,
    entries: &[E],
    window: &Window,
) -> Result<Vec<Clash>, AllocError>
    ensures { IfOk result (λ all. AreAdded E.Key.cmp E.clash_of (keyed E.key E.terms entries.now)
        window.now.first window.now.last known.items all.items) }
{
    let found = clashing_keys(alloc, entries, window)?;
    let mut all = known;
    add_named(entries, found.as_slice(), &mut all)?;
    Ok(all)
}
