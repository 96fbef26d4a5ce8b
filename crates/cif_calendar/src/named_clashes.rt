//! Clashes by the names of their keys.
ghost use Rattle.std.specs.Prelude.{◌≡◌, ◌<◌, ◌++◌, ℕ, All, IfOk, List, Some, length, map};
ghost use Rattle.cif_calendar.specs.{Clashes.key_and_day, Keys.keyed};

use crate::entry::Entry;
use crate::key_clashes::KeyClash;
use cif_columns::Day;
use cif_extract::{Clash, Schedule};
use cif_records::Association;
use std::alloc::AllocError;

/// An entry whose clashes have names.
pub trait NamedEntry: Entry {
    ghost use Rattle.std.specs.Prelude.{ℕ};
    ghost use Rattle.cif_extract.specs.declared.fault.Clash.{Clash};

    // The clash of a key on a day.
    ghost clash_of: { Self.Key → ℕ → Clash };

    /// The clash of its key on a day.
    fn clash_on(&self, day: Day) -> Clash
        ensures { result ≡ clash_of (Self.key self.now) day };
}

impl NamedEntry for Association {
    ghost use Rattle.cif_extract.specs.declared.fault.Clash.TheVariants as clash;

    ghost clash_of = { clash.Association };

    fn clash_on(&self, day: Day) -> Clash {
        Clash::Association(self.key.copy(), day)
    }
}

impl NamedEntry for Schedule {
    ghost use Rattle.cif_extract.specs.declared.fault.Clash.TheVariants as clash;

    ghost clash_of = { clash.Train };

    fn clash_on(&self, day: Day) -> Clash {
        Clash::Train(self.uid, day)
    }
}

/// Appends the clashes that were found among the entries, each by its name.
pub fn add_named<E: NamedEntry>(
    entries: &[E],
    found: &[KeyClash],
    clashes: &mut Vec<Clash>,
) -> Result<(), AllocError>
    requires { All (λ clash. clash.position < length entries.now) found.now }
    ensures { IfOk result (λ _. (keys : List (E.Key × ℕ))
        → map (key_and_day (keyed E.key E.terms entries.now)) found.now ≡ map Some keys
        → clashes.new.items ≡ clashes.old.items ++ map (λ (k : E.Key × ℕ). E.clash_of k.0 k.1) keys) }
{
    for clash in found {
        clashes.push(entries[clash.position].clash_on(clash.day))?;
    }
    Ok(())
}
