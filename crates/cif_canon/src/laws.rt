//! The laws that accepted inputs have canonical bytes, that these are unique, and that differences are
//! listed by pairs.
ghost use Rattle.std.specs.{Cmp.Lexicographic.slice_cmp, Ordering.nat_cmp, Prelude.List, Prelude.ℕ, Prelude.◌≡◌};
ghost use Rattle.cif_columns.specs.Source.{Unread};
ghost use Rattle.cif_extract.specs.{ExtractParts.ExtractParts, declared.fault.Fault.Fault};
ghost use Rattle.cif_records.specs.AssocKey.{key_cmp};
ghost use Rattle.cif_weeks.specs.declared.form.Form.{Form};
ghost use Rattle.cif_canon.specs.{Accepted.IsAccepted, Accepted.IsAcceptedWithin, Canonical.IsCanonicalOf, Differences.AreDifferences};
ghost use Rattle.cif_canon.specs.{Differences.DifferencesParts, Fault.IsDeviceOrMemory, Fault.IsNormaliseFault};
ghost use Rattle.cif_canon.specs.{NormalForm.IsNormalFormAgain, NormalForm.IsReachedFromForms, NormalForm.IsUnique, Pairs.AreByPairs};
ghost use Rattle.cif_canon.specs.{Pairs.by_pairs, declared.asked.Asked.Asked};

/// Canonical bytes of one form are equal exactly if what they are made of says the same; they are
/// their own canonical form, and that of each form's canonical bytes of the same.
pub fn canonical_bytes_are_unique()
    // An input is accepted as one extract for a window that is asked for.
    ensures accepted { (asked : Asked) (input : List ℕ) (x y : ExtractParts)
        → IsAccepted asked x input → IsAccepted asked y input → x ≡ y }
    ensures unique { (form : Form) (x : ExtractParts) (bytes : List ℕ)
        → IsCanonicalOf form x bytes → IsUnique form x bytes }
    ensures again { (form : Form) (asked : Asked) (input : List ℕ) (x : ExtractParts)
        (bytes : List ℕ) → IsAccepted asked x input → IsCanonicalOf form x bytes
        → IsNormalFormAgain form asked bytes bytes }
    ensures forms { (form : Form) (asked : Asked) (input : List ℕ) (x : ExtractParts)
        (bytes : List ℕ) → IsAccepted asked x input → IsCanonicalOf form x bytes
        → IsReachedFromForms form asked x bytes }
{}

/// An input that is accepted has its canonical bytes: no fault of `normalise`, `check` or `read_canon`
/// comes of it, but one of a device, or Memory.
pub fn accepted_inputs_have_canonical_bytes()
    ensures { (max : ℕ) (asked : Asked) (input : List ℕ) (after : Unread)
        (x : ExtractParts) (fault : Fault) → IsAcceptedWithin max asked x input
        → IsNormaliseFault max asked input after fault → IsDeviceOrMemory fault }
{}

/// The records in which two extracts differ are listed by pairs: each two that are a pair as one.
pub fn differences_are_by_pairs()
    ensures associations { (x y : ExtractParts) (d : DifferencesParts) → AreDifferences x y d
        → AreByPairs d.associations (by_pairs key_cmp d.associations) }
    ensures schedules { (x y : ExtractParts) (d : DifferencesParts) → AreDifferences x y d
        → AreByPairs d.schedules (by_pairs (slice_cmp nat_cmp) d.schedules) }
{}
