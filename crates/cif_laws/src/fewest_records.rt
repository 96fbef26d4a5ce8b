//! Laws of form 3: it has the fewest records, and a record that is exact stands alone in it.
ghost use Rattle.std.specs.Prelude.{◌≡◌, ◌≤◌, ◌↔◌, ℕ, Bool, List, Some};
ghost use Rattle.cif_calendar.specs.{Entries.association_entries, Entries.schedule_entries, Keys.of_key, Terms.Terms};
ghost use Rattle.cif_canon.specs.{Asked.header_window, Canonical.IsCanonicalOf, Meaning.SameMeaning};
ghost use Rattle.cif_extract.specs.{Body.BodyLines, ExtractParts.ExtractParts};
ghost use Rattle.cif_laws.specs.Fewest.{DontOverlap, HaveNoMore, IsOnlyRecord, RunsWithin};
ghost use Rattle.cif_records.specs.declared.{association.AssocBody.AssocBody, association.AssocKey.AssocKey};
ghost use Rattle.cif_weeks.specs.{Exact.IsExact, Permanent.terms_of, declared.form.Form.TheVariants.Three};

/// No extract of permanent records that says the same, and in which the records of one key and body don't overlap, has
/// fewer records of a key and a body than form 3.
pub fn form_three_has_the_fewest_records()
    ensures associations { (x y : ExtractParts) (bytes : List ℕ) (c : IsCanonicalOf Three x bytes) → SameMeaning y x
        → DontOverlap (header_window y.header) (association_entries y.associations)
        → HaveNoMore (header_window y.header) (association_entries c.made.associations) (association_entries y.associations) }
    ensures schedules { (x y : ExtractParts) (bytes : List ℕ) (c : IsCanonicalOf Three x bytes) → SameMeaning y x
        → DontOverlap (header_window y.header) (schedule_entries y.schedules)
        → HaveNoMore (header_window y.header) (schedule_entries c.made.schedules) (schedule_entries y.schedules) }
{}

/// Where the days of the window on which a body of a key runs are those that dates and a mask show, form 3 has one record of that
/// body, with these dates and this mask.
pub fn an_exact_record_stands_alone()
    ensures associations { (x : ExtractParts) (bytes : List ℕ) (c : IsCanonicalOf Three x bytes) (k : AssocKey) (b : AssocBody)
        (first last : ℕ) (days : List Bool)
        → IsExact (RunsWithin (header_window x.header) (association_entries x.associations) k b) first last days
        → ((n : ℕ) → RunsWithin (header_window x.header) (association_entries x.associations) k b n → (first ≤ n) × (n ≤ last))
        → (t : Terms AssocBody) → (of_key (association_entries c.made.associations) k t × (t.body ≡ Some b))
        ↔ (t ≡ terms_of (record { first = first; last = last; days = days; body = b })) }
    ensures schedules { (x : ExtractParts) (bytes : List ℕ) (c : IsCanonicalOf Three x bytes) (uid : List ℕ) (b : BodyLines)
        (first last : ℕ) (days : List Bool)
        → IsExact (RunsWithin (header_window x.header) (schedule_entries x.schedules) uid b) first last days
        → ((n : ℕ) → RunsWithin (header_window x.header) (schedule_entries x.schedules) uid b n → (first ≤ n) × (n ≤ last))
        → (t : Terms BodyLines) → (of_key (schedule_entries c.made.schedules) uid t × (t.body ≡ Some b))
        ↔ (t ≡ terms_of (record { first = first; last = last; days = days; body = b })) }
{}

/// In form 3 the only record of a key comes back as it was, if it is permanent, and its first date, its last date and each of its
/// weekdays are shown in the window.
pub fn an_unchanged_record_comes_back()
    ensures associations { (x : ExtractParts) (bytes : List ℕ) (c : IsCanonicalOf Three x bytes) (k : AssocKey) (b : AssocBody)
        (r : Terms AssocBody) → IsOnlyRecord (header_window x.header) (association_entries x.associations) k r → r.body ≡ Some b
        → (t : Terms AssocBody) → of_key (association_entries c.made.associations) k t ↔ (t ≡ r) }
    ensures schedules { (x : ExtractParts) (bytes : List ℕ) (c : IsCanonicalOf Three x bytes) (uid : List ℕ) (b : BodyLines)
        (r : Terms BodyLines) → IsOnlyRecord (header_window x.header) (schedule_entries x.schedules) uid r → r.body ≡ Some b
        → (t : Terms BodyLines) → of_key (schedule_entries c.made.schedules) uid t ↔ (t ≡ r) }
{}
