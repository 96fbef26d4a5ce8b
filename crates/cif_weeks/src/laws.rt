//! Laws: what runs determines the canonical records, what these say of a day, and what `runs` asks of a
//! calendar.
ghost use Rattle.std.specs.Prelude.{◌≡◌, ℕ, List, Option, Some, All, Contains};
ghost use Rattle.cif_calendar.specs.{Calendar.CalendarParts, Calendar.IsCalendar, Source.IsWinnerAt, Terms.Terms};
ghost use Rattle.cif_weeks.specs.{Applies.Applies, Canonical.AreCanonical, Canonical.SayTheSameByKey, Canonical.SayWhatRunsByKey};
ghost use Rattle.cif_weeks.specs.{Meets.Meets, Permanent.Permanent, Runs.AreCanonicalRuns, Runs.AreSources, Window.IsWithin, Window.Window};
ghost use Rattle.cif_weeks.specs.declared.{form.Form.Form, form.Run.Run};

/// The canonical records of a key are unique: two lists that meet one form for one window, and
/// for what runs on each of its days, are equal.
pub fn records_of_one_key_are_unique<B>()
    ensures { (form : Form) (window : Window) (body_on : ℕ → Option B) (xs ys : List (Permanent B))
        → Meets form window body_on xs → Meets form window body_on ys → xs ≡ ys }
{}

/// The canonical records of all keys are unique: two canonical lists of one form and window that
/// say the same, for each key and on each day of the window, are equal.
pub fn records_of_all_keys_are_unique<K: Ord, B>()
    ensures by_what_runs { (form : Form) (window : Window) (body_on : K → ℕ → Option B)
        (xs ys : List (K × Permanent B))
        → AreCanonical K.cmp form window xs → SayWhatRunsByKey window body_on xs
        → AreCanonical K.cmp form window ys → SayWhatRunsByKey window body_on ys → xs ≡ ys }
    ensures by_what_they_say { (form : Form) (window : Window) (xs ys : List (K × Permanent B))
        → AreCanonical K.cmp form window xs → AreCanonical K.cmp form window ys
        → SayTheSameByKey window xs ys → xs ≡ ys }
{}

/// What a list that meets a form says of each day.
pub fn records_of_each_day<B>()
    // On a day of the window on which a body runs exactly one record applies, and it has that body.
    ensures one { (form : Form) (window : Window) (body_on : ℕ → Option B)
        (records : List (Permanent B)) (n : ℕ) (b : B)
        → Meets form window body_on records → IsWithin window n → body_on n ≡ Some b
        → (r : Permanent B) × Contains records r × Applies r n × (r.body ≡ b)
        × ((s : Permanent B) → Contains records s → Applies s n → s ≡ r) }
    // On no other day does a record apply.
    ensures no_other { (form : Form) (window : Window) (body_on : ℕ → Option B)
        (records : List (Permanent B)) (n : ℕ) (r : Permanent B)
        → Meets form window body_on records → Contains records r → Applies r n
        → IsWithin window n × (body_on n ≡ Some r.body) }
{}

/// Each source of a calendar is the position of an entry with a body, which is what `runs` asks for.
pub fn sources_of_a_calendar<B>()
    ensures { (xs : List (Terms B)) (members : List ℕ) (first last : ℕ) (c : CalendarParts)
        → IsCalendar xs members first last c → AreSources xs c }
{}

/// The source of a run is one of the calendar's members: a winner of the run's first date.
pub fn sources_of_runs<B>()
    ensures { (form : Form) (xs : List (Terms B)) (members : List ℕ) (first last : ℕ)
        (c : CalendarParts) (runs : List Run)
        → IsCalendar xs members first last c → AreCanonicalRuns form xs c runs
        → All (λ run. IsWinnerAt xs members run.first run.source) runs }
{}
