//! A law: what a calendar says of a key.
ghost use Rattle.std.specs.Prelude.{◌≡◌, ◌↔◌, ◌≤◌, ℕ, List, Option, Some, IsSome, map, slice_get};
ghost use Rattle.cif_calendar.specs.{Clash.IsClearFrom, Keys.ArePositionsOf, Keys.keyed, Keys.of_key, Pieces.source_at, Runs.Runs};
ghost use Rattle.cif_calendar.specs.Calendar.{CalendarParts, IsCalendar, IsFault, body_on};
ghost use Rattle.cif_calendar.specs.{Source.IsChosen, Terms.Terms, Wins.Wins, declared.key_calendar.CalendarFault.CalendarFault};

use crate::entry::Entry;

/// A calendar of all of a key's entries says what runs for the key.
pub fn calendar_of_a_key<E: Entry>()
    // On each date of its window it has the body that runs, and none where nothing does.
    ensures runs { (entries : List E) (k : E.Key) (members : List ℕ) (first last : ℕ)
        (c : CalendarParts) (d : ℕ) (o : Option E.Body)
        → ArePositionsOf (keyed E.key E.terms entries) k members
        → IsCalendar (map E.terms entries) members first last c → first ≤ d → d ≤ last
        → (body_on (map E.terms entries) c d ≡ o)
        ↔ Runs (of_key (keyed E.key E.terms entries) k) d o }
    // None of these dates has a clash.
    ensures clear { (entries : List E) (k : E.Key) (members : List ℕ) (first last : ℕ)
        (c : CalendarParts)
        → ArePositionsOf (keyed E.key E.terms entries) k members
        → IsCalendar (map E.terms entries) members first last c
        → IsClearFrom (of_key (keyed E.key E.terms entries) k) first last }
    // A date's source is the position of an entry of the key that wins on it and has a body.
    ensures source { (entries : List E) (k : E.Key) (members : List ℕ) (first last : ℕ)
        (c : CalendarParts) (d i : ℕ)
        → ArePositionsOf (keyed E.key E.terms entries) k members
        → IsCalendar (map E.terms entries) members first last c → first ≤ d → d ≤ last
        → source_at c.pieces d ≡ Some i
        → (r : Terms E.Body) × (slice_get (keyed E.key E.terms entries) i ≡ Some (k, r))
        × Wins (of_key (keyed E.key E.terms entries) k) d r × IsSome r.body }
    // Where there is no calendar for a clash, that is the first of the key.
    ensures fault { (entries : List E) (k : E.Key) (members : List ℕ) (first last : ℕ)
        (fault : CalendarFault)
        → ArePositionsOf (keyed E.key E.terms entries) k members
        → IsFault (IsChosen (map E.terms entries) members) first last fault
        → IsFault (of_key (keyed E.key E.terms entries) k) first last fault }
{}
