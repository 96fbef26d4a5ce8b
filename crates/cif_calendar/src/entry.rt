//! What the calendar reads of a record: associations and schedules as its entries.

ghost use Rattle.std.specs.Prelude.{◌≡◌, ◌≤◌, ◌↔◌, IsTrue, IsNone};
ghost use Rattle.std.specs.Option.{option_copied};
ghost use Rattle.cif_columns.specs.declared.stp.Stp.TheVariants.{C};
ghost use Rattle.cif_calendar.specs.{Ranks.IsNumberOf, Terms.Terms};

use cif_columns::{Day, DaysRun, Stp, Uid};
use cif_extract::{Body, Schedule};
use cif_records::{AssocBody, AssocKey, Association};

/// A record of a timetable: on some dates it says for one train, or one association, what runs.
///
/// All records of one key are read together: on each date the one with the least letter decides.
/// Contracts see a record as its key and its terms, which are all that the rules read of it.
pub trait Entry {
    /// What the record is about: a train's UID, or the five fields that name an association.
    type Key: Ord;

    /// What runs on the record's dates. Two bodies that are equal are the same thing to run.
    type Body: Eq;

    // What the record is about.
    ghost key: { Self → Self.Key };

    // Its dates, its letter and what runs.
    ghost terms: { Self → Terms Self.Body };

    /// What the record is about.
    fn key(&self) -> &Self::Key
        ensures { result.now ≡ key self.now };

    /// The first date on which the record may apply.
    fn first(&self) -> Day
        ensures { result ≡ (terms self.now).first };

    /// The last date on which the record may apply, never before the first.
    fn last(&self) -> Day
        ensures { result ≡ (terms self.now).last };

    /// The weekdays on which the record applies, between its first and its last date.
    fn days(&self) -> DaysRun
        ensures { result ≡ (terms self.now).days };

    /// Whether the record is permanent, new, an overlay or a cancellation.
    fn letter(&self) -> Stp
        ensures { result ≡ (terms self.now).letter };

    /// What runs; `None` for a cancellation, and for no other record.
    fn body(&self) -> Option<&Self::Body>
        ensures { option_copied result ≡ (terms self.now).body };

    // Keys that compare equal are the same key; that their order is total is a law of `Ord`.
    ghost same_key: { (a b : Self.Key) → IsTrue (Self.Key.eq a b) ↔ (a ≡ b) };

    // Bodies that compare equal are the same body.
    ghost same_body: { (a b : Self.Body) → IsTrue (Self.Body.eq a b) ↔ (a ≡ b) };

    // The first date is not after the last.
    ghost dates_ordered: { (e : Self) → (terms e).first ≤ (terms e).last };

    // A cancellation has no body, and every other record has one.
    ghost cancelled: { (e : Self) → IsNone (terms e).body ↔ ((terms e).letter ≡ C) };
}

/// An entry with what stands for its key where keys are sorted.
pub trait RankedEntry: Entry {
    /// What stands for a key.
    type Rank: Ord + Drop;

    // The rank stands for the key.
    ghost stands_for: { Self.Rank → Self.Key → Type 0 };

    /// What stands for the key of the record.
    fn rank(&self) -> Self::Rank
        ensures { stands_for result (Self.key self.now) };

    // Ranks have the order of their keys.
    ghost same_order: { (r s : Self.Rank) (a b : Self.Key) → stands_for r a → stands_for s b
        → Self.Rank.cmp r s ≡ Self.Key.cmp a b };
}

impl Entry for Association {
    type Key = AssocKey;

    type Body = AssocBody;

    ghost use Rattle.std.proofs.{Common.rules, lemmas.Grind.common_steps};
    ghost use Rattle.cif_calendar.specs.{Entries.association_terms, Laws.Bodied.cancelled-from_bodied};
    ghost use Rattle.std.specs.Cmp.Lexicographic.{pointwise_decides, bytes_decides};

    ghost key = { λ a. a.key };

    ghost terms = { association_terms };

    fn key(&self) -> &AssocKey {
        &self.key
    }

    fn first(&self) -> Day {
        self.first
    }

    fn last(&self) -> Day {
        self.last
    }

    fn days(&self) -> DaysRun {
        self.days
    }

    fn letter(&self) -> Stp {
        self.letter
    }

    fn body(&self) -> Option<&AssocBody> {
        self.body.as_ref()
    }

    ghost same_key = { Prim.search (rules, common_steps, pointwise_decides, bytes_decides) };

    ghost same_body = { Prim.search (rules, common_steps, pointwise_decides, bytes_decides) };

    ghost dates_ordered = { λ a. a.in_order };

    ghost cancelled = { λ a. cancelled-from_bodied a.letter a.body a.bodied };
}

impl RankedEntry for Association {
    type Rank = AssocKey;

    ghost use Rattle.cif_records.specs.AssocKey.{key_cmp};
    ghost use Rattle.cif_calendar.specs.Laws.Ranks.{order_of_keys};

    ghost stands_for = { λ rank key. rank ≡ key };

    fn rank(&self) -> AssocKey {
        self.key.copy()
    }

    ghost same_order = { order_of_keys key_cmp };
}

impl Entry for Schedule {
    type Key = Uid;

    type Body = Body;

    ghost use Rattle.std.proofs.{Common.rules, lemmas.Grind.common_steps};
    ghost use Rattle.cif_calendar.specs.{Entries.schedule_terms, Laws.Bodied.cancelled-from_bodied};
    ghost use Rattle.std.specs.Cmp.Lexicographic.{bytes_decides, pointwise_decides};

    ghost key = { λ s. s.uid };

    ghost terms = { schedule_terms };

    fn key(&self) -> &Uid {
        &self.uid
    }

    fn first(&self) -> Day {
        self.first
    }

    fn last(&self) -> Day {
        self.last
    }

    fn days(&self) -> DaysRun {
        self.days
    }

    fn letter(&self) -> Stp {
        self.letter
    }

    fn body(&self) -> Option<&Body> {
        self.body.as_ref()
    }

    ghost same_key = { Prim.search (rules, common_steps, bytes_decides) };

    ghost same_body = { pointwise_decides bytes_decides };

    ghost dates_ordered = { λ s. s.in_order };

    ghost cancelled = { λ s. cancelled-from_bodied s.letter s.body s.bodied };
}

impl RankedEntry for Schedule {
    // The columns as one number, since two numbers are compared in a third of the time.
    type Rank = u64;

    ghost use Rattle.cif_calendar.specs.{Laws.Ranks.order_of_numbers, Ranks.IsNumberOf};

    ghost stands_for = { IsNumberOf };

    fn rank(&self) -> u64 {
        uid_number(&self.uid)
    }

    ghost same_order = { order_of_numbers };
}

/// The columns of a UID as one number.
pub fn uid_number(uid: &Uid) -> u64
    ensures { IsNumberOf result uid.now }
{
    let [a, b, c, d, e, f] = uid.write();
    u64::from_be_bytes([0, 0, a, b, c, d, e, f])
}

/// Whether two entries have the same body, or both have none.
pub fn same_body<E: Entry>(one: &E, other: &E) -> bool
    ensures { IsTrue result ↔ ((E.terms one.now).body ≡ (E.terms other.now).body) }
{
    one.body() == other.body()
}
