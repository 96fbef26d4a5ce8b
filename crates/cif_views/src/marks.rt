//! The records of a train that apply on a day, and their marks.
ghost use Rattle.std.specs.Prelude.{◌≡◌, ◌↔◌, ◌+◌, ◌<◌, ℕ, IfOk, IsTrue, length, map};
ghost use Rattle.cif_calendar.specs.{Applies.Applies, Keys.keyed};
ghost use Rattle.cif_views.specs.Steps.Explanation.{ArePlacedInOrder, IsFirstOfKey, IsMarkAt, IsRisingBy, placed_cmp, placed_of};

use cif_calendar::{Dates, Entry, precedence, same_body};
use cif_columns::{Day, Sink, Uid, WriteDevice};
use cif_rows::{RowFormat, Rows};
use std::alloc::{AllocError, Global};
use std::cmp::Ordering;

/// What becomes of a record on a day on which it applies.
#[derive(Clone, Copy)]
pub enum Mark {
    /// It wins, and no record with another body does.
    Wins,
    /// It wins, and another winner has another body.
    Clash,
    /// A record of an earlier letter applies too.
    Hidden,
}

/// An entry that can be explained.
pub trait ExplainedEntry: Entry {
    ghost use Rattle.std.specs.Prelude.{◌<◌, ℕ, List, length};
    ghost use Rattle.cif_rows.specs.{Adds.Adds, Row.Field, Steps.fields_text, declared.format.Format.Format};
    ghost use Rattle.cif_views.specs.Explanation.{Explained};

    // A record with this key is of this train.
    ghost is_of: { Self.Key → List ℕ → Type 0 };

    // The row of a record on a day, with its mark.
    ghost fields: { ℕ → Explained Self.Key Self.Body → List Field };

    /// Whether it is of this train.
    fn is_of(&self, uid: &Uid) -> bool
        ensures { IsTrue result ↔ is_of (Self.key self.now) uid.now };

    /// Adds the fields of its row on the day, with a mark.
    fn push_row<F: RowFormat, W: WriteDevice>(
        &self,
        rows: &mut Rows<F>,
        day: Day,
        mark: Mark,
        sink: &mut Sink<W>,
    )
        ensures adds { (place : ℕ) → Adds W.contents W.write_errors (fields_text F.FORMAT (fields day (record {
          place = place;
          key = Self.key self.now;
          terms = Self.terms self.now;
          mark = mark;
        }))) sink.old sink.new rows.old rows.new }
        ensures some { (place : ℕ) (format : Format) → 0 < length (fields_text format (fields day (record {
          place = place;
          key = Self.key self.now;
          terms = Self.terms self.now;
          mark = mark;
        }))) };
}

/// A record of the train that applies on the day.
#[derive(Drop)]
pub(crate) struct Applying<'a, E> {
    pub(crate) entry: &'a E,
    /// Its position among the entries.
    place: usize,
}

/// Whether it is a record of the train that applies on the day.
fn is_applying<E: ExplainedEntry>(entry: &E, uid: &Uid, day: Day) -> bool
    ensures { IsTrue result ↔
        (E.is_of (E.key entry.now) uid.now × Applies (E.terms entry.now) day) }
{
    entry.is_of(uid) && Dates::of(entry).has(day)
}

/// By key, then by letter, then by place.
fn order<E: Entry>(one: &Applying<'_, E>, other: &Applying<'_, E>) -> Ordering
    ensures { result ≡ placed_cmp E.Key.cmp
        (placed_of E.key E.terms one.now) (placed_of E.key E.terms other.now) }
{
    let by_precedence = precedence(one.entry).cmp(&precedence(other.entry));
    one.entry
        .key()
        .cmp(other.entry.key())
        .then(by_precedence.then(one.place.cmp(&other.place)))
}

/// The records of the train that apply on the day, by key, letter and place.
pub(crate) fn records_on<'a, E: ExplainedEntry>(
    alloc: Global,
    entries: &'a [E],
    uid: &Uid,
    day: Day,
) -> Result<Vec<Applying<'a, E>>, AllocError>
    ensures { IfOk result (λ applying. ArePlacedInOrder E.Key.cmp E.is_of
        (keyed E.key E.terms entries.now) uid.now day
        (map (placed_of E.key E.terms) applying.items)) }
{
    let mut applying = Vec::new(alloc);
    for (place, entry) in entries.iter().enumerate() {
        if is_applying(entry, uid, day) {
            applying.push(Applying { entry, place })?;
        }
    }
    applying.sort_by(order)?;
    Ok(applying)
}

/// The mark of the record at `i` of those that apply. `before` is that of the one before it.
pub(crate) fn mark_at<E: Entry>(applying: &[Applying<'_, E>], i: usize, before: Mark) -> Mark
    requires within { i < length applying.now }
    requires rising { IsRisingBy E.Key.cmp (map (placed_of E.key E.terms) applying.now) }
    ensures { ((j : ℕ) → i ≡ j + 1 → IsMarkAt (map (placed_of E.key E.terms) applying.now) j before)
        → IsMarkAt (map (placed_of E.key E.terms) applying.now) i result }
{
    if i > 0 {
        let (one, other) = (applying[i].entry, applying[i - 1].entry);
        if one.key() == other.key() {
            if precedence(one) == precedence(other) {
                return before;
            }
            return Mark::Hidden;
        }
    }
    mark_of_first(applying, i)
}

/// The mark of the record at `i` of those that apply, if it is the first of its key. Each of the
/// key's records is looked at.
fn mark_of_first<E: Entry>(applying: &[Applying<'_, E>], i: usize) -> Mark
    requires within { i < length applying.now }
    requires rising { IsRisingBy E.Key.cmp (map (placed_of E.key E.terms) applying.now) }
    requires first { IsFirstOfKey (map (placed_of E.key E.terms) applying.now) i }
    ensures { IsMarkAt (map (placed_of E.key E.terms) applying.now) i result }
{
    let one = applying[i].entry;
    for other in &applying[i + 1..] {
        if other.entry.key() != one.key() {
            return Mark::Wins;
        }
        if precedence(other.entry) == precedence(one) && !same_body(other.entry, one) {
            return Mark::Clash;
        }
    }
    Mark::Wins
}
