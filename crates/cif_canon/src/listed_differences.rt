//! The differences of two extracts, and how they are listed: record by record, or by pairs of both sides.
ghost use Rattle.std.specs.Prelude.{◌<◌, ◌≡◌, ◌↔◌, IfOk, IfSome, All, IsTrue, Some, length};
ghost use Rattle.std.specs.List.{flat_map};
ghost use Rattle.cif_calendar.specs.Keys.{keyed};
ghost use Rattle.cif_canon.specs.{Appended.IsAppended, Differences.at_side, Pairs.ArePair, Pairs.by_pairs, Steps.ByPairs.IsFirstListed};
ghost use Rattle.cif_canon.specs.{Steps.ByPairs.IsListedFirst, Steps.OnlySides.HasMovedOf, Steps.Sides.HasSidedRecord};
ghost use Rattle.cif_canon.specs.{Steps.Sides.sided_records, Steps.Texts.record_at};

use crate::canonical_form::{CanonRecord, record_of};
use crate::writing::{Texts, write_each};
use cif_calendar::Entry;
use cif_columns::{Sink, Uid, WriteDevice};
use cif_extract::{Body, Extract};
use cif_records::{AssocBody, AssocKey, Tiploc};
use cif_weeks::Run;
use std::alloc::AllocError;
use std::marker::Model;

/// One of two extracts that are compared.
#[derive(Clone, Copy, Debug, PartialEq, Eq)]
pub enum Side {
    /// The first.
    Left,
    /// The second.
    Right,
}

impl Side {
    /// The one that is of this side.
    pub(crate) fn of<'a, T>(self, left: &'a [T], right: &'a [T]) -> &'a [T]
        ensures { result.now ≡ at_side left.now right.now self }
    {
        match self {
            Side::Left => left,
            Side::Right => right,
        }
    }
}

/// Something that only one side has.
#[derive(Drop)]
pub struct Sided<T> {
    /// The side that has it.
    pub side: Side,
    /// What it is.
    pub it: T,
}

/// What is listed of differences: a record of one side, and that of the other which makes a pair with it.
/// A clause sees both.
#[derive(Drop)]
pub struct ListedRecord<'a, K, B> {
    /// The side of the record.
    pub side: Side,
    /// The record.
    pub one: CanonRecord<'a, K, B>,
    /// That of the other side, if they are a pair.
    pub other: Option<CanonRecord<'a, K, B>>,
}

impl<'a, K, B> Model for ListedRecord<'a, K, B> {
    ghost use Rattle.cif_weeks.specs.Permanent.{Permanent};
    ghost use Rattle.cif_canon.specs.Pairs.{Listed};

    ghost Value = { Listed (K × Permanent B) };

    ghost view = { λ l. (record { side = l.side; it = l.one }, l.other) };
}

/// The record of a run of its side.
pub(crate) fn sided_record<'a, E: Entry>(
    left: &'a [E],
    right: &'a [E],
    run: &'a Sided<Run>,
) -> CanonRecord<'a, E::Key, E::Body>
    requires { HasSidedRecord (keyed E.key E.terms left.now) (keyed E.key E.terms right.now) run.now }
    ensures { record_at (at_side (keyed E.key E.terms left.now) (keyed E.key E.terms right.now) run.now.side) run.now.it
        ≡ Some result }
{
    record_of(run.side.of(left, right), &run.it)
}

/// Appends the first item of this side, and gives the others of both sides.
pub(crate) fn push_next<'x, T: Copy + Drop>(
    found: &mut Vec<Sided<T>>,
    side: Side,
    lefts: &'x [T],
    rights: &'x [T],
) -> Result<(&'x [T], &'x [T]), AllocError>
    requires { 0 < length (at_side lefts.now rights.now side) }
    ensures { IfOk result (λ rest. HasMovedOf side lefts.now rights.now rest.0.now rest.1.now
        found.old.items found.new.items) }
{
    let own = side.of(lefts, rights);
    found.push(Sided { side, it: own[0] })?;
    match side {
        Side::Left => Ok((&own[1..], rights)),
        Side::Right => Ok((lefts, &own[1..])),
    }
}

/// What only one of two extracts says, as canonical records of each side. Their bodies are borrowed
/// from the extracts: a clause sees the locations and the records, with their sides.
#[derive(Drop)]
pub struct Differences<'a> {
    pub(crate) left: &'a Extract,
    pub(crate) right: &'a Extract,
    /// The locations, rising.
    pub(crate) tiplocs: Vec<Sided<Tiploc>>,
    /// The records of associations, by key, first date and side. The source of each is the position
    /// of an association of its side, with its key and body.
    pub(crate) associations: Vec<Sided<Run>>,
    /// The records of schedules, by UID, first date and side.
    pub(crate) schedules: Vec<Sided<Run>>,
}

impl<'a> Model for Differences<'a> {
    ghost use Rattle.std.specs.Prelude.{All};
    ghost use Rattle.cif_calendar.specs.Entries.{association_entries, schedule_entries};
    ghost use Rattle.cif_canon.specs.Differences.{DifferencesParts};

    ghost Value = { DifferencesParts };

    ghost use Rattle.cif_canon.specs.Steps.Sides.{HasSidedRecord, sided_records};

    ghost view = { λ d. record {
      tiplocs = d.tiplocs.items;
      associations = sided_records (association_entries d.left.now.associations.items)
          (association_entries d.right.now.associations.items) d.associations.items;
      schedules = sided_records (schedule_entries d.left.now.schedules.items)
          (schedule_entries d.right.now.schedules.items) d.schedules.items;
    } };

    ghost invariant = { λ d.
        All (HasSidedRecord (association_entries d.left.now.associations.items)
        (association_entries d.right.now.associations.items)) d.associations.items
        × All (HasSidedRecord (schedule_entries d.left.now.schedules.items)
        (schedule_entries d.right.now.schedules.items)) d.schedules.items };
}

impl<'a> Differences<'a> {
    ghost use Rattle.std.specs.{Cmp.Lexicographic.slice_cmp, Ordering.nat_cmp};
    ghost use Rattle.cif_calendar.specs.Entries.{association_entries, schedule_entries};
    ghost use Rattle.cif_records.specs.AssocKey.{key_cmp};
    ghost use Rattle.cif_canon.specs.Differences.{AreNone};

    /// The differences of these locations and of the records of these runs.
    pub(crate) fn of(
        left: &'a Extract,
        right: &'a Extract,
        tiplocs: Vec<Sided<Tiploc>>,
        associations: Vec<Sided<Run>>,
        schedules: Vec<Sided<Run>>,
    ) -> Differences<'a>
        requires associations { All (HasSidedRecord (association_entries left.now.associations.items)
            (association_entries right.now.associations.items)) associations.items }
        requires schedules { All (HasSidedRecord (schedule_entries left.now.schedules.items)
            (schedule_entries right.now.schedules.items)) schedules.items }
        ensures { result ≡ record {
          tiplocs = tiplocs.items;
          associations = sided_records (association_entries left.now.associations.items)
              (association_entries right.now.associations.items) associations.items;
          schedules = sided_records (schedule_entries left.now.schedules.items)
              (schedule_entries right.now.schedules.items) schedules.items;
        } }
    {
        Differences {
            left,
            right,
            tiplocs,
            associations,
            schedules,
        }
    }

    /// Whether there is no difference.
    pub fn is_empty(&self) -> bool
        ensures { IsTrue result ↔ AreNone self.now }
    {
        are_empty(
            self.tiplocs.as_slice(),
            self.associations.as_slice(),
            self.schedules.as_slice(),
        )
    }

    /// Appends the texts of the locations, in their order.
    pub fn list_tiplocs<L: Texts<Sided<Tiploc>>, W: WriteDevice>(
        &self,
        texts: &L,
        sink: &mut Sink<W>,
    )
        ensures { IsAppended W.contents W.write_errors (flat_map (L.text texts.now) self.now.tiplocs) sink.old sink.new }
    {
        write_each(texts, self.tiplocs.as_slice(), sink);
    }

    /// Appends the texts of the associations, in their order, each pair as one.
    pub fn list_associations<L: Texts<ListedRecord<'a, AssocKey, AssocBody>>, W: WriteDevice>(
        &'a self,
        texts: &L,
        sink: &mut Sink<W>,
    )
        ensures { IsAppended W.contents W.write_errors
            (flat_map (L.text texts.now) (by_pairs key_cmp self.now.associations)) sink.old sink.new }
    {
        write_pairs(
            texts,
            self.left.associations.as_slice(),
            self.right.associations.as_slice(),
            self.associations.as_slice(),
            sink,
        );
    }

    /// Appends those of the schedules.
    pub fn list_schedules<L: Texts<ListedRecord<'a, Uid, Body>>, W: WriteDevice>(
        &'a self,
        texts: &L,
        sink: &mut Sink<W>,
    )
        ensures { IsAppended W.contents W.write_errors
            (flat_map (L.text texts.now) (by_pairs (slice_cmp nat_cmp) self.now.schedules)) sink.old sink.new }
    {
        write_pairs(
            texts,
            self.left.schedules.as_slice(),
            self.right.schedules.as_slice(),
            self.schedules.as_slice(),
            sink,
        );
    }
}

/// Whether all three lists are empty.
fn are_empty(
    tiplocs: &[Sided<Tiploc>],
    associations: &[Sided<Run>],
    schedules: &[Sided<Run>],
) -> bool
    ensures { IsTrue result ↔ ((length tiplocs.now ≡ 0) × (length associations.now ≡ 0) × (length schedules.now ≡ 0)) }
{
    tiplocs.is_empty() && associations.is_empty() && schedules.is_empty()
}

/// Appends the texts of the runs' records, by pairs.
fn write_pairs<'a, E: Entry, L: Texts<ListedRecord<'a, E::Key, E::Body>>, W: WriteDevice>(
    texts: &L,
    left: &'a [E],
    right: &'a [E],
    runs: &'a [Sided<Run>],
    sink: &mut Sink<W>,
)
    requires { All (HasSidedRecord (keyed E.key E.terms left.now) (keyed E.key E.terms right.now)) runs.now }
    ensures { IsAppended W.contents W.write_errors
        (flat_map (L.text texts.now) (by_pairs E.Key.cmp
        (sided_records (keyed E.key E.terms left.now) (keyed E.key E.terms right.now) runs.now)))
        sink.old sink.new }
{
    let mut rest = runs;
    while !rest.is_empty() {
        let first = first_listed(left, right, rest);
        texts.write(&first.0, sink);
        rest = first.1;
    }
}

/// The first run's record, or the pair that it begins, and the other runs.
fn first_listed<'a, E: Entry>(
    left: &'a [E],
    right: &'a [E],
    runs: &'a [Sided<Run>],
) -> (ListedRecord<'a, E::Key, E::Body>, &'a [Sided<Run>])
    requires some { 0 < length runs.now }
    requires records { All (HasSidedRecord (keyed E.key E.terms left.now) (keyed E.key E.terms right.now)) runs.now }
    ensures { IsFirstListed E.Key.cmp (keyed E.key E.terms left.now) (keyed E.key E.terms right.now)
        runs.now result.1.now result.0 }
{
    let run = &runs[0];
    let later = &runs[1..];
    let side = run.side;
    let one = sided_record(left, right, run);
    match partner(left, right, side, &one, later) {
        Some(other) => {
            let other = Some(other);
            (ListedRecord { side, one, other }, &later[1..])
        }
        None => {
            let other = None;
            (ListedRecord { side, one, other }, later)
        }
    }
}

/// The next run's record, if it makes a pair with this one.
fn partner<'a, E: Entry>(
    left: &'a [E],
    right: &'a [E],
    side: Side,
    one: &CanonRecord<'_, E::Key, E::Body>,
    later: &'a [Sided<Run>],
) -> Option<CanonRecord<'a, E::Key, E::Body>>
    requires { All (HasSidedRecord (keyed E.key E.terms left.now) (keyed E.key E.terms right.now)) later.now }
    ensures listed { IsListedFirst E.Key.cmp (keyed E.key E.terms left.now) (keyed E.key E.terms right.now)
        (record { side = side; it = one.now }) result later.now }
    ensures some { IfSome result (λ _. 0 < length later.now) }
{
    if later.is_empty() {
        return None;
    }
    let next = &later[0];
    let other = sided_record(left, right, next);
    if are_pair::<E>(side, one, next.side, &other) {
        Some(other)
    } else {
        None
    }
}

/// Whether two records are a pair.
fn are_pair<E: Entry>(
    side: Side,
    one: &CanonRecord<'_, E::Key, E::Body>,
    other_side: Side,
    other: &CanonRecord<'_, E::Key, E::Body>,
) -> bool
    ensures { IsTrue result ↔ ArePair (record { side = side; it = one.now }) (record { side = other_side; it = other.now }) }
{
    match (side, other_side) {
        (Side::Left, Side::Right) => have_same_key_and_dates::<E>(one, other),
        (Side::Left, Side::Left) => false,
        (Side::Right, _) => false,
    }
}

/// Whether two records have one key, the same dates and the same days.
fn have_same_key_and_dates<E: Entry>(
    one: &CanonRecord<'_, E::Key, E::Body>,
    other: &CanonRecord<'_, E::Key, E::Body>,
) -> bool
    ensures { IsTrue result ↔ ((one.now.0 ≡ other.now.0) × (one.now.1.first ≡ other.now.1.first)
        × (one.now.1.last ≡ other.now.1.last) × (one.now.1.days ≡ other.now.1.days)) }
{
    one.key == other.key
        && one.run.first == other.run.first
        && one.run.last == other.run.last
        && one.run.days.is(other.run.days)
}
