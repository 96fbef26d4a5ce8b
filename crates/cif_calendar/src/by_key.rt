//! The positions of entries in the order of their keys.
ghost use Rattle.std.specs.Prelude.{◌≡◌, ◌<◌, All, IfOk, length};
ghost use Rattle.cif_calendar.specs.{Keys.ArePositionsOf, Keys.keyed, Ranks.AreRanked};
ghost use Rattle.cif_calendar.specs.ByKey.{AreAllByKey, AreFrom, AreOfFirstKey, IsFirstKey};
ghost use Rattle.cif_calendar.specs.ByKey.{IsCountOfKey, IsFirstOfBoth, IsFirstOrNone, IsRising};

use crate::entry::{Entry, RankedEntry};
use std::alloc::{AllocError, Global};

/// The positions of all entries, in the order of their keys.
pub fn positions_by_key<E: RankedEntry>(
    alloc: Global,
    entries: &[E],
) -> Result<Vec<usize>, AllocError>
    ensures { IfOk result (λ positions.
        AreAllByKey E.Key.cmp (keyed E.key E.terms entries.now) positions.items) }
{
    // A sort that looked for the keys among the entries would wait for memory at each comparison.
    let mut ranked = ranked_positions(alloc, entries)?;
    ranked.sort_unstable_by(
        |one, other|
            ensures { result ≡ E.Rank.cmp one.now.0 other.now.0 }
        { one.0.cmp(&other.0) },
    );
    ranked
        .iter()
        .map(
            |pair|
                ensures { result ≡ pair.now.1 }
            { pair.1 },
        )
        .collect(alloc)
}

/// The positions of all entries, each behind what stands for its key.
fn ranked_positions<E: RankedEntry>(
    alloc: Global,
    entries: &[E],
) -> Result<Vec<(E::Rank, usize)>, AllocError>
    ensures { IfOk result (λ ranked.
        AreRanked E.stands_for (keyed E.key E.terms entries.now) (length entries.now) ranked.items) }
{
    let mut ranked = Vec::with_capacity(alloc, entries.len())?;
    for position in 0..entries.len() {
        ranked.push((entries[position].rank(), position))?;
    }
    Ok(ranked)
}

/// The positions of the entries with this key, rising.
pub fn positions_of_key<E: Entry>(
    alloc: Global,
    entries: &[E],
    key: &E::Key,
) -> Result<Vec<usize>, AllocError>
    ensures of_key { IfOk result (λ positions.
        ArePositionsOf (keyed E.key E.terms entries.now) key.now positions.items) }
    ensures within { IfOk result (λ positions. All (λ i. i < length entries.now) positions.items) }
{
    let mut positions = Vec::new(alloc);
    for position in 0..entries.len() {
        if entries[position].key() == key {
            positions.push(position)?;
        }
    }
    Ok(positions)
}

/// How many of the positions, from the first on, are of entries with one key. The positions are in
/// the order of the keys.
pub fn count_of_first_key<E: Entry>(entries: &[E], positions: &[usize]) -> usize
    requires within { All (λ i. i < length entries.now) positions.now }
    requires some { 0 < length positions.now }
    requires rising { IsRising E.Key.cmp (keyed E.key E.terms entries.now) positions.now }
    ensures { AreOfFirstKey E.Key.cmp (keyed E.key E.terms entries.now) positions.now result }
{
    count_of_key(entries, positions, entries[positions[0]].key())
}

/// How many of the positions, from the first on, are of entries with this key. The positions are in
/// the order of the keys, and none of them is before this one.
fn count_of_key<E: Entry>(entries: &[E], positions: &[usize], key: &E::Key) -> usize
    requires within { All (λ i. i < length entries.now) positions.now }
    requires rising { IsRising E.Key.cmp (keyed E.key E.terms entries.now) positions.now }
    requires from { AreFrom E.Key.cmp (keyed E.key E.terms entries.now) positions.now key.now }
    ensures { IsCountOfKey E.Key.cmp (keyed E.key E.terms entries.now) positions.now key.now result }
{
    for (count, i) in positions.iter().enumerate() {
        if entries[*i].key() != key {
            return count;
        }
    }
    positions.len()
}

/// The least key at two lists of positions, and each list split into positions with that key and later
/// ones.
#[derive(Drop)]
pub struct FirstKey<'a, 'p, E> {
    /// An entry with the key.
    pub entry: &'a E,
    /// The left positions of the key.
    pub left: &'p [usize],
    /// The left positions of later keys.
    pub left_later: &'p [usize],
    /// The right positions of the key.
    pub right: &'p [usize],
    /// The right positions of later keys.
    pub right_later: &'p [usize],
}

/// The least key of those at two lists of positions, each in the order of its keys; none where there
/// are no positions.
pub fn first_key<'a, 'p, E: Entry>(
    left: &'a [E],
    left_positions: &'p [usize],
    right: &'a [E],
    right_positions: &'p [usize],
) -> Option<FirstKey<'a, 'p, E>>
    requires left { All (λ i. i < length left.now) left_positions.now }
    requires right { All (λ i. i < length right.now) right_positions.now }
    requires left_rising { IsRising E.Key.cmp (keyed E.key E.terms left.now) left_positions.now }
    requires right_rising { IsRising E.Key.cmp (keyed E.key E.terms right.now) right_positions.now }
    ensures { IsFirstOrNone ((length left_positions.now ≡ 0) × (length right_positions.now ≡ 0))
        (λ first. IsFirstKey E.Key.cmp (keyed E.key E.terms left.now) left_positions.now
        (keyed E.key E.terms right.now) right_positions.now (E.key first.entry.now)
        first.left.now first.left_later.now first.right.now first.right_later.now) result }
{
    let Some(entry) = first_entry(left, left_positions, right, right_positions) else {
        return None;
    };
    let left_count = count_of_key(left, left_positions, entry.key());
    let right_count = count_of_key(right, right_positions, entry.key());
    let (left, left_later) = left_positions.split_at(left_count);
    let (right, right_later) = right_positions.split_at(right_count);
    Some(FirstKey {
        entry,
        left,
        left_later,
        right,
        right_later,
    })
}

/// An entry with the least key of those at two lists of positions, each in the order of its keys;
/// none where there are no positions.
fn first_entry<'a, E: Entry>(
    left: &'a [E],
    left_positions: &[usize],
    right: &'a [E],
    right_positions: &[usize],
) -> Option<&'a E>
    requires left { All (λ i. i < length left.now) left_positions.now }
    requires right { All (λ i. i < length right.now) right_positions.now }
    requires left_rising { IsRising E.Key.cmp (keyed E.key E.terms left.now) left_positions.now }
    requires right_rising { IsRising E.Key.cmp (keyed E.key E.terms right.now) right_positions.now }
    ensures { IsFirstOrNone ((length left_positions.now ≡ 0) × (length right_positions.now ≡ 0))
        (λ entry. IsFirstOfBoth E.Key.cmp (keyed E.key E.terms left.now) left_positions.now
        (keyed E.key E.terms right.now) right_positions.now (E.key entry.now)) result }
{
    match (left_positions.first(), right_positions.first()) {
        (Some(i), Some(j)) => {
            let (one, other) = (&left[*i], &right[*j]);
            if other.key().cmp(one.key()).is_lt() {
                Some(other)
            } else {
                Some(one)
            }
        }
        (Some(i), None) => Some(&left[*i]),
        (None, Some(j)) => Some(&right[*j]),
        (None, None) => None,
    }
}
