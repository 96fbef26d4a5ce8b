//! What the lines of an update do to records of one kind.
ghost use Rattle.std.specs.Prelude.{◌≡◌, ◌↔◌, ◌++◌, ◌∷◌, [], Bool, List, IfOk, IsTrue, filter, is_some, map, not};
ghost use Rattle.std.specs.{BTreeMap.get, Prelude.if◌then◌else◌, Prelude.option_to_list, Prelude.reverse};
ghost use Rattle.cif_feed.specs.Changes.{AreAfter, AreRefused, ChangeParts, changes_of};
ghost use Rattle.cif_feed.specs.Changes.{may_be_applied, parts_of, put_last, refusals, why_unfit, with_keys};
ghost use Rattle.cif_feed.specs.Steps.Changes.{AreLast, SaysThere, at_keys, is_position, same_by};

use crate::FeedFault;
use std::alloc::{AllocError, Global};
use std::collections::BTreeMap;

/// A record that an update knows by its key.
pub trait Keyed {
    /// What an update knows it by.
    type Key: Drop;

    /// What stands for a key where keys are looked up.
    type Rank: Ord + Drop;

    // Its key.
    ghost key: { Self → Self.Key };

    // The rank of a key.
    ghost rank: { Self.Key → Self.Rank };

    /// The rank of its key.
    fn rank(&self) -> Self::Rank
        ensures { result ≡ rank (key self.now) };

    /// The rank of a key.
    fn rank_of(known: &Self::Key) -> Self::Rank
        ensures { result ≡ rank known.now };

    // Ranks that compare equal are those of one key; that their order is total is a law of `Ord`.
    ghost same_key: { (a b : Self.Key) → IsTrue (Self.Rank.eq (rank a) (rank b)) ↔ (a ≡ b) };
}

/// What a line of an update does.
#[derive(Drop)]
pub struct RecordChange<K, R> {
    /// The number of the line.
    pub line: u64,
    /// What it does.
    pub action: Action<K, R>,
}

/// What is done to the records of a key.
#[derive(Drop)]
pub enum Action<K, R> {
    /// Puts a record whose key isn't there.
    New(R),
    /// Takes out the records of the record's key, and puts it.
    Revised(R),
    /// Takes out the records of a key.
    Deleted(K),
}

/// A line of an update that doesn't fit what the lines before it have left.
#[derive(Clone, Copy, Debug)]
pub struct RefusedLine {
    /// The number of the line.
    pub line: u64,
    /// Why it doesn't fit.
    pub why: Unfit,
}

/// Which lines of an update that don't fit are waived.
#[derive(Clone, Copy)]
pub enum Waived {
    /// None.
    Nothing,
    /// Those whose key is there already, or isn't there. The update has to follow the extract.
    Keys,
    /// All, also the header of an update that doesn't follow the extract.
    Everything,
}

/// Why a line of an update doesn't fit.
#[derive(Clone, Copy, Debug, PartialEq, Eq)]
pub enum Unfit {
    /// It is the header, and doesn't follow the extract.
    OutOfSequence,
    /// It revises or deletes records of a key of which there are none.
    NotThere,
    /// It puts a new record of a key of which there are records.
    AlreadyThere,
}

impl RefusedLine {
    ghost use Rattle.cif_feed.specs.Updated.{refused_fault};

    /// The fault of this name.
    pub fn fault(&self) -> FeedFault
        ensures { result ≡ refused_fault self.now }
    {
        let line = self.line;
        match self.why {
            Unfit::OutOfSequence => FeedFault::OutOfSequence { line },
            Unfit::NotThere => FeedFault::NotThere { line },
            Unfit::AlreadyThere => FeedFault::AlreadyThere { line },
        }
    }
}

impl Waived {
    ghost use Rattle.cif_feed.specs.Waived.{first_refused, waives};

    /// Whether a line is waived that doesn't fit for this reason.
    pub fn waives(self, why: Unfit) -> bool
        ensures { result ≡ waives self why }
    {
        match self {
            Waived::Nothing => false,
            Waived::Keys => match why {
                Unfit::OutOfSequence => false,
                Unfit::NotThere | Unfit::AlreadyThere => true,
            },
            Waived::Everything => true,
        }
    }

    /// The first of these lines that isn't waived.
    pub fn first_refused(self, lines: &[RefusedLine]) -> Option<RefusedLine>
        ensures { result ≡ first_refused self lines.now }
    {
        for line in lines {
            if !self.waives(line.why) {
                return Some(*line);
            }
        }
        None
    }
}

/// Applies the changes, one after another: the records of a change's key are taken out, and what it
/// puts comes last. Returns those that don't fit, in their order: a new record whose key is there, and a
/// revision or a deletion of a key that isn't. They are applied anyway.
pub fn apply<R: Keyed + Drop>(
    alloc: Global,
    records: &mut Vec<R>,
    mut changes: Vec<RecordChange<R::Key, R>>,
) -> Result<Vec<RefusedLine>, AllocError>
    ensures records { IfOk result (λ _.
        AreAfter R.key records.old.items changes.items records.new.items) }
    ensures refused { IfOk result (λ refused.
        AreRefused R.key records.old.items changes.items refused.items) }
{
    let last = last_changes::<R>(alloc, changes.as_slice())?;
    let (there, changed) = keys_there(alloc, records.as_slice(), &last)?;
    let refused = refused_changes::<R>(alloc, there, changes.as_slice())?;
    take_out(records, changed.as_slice());
    changes.reverse();
    put_last(records, changes, &last)?;
    Ok(refused)
}

/// Of each key that is changed, the position of its last change.
fn last_changes<R: Keyed>(
    alloc: Global,
    changes: &[RecordChange<R::Key, R>],
) -> Result<BTreeMap<R::Rank, usize>, AllocError>
    ensures { IfOk result (λ last. AreLast (same_by R.Rank.cmp R.rank) (changes_of R.key changes.now)
        (at_keys R.rank (get R.Rank.cmp last))) }
{
    let mut last = BTreeMap::new(alloc);
    for (at, change) in changes.iter().enumerate() {
        last.insert(rank_of::<R>(change), at)?;
    }
    Ok(last)
}

/// Of the keys that are changed, those of which there are records; and of each record, whether its
/// key is changed.
fn keys_there<R: Keyed>(
    alloc: Global,
    records: &[R],
    last: &BTreeMap<R::Rank, usize>,
) -> Result<(BTreeMap<R::Rank, bool>, Vec<bool>), AllocError>
    ensures there { IfOk result (λ found. (changes : List (ChangeParts R.Key R))
        → AreLast (same_by R.Rank.cmp R.rank) changes (at_keys R.rank (get R.Rank.cmp last.now))
        → SaysThere (same_by R.Rank.cmp R.rank) (with_keys R.key records.now) changes
        (at_keys R.rank (get R.Rank.cmp found.0))) }
    ensures changed { IfOk result (λ found. found.1.items
        ≡ map (λ r. is_some (get R.Rank.cmp last.now (R.rank (R.key r)))) records.now) }
{
    let mut there = BTreeMap::new(alloc);
    let mut changed = Vec::with_capacity(alloc, records.len())?;
    for record in records {
        let rank = record.rank();
        let is_changed = last.contains_key(&rank);
        changed.push(is_changed)?;
        if is_changed {
            there.insert(rank, true)?;
        }
    }
    Ok((there, changed))
}

/// The changes that don't fit what those before them have left.
fn refused_changes<R: Keyed>(
    alloc: Global,
    mut there: BTreeMap<R::Rank, bool>,
    changes: &[RecordChange<R::Key, R>],
) -> Result<Vec<RefusedLine>, AllocError>
    ensures { IfOk result (λ refused. (records : List (R.Key × R))
        → SaysThere (same_by R.Rank.cmp R.rank) records (changes_of R.key changes.now)
        (at_keys R.rank (get R.Rank.cmp there))
        → refused.items ≡ refusals (same_by R.Rank.cmp R.rank) records (changes_of R.key changes.now)) }
{
    let mut refused = Vec::new(alloc);
    for change in changes {
        let rank = rank_of::<R>(change);
        let is_there = there.get(&rank).copied().unwrap_or(false);
        if !may_be_applied::<R>(change, is_there) {
            refused.push(RefusedLine {
                line: change.line,
                why: why_unfit(is_there),
            })?;
        }
        there.insert(rank, puts::<R>(change))?;
    }
    Ok(refused)
}

/// Takes out the records that are changed. There is a flag for each.
fn take_out<R: Drop>(records: &mut Vec<R>, changed: &[bool])
    ensures { (test : R → Bool) → changed.now ≡ map test records.old.items
        → records.new.items ≡ filter (λ r. not (test r)) records.old.items }
{
    let mut flags = changed.iter();
    records.retain(
        move |_record|
            ensures kept { (flag : Bool) (others : List Bool) → flags.entry.rest.now ≡ flag ∷ others
                → result ≡ not flag }
            ensures left { (flag : Bool) (others : List Bool) → flags.entry.rest.now ≡ flag ∷ others
                → flags.exit.rest.now ≡ others }
        {
            match flags.next() {
                Some(is_changed) => !*is_changed,
                None => true,
            }
        },
    );
}

/// Puts what the changes put that are the last of their keys. The first change stands last.
fn put_last<R: Keyed + Drop>(
    records: &mut Vec<R>,
    mut changes: Vec<RecordChange<R::Key, R>>,
    last: &BTreeMap<R::Rank, usize>,
) -> Result<(), AllocError>
    ensures { IfOk result (λ _. AreLast (same_by R.Rank.cmp R.rank) (changes_of R.key (reverse changes.items))
        (at_keys R.rank (get R.Rank.cmp last.now))
        → with_keys R.key records.new.items ≡ with_keys R.key records.old.items
        ++ put_last (same_by R.Rank.cmp R.rank) (changes_of R.key (reverse changes.items))) }
{
    let mut at = 0;
    while let Some(change) = changes.pop() {
        let is_last = is_last::<R>(&change, at, last);
        put_if(is_last, record_of::<R>(change), records)?;
        at += 1;
    }
    Ok(())
}

/// Whether the change at this position is the last of its key.
fn is_last<R: Keyed>(
    change: &RecordChange<R::Key, R>,
    at: usize,
    last: &BTreeMap<R::Rank, usize>,
) -> bool
    ensures { result ≡ is_position (get R.Rank.cmp last.now (R.rank (parts_of R.key change.now).key)) at }
{
    match last.get(&rank_of::<R>(change)) {
        Some(position) => *position == at,
        None => false,
    }
}

/// Appends a record, if there is one and it is to be put.
fn put_if<R: Drop>(is_put: bool, item: Option<R>, records: &mut Vec<R>) -> Result<(), AllocError>
    ensures { IfOk result (λ _. records.new.items ≡ records.old.items
        ++ (if is_put then option_to_list item else [])) }
{
    match item {
        Some(item) if is_put => records.push(item)?,
        _ => {}
    }
    Ok(())
}

/// The record that a change puts.
fn record_of<R: Keyed + Drop>(change: RecordChange<R::Key, R>) -> Option<R>
    ensures { result ≡ (parts_of R.key change).puts }
{
    match change.action {
        Action::New(record) | Action::Revised(record) => Some(record),
        Action::Deleted(_key) => None,
    }
}

/// The rank of the key of a change.
fn rank_of<R: Keyed>(change: &RecordChange<R::Key, R>) -> R::Rank
    ensures { result ≡ R.rank (parts_of R.key change.now).key }
{
    match &change.action {
        Action::New(record) | Action::Revised(record) => record.rank(),
        Action::Deleted(key) => R::rank_of(key),
    }
}

/// Whether the change may be done, by whether there are records of its key.
fn may_be_applied<R: Keyed>(change: &RecordChange<R::Key, R>, is_there: bool) -> bool
    ensures { result ≡ may_be_applied (parts_of R.key change.now).transaction is_there }
{
    match change.action {
        Action::New(_) => !is_there,
        Action::Revised(_) | Action::Deleted(_) => is_there,
    }
}

/// Why a change may not be done, by whether there are records of its key.
fn why_unfit(is_there: bool) -> Unfit
    ensures { result ≡ why_unfit is_there }
{
    if is_there {
        Unfit::AlreadyThere
    } else {
        Unfit::NotThere
    }
}

/// Whether the change puts a record.
fn puts<R: Keyed>(change: &RecordChange<R::Key, R>) -> bool
    ensures { result ≡ is_some (parts_of R.key change.now).puts }
{
    match change.action {
        Action::New(_) | Action::Revised(_) => true,
        Action::Deleted(_) => false,
    }
}
