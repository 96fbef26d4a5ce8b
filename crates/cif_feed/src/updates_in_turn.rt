//! What `update` answers of a full extract and of updates, which are done one after another, for any devices.
ghost use Rattle.std.specs.Prelude.{◌≡◌, ◌++◌, IfErr, IfOk, List};
ghost use Rattle.cif_columns.specs.declared.line_reader.TheConstants.{MAX_LINES};
ghost use Rattle.std.specs.List.{list_any};
ghost use Rattle.cif_feed.specs.{Counts.have_marks, PublishedParts.published_parts, declared.updates_in_turn.DoneUpdate.DoneUpdate};
ghost use Rattle.cif_feed.specs.FeedAnswer.{AreDoneInTurn, AreUpdatesRead, FeedAnswers, FeedFinishes, IsHandedOn, IsOneDone, IsReported};
ghost use Rattle.cif_feed.specs.FeedAnswer.{IsUpdateAnswer, IsUpdateFault, OfUpdates, looks_prepared, reported_of};

use crate::changes::Waived;
use crate::feed_fault::FeedFault;
use crate::holidays::HolidayCodes;
use crate::mark::{Passed, UpdateCounts};
use crate::published_extract::PublishedExtract;
use crate::update::Outcome;
use cif_columns::{MAX_LINES, ReadDevice, Sink, Source, WriteDevice, WriteFault};
use cif_extract::Fault;
use cif_records::Header;
use std::alloc::Global;
use std::fmt;
use std::fmt::{Display, Formatter};

/// An update that was done.
#[derive(Drop)]
pub struct DoneUpdate {
    /// Its header.
    pub header: Header,
    /// What it did.
    pub outcome: Outcome,
}

/// What `update` leaves to its caller.
#[derive(Drop)]
pub struct KeptUpdate {
    /// The full extract, after the updates that were done. After a fault nothing is said of it.
    pub extract: Option<PublishedExtract>,
    /// What was read of it first.
    pub full: Option<ReadFeed>,
    /// The updates that were done.
    pub done: Vec<DoneUpdate>,
}

impl KeptUpdate {
    /// Whether FULL looks as if it were prepared: no record of it has an open end or a holiday code, and one of
    /// the updates that were done has.
    pub fn looks_prepared(&self) -> bool
        ensures { result ≡ looks_prepared self.now }
    {
        match &self.full {
            Some(full) => !full.counts.have_marks() && have_marks(self.done.as_slice()),
            None => false,
        }
    }
}

/// Whether one of the updates has an open end or a holiday code.
fn have_marks(done: &[DoneUpdate]) -> bool
    ensures { result ≡ list_any (λ (u : DoneUpdate). have_marks u.outcome.counts) done.now }
{
    done.iter().any(|update| update.outcome.counts.have_marks())
}

/// What is said of a feed that was read.
#[derive(Clone, Copy)]
pub struct ReadFeed {
    /// Its header.
    pub header: Header,
    /// What was passed over as it was read.
    pub passed: Passed,
    /// How many lines it had, by what they do.
    pub counts: UpdateCounts,
}

impl ReadFeed {
    /// That of a published extract.
    pub fn of(extract: &PublishedExtract) -> ReadFeed
        ensures header { result.header ≡ extract.now.header }
        ensures passed { result.passed ≡ extract.now.passed }
        ensures counts { result.counts ≡ extract.now.counts }
    {
        ReadFeed {
            header: extract.header,
            passed: extract.passed,
            counts: extract.counts,
        }
    }
}

/// How many comments, notes and open ends there are.
impl Display for ReadFeed {
    fn fmt<W: fmt::Write>(&self, f: &mut Formatter<W>) -> fmt::Result {
        let comments = self.passed.comments;
        let notes = self.passed.notes;
        let open_ends = self.counts.open_ends;
        write!(
            f,
            "comments: {comments}, notes: {notes}, open ends: {open_ends}"
        )
    }
}

/// Writes the published extract that the first source gives after the updates that the others give, each of
/// which is read and done before the next is touched. What each did is left in `kept`.
///
/// Nothing is written before all updates are done.
pub fn answer_update<R: ReadDevice, W: WriteDevice>(
    alloc: Global,
    full: &mut Source<R>,
    updates: &mut [Source<R>],
    sink: &mut Sink<W>,
    how: Waived,
    kept: &mut KeptUpdate,
) -> Result<(), FeedFault>
    ensures answer { FeedAnswers W.contents W.write_errors (λ _. reported_of kept.new)
        (λ text reported. OfUpdates R.remaining (λ bytes given. IsReported (IsUpdateAnswer how bytes given text) reported)
        full.old updates.old) sink.old sink.new result }
    ensures fault { OfUpdates R.remaining (λ bytes given. IfErr result (IsUpdateFault how bytes given))
        full.old updates.old }
    ensures reads { AreUpdatesRead R.remaining R.read_errors (λ _. kept.new.done.items) how
        full.old full.new updates.old updates.new result }
    ensures handed_on { IsHandedOn W.holds_nothing sink.new result }
{
    let extract = PublishedExtract::read(alloc, full, MAX_LINES, HolidayCodes::all())?;
    kept.full = Some(ReadFeed::of(&extract));
    kept.done = Vec::new(alloc);
    let extract = kept.extract.insert(extract);
    do_updates(alloc, extract, updates, how, &mut kept.done)?;
    finish(extract.write(sink), sink)
}

/// Does the updates that the sources give to the extract, one after another, and appends what each did.
fn do_updates<R: ReadDevice>(
    alloc: Global,
    extract: &mut PublishedExtract,
    updates: &mut [Source<R>],
    how: Waived,
    done: &mut Vec<DoneUpdate>,
) -> Result<(), FeedFault>
    ensures { (these : List DoneUpdate)
        × AreDoneInTurn R.remaining R.read_errors how (published_parts extract.old)
        (published_parts extract.new) updates.old updates.new these result
        × IfOk result (λ _. done.new.items ≡ done.old.items ++ these) }
{
    match updates.split_first_mut() {
        None => Ok(()),
        Some((update, others)) => {
            do_update(alloc, extract, update, how, done)?;
            do_updates(alloc, extract, others, how, done)
        }
    }
}

/// Does the update that the source gives, and appends what it did.
fn do_update<R: ReadDevice>(
    alloc: Global,
    extract: &mut PublishedExtract,
    update: &mut Source<R>,
    how: Waived,
    done: &mut Vec<DoneUpdate>,
) -> Result<(), FeedFault>
    ensures { IsOneDone R.remaining R.read_errors how (published_parts extract.old) (published_parts extract.new)
        update.old update.new done.old.items done.new.items result }
{
    let outcome = extract.update_from(alloc, update, MAX_LINES, how)?;
    let header = extract.header;
    match done.push(DoneUpdate { header, outcome }) {
        Ok(()) => Ok(()),
        Err(_) => Err(FeedFault::Extract(Fault::Memory)),
    }
}

/// Hands on what was written.
fn finish<W: WriteDevice>(
    written: Result<(), WriteFault>,
    sink: &mut Sink<W>,
) -> Result<(), FeedFault>
    ensures finishes { FeedFinishes W.contents W.write_errors written sink.old sink.new result }
    ensures handed_on { IsHandedOn W.holds_nothing sink.new result }
{
    written?;
    sink.flush()?;
    Ok(())
}
