//! Updates: reading one, and doing what it says to a published extract.
ghost use Rattle.std.specs.Prelude.{◌≡◌, ◌≤◌, ◌++◌, ◌∷◌, [], IfOk, length, reverse, if◌then◌else◌};
ghost use Rattle.cif_columns.specs.declared.line_reader.TheConstants.{MAX_LINES};
ghost use Rattle.cif_extract.specs.ReadCall.{IsResultOf};
ghost use Rattle.cif_feed.specs.{PublishedParts.published_parts, Sequence.current_reference, Sequence.follows, Sequence.last_reference};
ghost use Rattle.cif_feed.specs.{SpellsFeed.feed_parts, Steps.Changes.IsDone, Steps.Changes.last_line, Steps.Marks.HasMarks};
ghost use Rattle.cif_feed.specs.{UpdateParts.change_by, UpdateParts.tiploc_changes, UpdateParts.tiploc_changes_by, Updated.reported_once};
ghost use Rattle.cif_feed.specs.declared.changes.Unfit.TheVariants as unfit;
ghost use Rattle.cif_feed.specs.declared.feed_line.Feed.TheVariants as feed;

use crate::feed_reading::{FeedExtract, read_feed};
use crate::mark::{RecordMark, TiplocMark};
use crate::published_extract::{FromLine, from_lines, last_of};
use crate::record_keys::tiploc_key;
use crate::{
    Action, Feed, FeedFault, HolidayCodes, Passed, PublishedAssociation, PublishedExtract,
    PublishedSchedule, RecordChange, RefusedLine, Transaction, Unfit, UpdateCounts, Waived, apply,
};
use cif_columns::{Day, ReadDevice, Source, Stp, Uid};
use cif_extract::{Extract, Schedule};
use cif_records::{AssocKey, Association, Header, Tiploc};
use std::alloc::{AllocError, Global};

/// An update of a published extract: what its lines do, in their order.
#[derive(Drop)]
pub struct Update {
    /// Its header, as that of a full extract.
    pub header: Header,
    /// The number of the header's line.
    pub header_line: u64,
    /// What its TI, TA and TD do. A TA that renames a location does two things.
    pub tiplocs: Vec<RecordChange<[u8; 7], Tiploc>>,
    /// What its AA do.
    pub associations: Vec<RecordChange<(AssocKey, Day, Stp), PublishedAssociation>>,
    /// What its BS do, each with what follows it.
    pub schedules: Vec<RecordChange<(Uid, Day, Stp), PublishedSchedule>>,
    /// How many lines there are, by what they do.
    pub counts: UpdateCounts,
    /// What was passed over as it was read.
    pub passed: Passed,
}

impl Update {
    ghost use Rattle.cif_feed.specs.UpdateParts.{reading_update, SayUpdate, update_parts};

    /// The update that the source's contents spell, of which at most `max_lines` may come.
    ///
    /// A fault names the first refused content and its first reason; Read comes where the source
    /// failed before a refused content was decided, and Memory where what a line says can't be kept.
    /// No other fault is answered. After an update nothing is left in the source.
    pub fn read<R: ReadDevice>(
        alloc: Global,
        source: &mut Source<R>,
        max_lines: u64,
    ) -> Result<Update, FeedFault>
        requires within { max_lines ≤ MAX_LINES }
        ensures { IsResultOf R.remaining R.read_errors (reading_update max_lines)
            source.old source.new result }
    {
        let lines = read_feed(alloc, source, max_lines, Feed::Update, HolidayCodes::all())?;
        Ok(Update::of_lines(alloc, lines)?)
    }

    /// What these lines say.
    fn of_lines(alloc: Global, lines: FeedExtract) -> Result<Update, AllocError>
        requires { HasMarks (feed_parts lines) }
        ensures says { IfOk result (λ update. SayUpdate (feed_parts lines) (update_parts update)) }
        ensures counts { IfOk result (λ update. update.counts ≡ lines.marks.counts) }
        ensures passed { IfOk result (λ update. update.passed ≡ lines.marks.passed) }
    {
        let FeedExtract { extract, marks } = lines;
        let Extract {
            header,
            tiplocs,
            associations,
            schedules,
        } = extract;
        Ok(Update {
            header,
            header_line: marks.header_line,
            tiplocs: tiploc_changes(alloc, tiplocs, marks.tiplocs)?,
            associations: from_lines(alloc, associations, marks.associations)?,
            schedules: from_lines(alloc, schedules, marks.schedules)?,
            counts: marks.counts,
            passed: marks.passed,
        })
    }
}

impl PublishedExtract {
    ghost use Rattle.cif_feed.specs.{UpdateParts.update_parts, Updated.AreRefusedLines, Updated.IsUpdated, Updated.updating};

    /// Applies the update. Returns the lines that don't fit, that of its header first, if it doesn't follow,
    /// and then the others in their order, each once; they are applied anyway.
    pub fn update(&mut self, alloc: Global, update: Update) -> Result<Vec<RefusedLine>, AllocError>
        ensures updated { IfOk result (λ _.
            IsUpdated (update_parts update) (published_parts self.old) (published_parts self.new)) }
        ensures refused { IfOk result (λ refused.
            AreRefusedLines (update_parts update) (published_parts self.old) refused.items) }
        ensures counts { self.new.counts ≡ self.old.counts }
        ensures passed { self.new.passed ≡ self.old.passed }
    {
        let Update {
            header,
            header_line,
            tiplocs,
            associations,
            schedules,
            counts: _,
            passed: _,
        } = update;
        let mut refused = header_refused(alloc, &header, header_line, &self.header)?;
        self.header = header;
        let of_tiplocs = apply(alloc, &mut self.tiplocs, tiplocs)?;
        let of_associations = apply(alloc, &mut self.associations, associations)?;
        let of_schedules = apply(alloc, &mut self.schedules, schedules)?;
        let last = report_once(&mut refused, 0, of_tiplocs.as_slice())?;
        let last = report_once(&mut refused, last, of_associations.as_slice())?;
        report_once(&mut refused, last, of_schedules.as_slice())?;
        Ok(refused)
    }

    /// Applies the update that the source's contents spell, of which at most `max_lines` may come. Of an
    /// update with a line that doesn't fit and isn't waived nothing is applied.
    ///
    /// OutOfSequence, NotThere and AlreadyThere name the first such line; any other fault is one of reading
    /// the update. After a fault nothing is said of the published extract.
    pub fn update_from<R: ReadDevice>(
        &mut self,
        alloc: Global,
        source: &mut Source<R>,
        max_lines: u64,
        how: Waived,
    ) -> Result<Outcome, FeedFault>
        requires within { max_lines ≤ MAX_LINES }
        ensures reads { IsResultOf R.remaining R.read_errors
            (updating how (published_parts self.old) (published_parts self.new) max_lines)
            source.old source.new result }
        ensures counts { self.new.counts ≡ self.old.counts }
        ensures passed { self.new.passed ≡ self.old.passed }
    {
        let update = Update::read(alloc, source, max_lines)?;
        let (counts, passed) = (update.counts, update.passed);
        let waived = self.update(alloc, update)?;
        answer_of(how, waived, counts, passed)
    }
}

/// The current reference of an extract with this header, columns 33 to 39.
pub fn current_reference(header: &Header) -> [u8; 7]
    ensures { result ≡ current_reference header.now }
{
    let mut reference = [0; 7];
    reference.copy_from_slice(&header.columns[30..37]);
    reference
}

/// The last reference of an extract with this header, columns 40 to 46.
pub fn last_reference(header: &Header) -> [u8; 7]
    ensures { result ≡ last_reference header.now }
{
    let mut reference = [0; 7];
    reference.copy_from_slice(&header.columns[37..44]);
    reference
}

/// Whether an update with the one header follows an extract with the other.
fn follows(update: &Header, extract: &Header) -> bool
    ensures { result ≡ follows update.now extract.now }
{
    let last = last_reference(update);
    last == *b"       " || last == current_reference(extract)
}

/// The line of an update's header, if that doesn't follow an extract with this other header.
fn header_refused(
    alloc: Global,
    update: &Header,
    line: u64,
    extract: &Header,
) -> Result<Vec<RefusedLine>, AllocError>
    ensures { IfOk result (λ refused. refused.items ≡ (if follows update.now extract.now then []
        else record { line = line; why = unfit.OutOfSequence } ∷ [])) }
{
    let mut refused = Vec::new(alloc);
    if !follows(update, extract) {
        refused.push(RefusedLine {
            line,
            why: Unfit::OutOfSequence,
        })?;
    }
    Ok(refused)
}

/// What an update did.
#[derive(Drop)]
pub struct Outcome {
    /// The lines that don't fit, and were applied anyway.
    pub waived: Vec<RefusedLine>,
    /// How many lines it has, by what they do.
    pub counts: UpdateCounts,
    /// What was passed over as it was read.
    pub passed: Passed,
}

/// What is answered of these lines that don't fit.
fn answer_of(
    how: Waived,
    waived: Vec<RefusedLine>,
    counts: UpdateCounts,
    passed: Passed,
) -> Result<Outcome, FeedFault>
    ensures done { IsDone how waived.items result }
    ensures said { IfOk result (λ done. (done.counts ≡ counts) × (done.passed ≡ passed)) }
{
    match how.first_refused(waived.as_slice()) {
        Some(line) => Err(line.fault()),
        None => Ok(Outcome {
            waived,
            counts,
            passed,
        }),
    }
}

/// Appends the lines, but for one that stands behind another of the same number, as this one was. Gives the
/// number of the last.
fn report_once(
    reported: &mut Vec<RefusedLine>,
    previous: u64,
    refused: &[RefusedLine],
) -> Result<u64, AllocError>
    ensures reported { IfOk result (λ _. reported.new.items ≡ reported.old.items ++ reported_once previous refused.now) }
    ensures last { IfOk result (λ last. last ≡ last_line previous refused.now) }
{
    let mut last = previous;
    for line in refused {
        if line.line != last {
            reported.push(*line)?;
        }
        last = line.line;
    }
    Ok(last)
}

/// What TI, TA and TD do.
fn tiploc_changes(
    alloc: Global,
    mut tiplocs: Vec<Tiploc>,
    mut marks: Vec<TiplocMark>,
) -> Result<Vec<RecordChange<[u8; 7], Tiploc>>, AllocError>
    requires { length marks.items ≡ length tiplocs.items }
    ensures { IfOk result (λ changes. changes.items ≡ tiploc_changes tiplocs.items marks.items) }
{
    let mut changes = Vec::with_capacity(alloc, tiplocs.len())?;
    while let Some(tiploc) = tiplocs.pop() {
        push_reversed(&mut changes, tiploc, last_of(&mut marks))?;
    }
    changes.reverse();
    Ok(changes)
}

/// Appends what a TI, a TA or a TD does, the last first.
fn push_reversed(
    changes: &mut Vec<RecordChange<[u8; 7], Tiploc>>,
    tiploc: Tiploc,
    mark: TiplocMark,
) -> Result<(), AllocError>
    ensures { IfOk result (λ _. changes.new.items ≡ changes.old.items
        ++ reverse (tiploc_changes_by mark.transaction mark.line mark.tiploc tiploc)) }
{
    let line = mark.line;
    let own = mark.tiploc;
    match mark.transaction {
        Transaction::New => push(changes, line, Action::New(tiploc)),
        Transaction::Deleted => push(changes, line, Action::Deleted(own)),
        Transaction::Revised => {
            if tiploc_key(&tiploc) == own {
                push(changes, line, Action::Revised(tiploc))
            } else {
                push(changes, line, Action::New(tiploc))?;
                push(changes, line, Action::Deleted(own))
            }
        }
    }
}

/// Appends a change.
fn push(
    changes: &mut Vec<RecordChange<[u8; 7], Tiploc>>,
    line: u64,
    action: Action<[u8; 7], Tiploc>,
) -> Result<(), AllocError>
    ensures { IfOk result (λ _. changes.new.items
        ≡ changes.old.items ++ record { line = line; action = action } ∷ []) }
{
    changes.push(RecordChange { line, action })?;
    Ok(())
}

/// The change that line `line` makes by its transaction: it puts this record, or deletes this key.
fn change_by<K: Drop, R: Drop>(
    transaction: Transaction,
    line: u64,
    key: K,
    put: R,
) -> RecordChange<K, R>
    ensures { result ≡ change_by transaction line key put }
{
    let action = match transaction {
        Transaction::New => Action::New(put),
        Transaction::Revised => Action::Revised(put),
        Transaction::Deleted => Action::Deleted(key),
    };
    RecordChange { line, action }
}

impl FromLine for RecordChange<(AssocKey, Day, Stp), PublishedAssociation> {
    type Record = Association;

    ghost use Rattle.cif_feed.specs.{Steps.Marks.IsClosed, Steps.Marks.last_of_association, UpdateParts.IsAssociationChange};

    ghost may = { IsClosed last_of_association };

    ghost is_of = { IsAssociationChange };

    fn from_line(
        association: Association,
        mark: RecordMark,
    ) -> RecordChange<(AssocKey, Day, Stp), PublishedAssociation> {
        let key = (association.key.copy(), association.first, mark.letter);
        let published = PublishedAssociation::from_line(association, mark);
        change_by(mark.transaction, mark.line, key, published)
    }
}

impl FromLine for RecordChange<(Uid, Day, Stp), PublishedSchedule> {
    type Record = Schedule;

    ghost use Rattle.cif_feed.specs.{Steps.Marks.IsClosed, Steps.Marks.last_of_schedule, UpdateParts.IsScheduleChange};

    ghost may = { IsClosed last_of_schedule };

    ghost is_of = { IsScheduleChange };

    fn from_line(
        schedule: Schedule,
        mark: RecordMark,
    ) -> RecordChange<(Uid, Day, Stp), PublishedSchedule> {
        let key = (schedule.uid, schedule.first, mark.letter);
        let published = PublishedSchedule::from_line(schedule, mark);
        change_by(mark.transaction, mark.line, key, published)
    }
}
