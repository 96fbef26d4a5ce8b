//! Published extracts: their records, reading and writing them.
ghost use Rattle.std.specs.Prelude.{◌≡◌, ◌≢◌, ◌≤◌, ◌+◌, ◌++◌, ◌∷◌, [], IfOk, IsTrue};
ghost use Rattle.cif_columns.specs.{Line.ArePrintable, declared.line_reader.TheConstants.MAX_LINES};
ghost use Rattle.cif_extract.specs.ReadCall.{IsResultOf};
ghost use Rattle.cif_feed.specs.{FromLines.ArePairs, FromLines.AreTriples, LastDay.last_day};
ghost use Rattle.cif_feed.specs.WrittenOver.{with_code, with_columns, with_open_end};

use crate::feed_reading::{FeedExtract, read_feed};
use crate::mark::RecordMark;
use crate::written::{Written, write_records, write_schedule};
use crate::{Feed, FeedFault, HolidayCode, HolidayCodes, Passed, UpdateCounts};
use cif_columns::{Line, LineTexts, ReadDevice, Sink, Source, WriteDevice, WriteFault};
use cif_extract::{Extract, Schedule};
use cif_records::{Association, Header, Tiploc};
use std::alloc::{AllocError, Global};

/// An association of a published extract.
#[derive(Drop)]
pub struct PublishedAssociation {
    /// The association of this profile. Where its end is open, its last date is the last day there is.
    pub association: Association,
    /// Whether its end is open: its last date is written `999999`.
    pub open_end: bool,
    ghost closed: { IsTrue open_end → association.last ≡ last_day },
}

/// A schedule of a published extract.
#[derive(Drop)]
pub struct PublishedSchedule {
    /// The schedule of this profile. Where its end is open, its last date is the last day there is.
    pub schedule: Schedule,
    /// Whether its end is open: its last date is written `999999`.
    pub open_end: bool,
    /// Its holiday code, column 29 of its BS.
    pub code: Option<HolidayCode>,
    ghost closed: { IsTrue open_end → schedule.last ≡ last_day },
}

/// A published extract: the records of a full extract, in their order and with repeats, with open ends and
/// holiday codes.
#[derive(Drop)]
pub struct PublishedExtract {
    /// Its header, which has its window.
    pub header: Header,
    /// The locations.
    pub tiplocs: Vec<Tiploc>,
    /// The associations.
    pub associations: Vec<PublishedAssociation>,
    /// The schedules.
    pub schedules: Vec<PublishedSchedule>,
    /// How many lines it had as it was read, by what they do.
    pub counts: UpdateCounts,
    /// What was passed over as it was read.
    pub passed: Passed,
}

impl PublishedExtract {
    ghost use Rattle.cif_columns.specs.Sink.{Writes};
    ghost use Rattle.cif_feed.specs.PublishedParts.{SayPublished, published_parts, published_text, reading_published};
    ghost use Rattle.cif_feed.specs.{SpellsFeed.feed_parts, Steps.Marks.HasMarks};

    /// The published extract that the source's contents spell, of which at most `max_lines` may come.
    /// `allowed` are the holiday codes that may stand in it.
    ///
    /// A fault names the first refused content and its first reason; Read comes where the source
    /// failed before a refused content was decided, and Memory where what a line says can't be kept.
    /// No other fault is answered. After an extract nothing is left in the source.
    pub fn read<R: ReadDevice>(
        alloc: Global,
        source: &mut Source<R>,
        max_lines: u64,
        allowed: HolidayCodes,
    ) -> Result<PublishedExtract, FeedFault>
        requires within { max_lines ≤ MAX_LINES }
        ensures { IsResultOf R.remaining R.read_errors (reading_published allowed max_lines)
            source.old source.new result }
    {
        let lines = read_feed(alloc, source, max_lines, Feed::Full, allowed)?;
        Ok(PublishedExtract::of_lines(alloc, lines)?)
    }

    /// What these lines say.
    fn of_lines(alloc: Global, lines: FeedExtract) -> Result<PublishedExtract, AllocError>
        requires { HasMarks (feed_parts lines) }
        ensures says { IfOk result (λ x. SayPublished (feed_parts lines) (published_parts x)) }
        ensures counts { IfOk result (λ x. x.counts ≡ lines.marks.counts) }
        ensures passed { IfOk result (λ x. x.passed ≡ lines.marks.passed) }
    {
        let FeedExtract { extract, marks } = lines;
        let Extract {
            header,
            tiplocs,
            associations,
            schedules,
        } = extract;
        Ok(PublishedExtract {
            header,
            tiplocs,
            associations: from_lines(alloc, associations, marks.associations)?,
            schedules: from_lines(alloc, schedules, marks.schedules)?,
            counts: marks.counts,
            passed: marks.passed,
        })
    }

    /// Appends its text, each line with a line feed: plain lines, but for open ends and holiday codes. It
    /// takes no memory.
    pub fn write<W: WriteDevice>(&self, sink: &mut Sink<W>) -> Result<(), WriteFault>
        ensures { Writes W.contents W.write_errors
            (published_text (published_parts self.now)) sink.old sink.new result }
    {
        write_records(
            &self.header,
            self.tiplocs.as_slice(),
            self.associations.as_slice(),
            self.schedules.as_slice(),
            sink,
        )
    }
}

/// The line, with an open end in the six columns from `first` on, if there is one.
fn with_open_end(open_end: bool, first: usize, line: &Line) -> Line
    requires from_one { 1 ≤ first }
    requires within { first ≤ 75 }
    ensures { result ≡ with_open_end open_end first line.now }
{
    if open_end {
        with_columns(line, first, b"999999")
    } else {
        *line
    }
}

/// The line, with a holiday code in column 29, if there is one.
fn with_code(code: Option<HolidayCode>, line: &Line) -> Line
    ensures { result ≡ with_code code line.now }
{
    match code {
        Some(code) => with_columns(line, 29, &[code.write()]),
        None => *line,
    }
}

/// The line with these columns, from `first` on, in place of its own.
fn with_columns<const N: usize>(line: &Line, first: usize, columns: &[u8; N]) -> Line
    requires from_one { 1 ≤ first }
    requires within { first + N ≤ 81 }
    requires printable { ArePrintable columns.now }
    ensures { result ≡ with_columns first columns.now line.now }
{
    let mut bytes = *line.bytes();
    bytes[first - 1..first - 1 + N].copy_from_slice(columns);
    Line::of_printable(&bytes)
}

impl Written for PublishedAssociation {
    ghost use Rattle.cif_feed.specs.Steps.Written.{published_association_text};

    ghost text = { published_association_text };

    fn write<W: WriteDevice>(
        &self,
        _texts: &mut LineTexts,
        sink: &mut Sink<W>,
    ) -> Result<(), WriteFault> {
        let association = &self.association;
        let line = association.line_on(association.first, association.last);
        sink.write_line(&with_open_end(self.open_end, 22, &line))
    }
}

impl Written for PublishedSchedule {
    ghost use Rattle.cif_feed.specs.Steps.Written.{published_schedule_text};

    ghost text = { published_schedule_text };

    fn write<W: WriteDevice>(
        &self,
        texts: &mut LineTexts,
        sink: &mut Sink<W>,
    ) -> Result<(), WriteFault> {
        let schedule = &self.schedule;
        let line = schedule.line_on(schedule.first, schedule.last);
        let basic = with_code(self.code, &with_open_end(self.open_end, 16, &line));
        write_schedule(&basic, schedule.body.as_ref(), texts, sink)
    }
}

/// What is made of a record and the mark of its line.
pub(crate) trait FromLine {
    /// The record of the line.
    type Record: Drop;

    ghost use Rattle.cif_feed.specs.declared.mark.RecordMark.{RecordMark};

    // The record and the mark can be those of one line.
    ghost may: { Self.Record → RecordMark → Type 0 };

    // It is made of them.
    ghost is_of: { Self.Record → RecordMark → Self → Type 0 };

    /// What is made of this record and this mark.
    fn from_line(entry: Self::Record, mark: RecordMark) -> Self
        requires { may entry mark }
        ensures { is_of entry mark result };
}

/// What is made of these records and the marks of their lines, one by one.
pub(crate) fn from_lines<T: FromLine + Drop>(
    alloc: Global,
    mut entries: Vec<T::Record>,
    mut marks: Vec<RecordMark>,
) -> Result<Vec<T>, AllocError>
    requires { ArePairs T.may entries.items marks.items }
    ensures { IfOk result (λ made. AreTriples T.is_of entries.items marks.items made.items) }
{
    let mut made = Vec::with_capacity(alloc, entries.len())?;
    while let Some(entry) = entries.pop() {
        made.push(T::from_line(entry, last_of(&mut marks)))?;
    }
    made.reverse();
    Ok(made)
}

/// Takes the last of the marks.
pub(crate) fn last_of<M: Drop>(marks: &mut Vec<M>) -> M
    requires { marks.old.items ≢ [] }
    ensures { marks.old.items ≡ marks.new.items ++ result ∷ [] }
{
    match marks.pop() {
        Some(mark) => mark,
        None => unreachable!(),
    }
}

impl FromLine for PublishedAssociation {
    type Record = Association;

    ghost use Rattle.cif_feed.specs.{PublishedParts.IsPublishedAssociation, Steps.Marks.IsClosed, Steps.Marks.last_of_association};

    ghost may = { IsClosed last_of_association };

    ghost is_of = { IsPublishedAssociation };

    fn from_line(association: Association, mark: RecordMark) -> PublishedAssociation {
        PublishedAssociation {
            association,
            open_end: mark.open_end,
        }
    }
}

impl FromLine for PublishedSchedule {
    type Record = Schedule;

    ghost use Rattle.cif_feed.specs.{PublishedParts.IsPublishedSchedule, Steps.Marks.IsClosed, Steps.Marks.last_of_schedule};

    ghost may = { IsClosed last_of_schedule };

    ghost is_of = { IsPublishedSchedule };

    fn from_line(schedule: Schedule, mark: RecordMark) -> PublishedSchedule {
        PublishedSchedule {
            schedule,
            open_end: mark.open_end,
            code: mark.code,
        }
    }
}
