//! Reading a published extract, or an update, content by content.
ghost use Rattle.std.specs.Prelude.{◌≡◌, ◌<◌, ◌≤◌, ◌+◌, ◌^◌, ◌++◌, ◌∷◌, [], ℕ, List, Some, false, true, length, IfErr, IfOk, OnOk, All};
ghost use Rattle.cif_columns.specs.{Comment.is_comment, Line.IsLine, declared.line_reader.TheConstants.MAX_LINES};
ghost use Rattle.cif_extract.specs.{ReadCall.IsResultOf, Taken.IsNoTrailer};
ghost use Rattle.cif_extract.specs.Steps.Reading.{GoesOnPlainly, HasRead, progress_of};
ghost use Rattle.cif_feed.specs.{FeedFault.reading_feed, FeedLayouts.feed_layouts, FeedRefusal.untaken_fault, RecordLines.is_note};
ghost use Rattle.cif_feed.specs.{RecordLines.record_lines, SpellsFeed.SayFeed, SpellsFeed.feed_parts};
ghost use Rattle.cif_feed.specs.Steps.FeedReading.{HasTakenFeed, IsFeedTaken, IsMarkedTaken, IsNoteTaken, IsOwn, IsStopTaken, read_as};
ghost use Rattle.cif_feed.specs.Steps.Marks.{HasMarks, HaveRoom, own_mark};
ghost use Rattle.cif_feed.specs.declared.{feed_line.Feed.Feed, holidays.HolidayCodes.HolidayCodes};
ghost use Rattle.cif_records.specs.{Kind.kind_in, declared.record.Record.Record};

use crate::feed_line::{read_association, read_basic, read_header, read_tiploc};
use crate::mark::{LineMark, Marks};
use crate::{Feed, FeedFault, HolidayCodes};
use cif_columns::{Content, LINE_WIDTH, Line, LineReader, ReadDevice, Refusal, Source, columns_at};
use cif_extract::{Extract, Fault, Reading, TakeFault};
use cif_records::{Kind, kind_of};
use std::alloc::{AllocError, Global};

/// What the lines of a feed say: the extract of its records, and what they say beyond these.
#[derive(Drop)]
pub(crate) struct FeedExtract {
    pub(crate) extract: Extract,
    pub(crate) marks: Marks,
}

/// What the source's contents say, of which at most `max_lines` may come. `allowed` are the holiday codes
/// that may stand in the feed.
pub(crate) fn read_feed<R: ReadDevice>(
    alloc: Global,
    source: &mut Source<R>,
    max_lines: u64,
    feed: Feed,
    allowed: HolidayCodes,
) -> Result<FeedExtract, FeedFault>
    requires within { max_lines ≤ MAX_LINES }
    // Each record has a mark, and an open end is the last day there is.
    ensures marked { IfOk result (λ feed_extract. HasMarks (feed_parts feed_extract)) }
    ensures reads { IsResultOf R.remaining R.read_errors (reading_feed feed allowed max_lines)
        source.old source.new result }
{
    let mut lines = LineReader::new(max_lines);
    let mut reading = FeedReading::new(alloc);
    let mut line = Line::blank();
    loop {
        if let Some(columns) = lines.columns_ahead()
            && reading.reading.goes_on_plainly(columns)
        {
            reading.take_plain_stop(columns)?;
            lines.pass_line();
            continue;
        }
        match lines.read_content(source, &mut line) {
            Ok(Content::Line) => {
                let number = lines.line_number();
                match reading.take(alloc, feed, allowed, number, &line) {
                    Ok(()) => {}
                    Err(fault) => return Err(fault_at(feed, number, &line, fault)),
                }
            }
            Ok(Content::Comment) => reading.pass_comment(),
            Ok(Content::End) => return reading.finish(lines.line_number()),
            Err(fault) => return Err(FeedFault::from(fault)),
        }
    }
}

/// What the contents so far have come to.
#[derive(Drop)]
pub(crate) struct FeedReading {
    reading: Reading,
    marks: Marks,
    // Whether a BS has come, and a ZZ.
    has_basic: bool,
    has_trailer: bool,
}

impl FeedReading {
    /// The reading of no contents.
    fn new(alloc: Global) -> FeedReading
        ensures { (feed : Feed) (allowed : HolidayCodes) → HasTakenFeed feed allowed [] result }
    {
        FeedReading {
            reading: Reading::new(alloc),
            marks: Marks::new(alloc),
            has_basic: false,
            has_trailer: false,
        }
    }

    /// Counts a comment.
    fn pass_comment(&mut self)
        requires { self.old.marks.passed.comments < MAX_LINES }
        ensures { (feed : Feed) (allowed : HolidayCodes) (contents : List (List ℕ)) (comment : List ℕ)
            → HasTakenFeed feed allowed contents self.old → is_comment comment ≡ true
            → HasTakenFeed feed allowed (contents ++ comment ∷ []) self.new }
    {
        self.marks.passed.comments += 1;
    }

    /// Takes the line of columns that are a plain line of a location on the way, where one may stand.
    #[inline(always)]
    fn take_plain_stop(&mut self, columns: &[u8; LINE_WIDTH]) -> Result<(), AllocError>
        requires { GoesOnPlainly (progress_of self.old.reading).place columns.now }
        ensures { (feed : Feed) (allowed : HolidayCodes) (contents : List (List ℕ))
            → HasTakenFeed feed allowed contents self.old
            → OnOk result (IsStopTaken feed allowed contents columns.now self.new) }
    {
        self.reading.take_plain_stop(columns)
    }

    /// Takes the line of this number. Memory is asked for after its checks.
    fn take(
        &mut self,
        alloc: Global,
        feed: Feed,
        allowed: HolidayCodes,
        number: u64,
        line: &Line,
    ) -> Result<(), TakeFault>
        requires taken { (contents : List (List ℕ))
            × HasTakenFeed feed allowed contents self.old }
        requires room { self.old.marks.passed.notes < MAX_LINES }
        requires counts { HaveRoom self.old.marks.counts }
        requires no_comment { is_comment line.now ≡ false }
        ensures taken { (contents : List (List ℕ)) → HasTakenFeed feed allowed contents self.old
            → number ≡ length contents + 1 → IsFeedTaken feed allowed contents line.now result self.new }
        ensures line { IsLine line.now }
    {
        if is_note(line) {
            return self.take_note();
        }
        let mark = take_record(alloc, &mut self.reading, feed, allowed, number, line)?;
        self.has_basic |= mark.is_of_schedule();
        self.has_trailer |= mark.is_of_trailer();
        Ok(self.marks.add(mark)?)
    }

    /// Counts a note, where one may stand.
    fn take_note(&mut self) -> Result<(), TakeFault>
        requires { self.old.marks.passed.notes < MAX_LINES }
        ensures { IsNoteTaken self.old result self.new }
    {
        if !self.has_basic || self.has_trailer {
            return Err(TakeFault::Refused(Refusal::OutOfOrder));
        }
        self.marks.passed.notes += 1;
        Ok(())
    }

    /// What was read, where these are all contents.
    fn finish(self, lines: u64) -> Result<FeedExtract, FeedFault>
        requires { lines < 2 ^ 32 }
        ensures held { (feed : Feed) (allowed : HolidayCodes) (contents : List (List ℕ))
            → HasTakenFeed feed allowed contents self
            → IfOk result (λ x. SayFeed feed allowed contents (feed_parts x)) }
        ensures truncated { IfErr result (λ fault.
            fault ≡ FeedFault.Extract (Fault.Refused (lines + 1) Refusal.Truncated)) }
        ensures unfinished { (feed : Feed) (allowed : HolidayCodes) (contents : List (List ℕ))
            → HasTakenFeed feed allowed contents self
            → IfErr result (λ _. All (IsNoTrailer (feed_layouts feed allowed)) (record_lines contents)) }
    {
        let FeedReading {
            reading,
            marks,
            has_basic: _,
            has_trailer: _,
        } = self;
        match reading.end() {
            Some(extract) => Ok(FeedExtract { extract, marks }),
            None => Err(FeedFault::Extract(Fault::Refused {
                line: lines + 1,
                why: Refusal::Truncated,
            })),
        }
    }
}

/// Takes the line of this number, and gives its mark. Its kind and its place are judged before its fields, and memory is
/// asked for after them.
fn take_record(
    alloc: Global,
    reading: &mut Reading,
    feed: Feed,
    allowed: HolidayCodes,
    number: u64,
    line: &Line,
) -> Result<LineMark, TakeFault>
    requires read { (records : List Record) × HasRead records (progress_of reading.old) }
    ensures { IsMarkedTaken feed allowed (number, line.now) (progress_of reading.old) result
        (progress_of reading.new) }
{
    let Some(kind) = kind_of(line) else {
        return Err(TakeFault::Refused(Refusal::UnknownRecord));
    };
    if !reading.allows(read_as(feed, kind)) {
        return Err(TakeFault::Refused(Refusal::OutOfOrder));
    }
    match (kind, feed) {
        (Kind::Hd, _) => {
            reading.put_header(read_header(feed, line)?);
            Ok(LineMark::Header(number))
        }
        (Kind::Aa, _) => {
            let (association, mark) = read_association(feed, number, line)?;
            reading.put_association(association)?;
            Ok(LineMark::Association(mark))
        }
        (Kind::Bs, _) => {
            let (terms, mark) = read_basic(feed, allowed, number, line)?;
            reading.put_basic(terms, line)?;
            Ok(LineMark::Schedule(mark))
        }
        (Kind::Ti, _) | (Kind::Ta | Kind::Td, Feed::Update) => {
            let (tiploc, mark) = read_tiploc(feed, kind, number, line);
            reading.put_tiploc(tiploc)?;
            Ok(LineMark::Tiploc(mark))
        }
        _ => take_own(alloc, reading, feed, kind, line),
    }
}

/// Takes a line of this kind that is as in an extract of this profile.
fn take_own(
    alloc: Global,
    reading: &mut Reading,
    feed: Feed,
    kind: Kind,
    line: &Line,
) -> Result<LineMark, TakeFault>
    requires kind { kind_in line.now ≡ Some kind }
    requires own { IsOwn (Some kind) feed }
    requires read { (records : List Record) × HasRead records (progress_of reading.old) }
    ensures { (allowed : HolidayCodes) (number : ℕ)
        → IsMarkedTaken feed allowed (number, line.now) (progress_of reading.old) result
        (progress_of reading.new) }
{
    reading.take(alloc, line)?;
    Ok(own_mark(kind))
}

/// What a line of this kind says beyond its record, where it is as in an extract of this profile.
fn own_mark(kind: Kind) -> LineMark
    ensures { result ≡ own_mark kind }
{
    match kind {
        Kind::Zz => LineMark::Trailer,
        _ => LineMark::Nothing,
    }
}

/// The kind whose place a line of this kind has.
fn read_as(feed: Feed, kind: Kind) -> Kind
    ensures { result ≡ read_as feed kind }
{
    match (feed, kind) {
        (Feed::Update, Kind::Ta | Kind::Td) => Kind::Ti,
        _ => kind,
    }
}

/// The fault of a line that isn't taken, whose number this is.
fn fault_at(feed: Feed, number: u64, line: &Line, fault: TakeFault) -> FeedFault
    ensures { result ≡ untaken_fault feed number (kind_in line.now) fault }
{
    let why = match fault {
        TakeFault::Refused(why) => why,
        TakeFault::Memory => return FeedFault::Extract(Fault::Memory),
    };
    match (feed, why, kind_of(line)) {
        (Feed::Update, Refusal::NotFull, Some(Kind::Hd)) => FeedFault::NotUpdate { line: number },
        (Feed::Update, Refusal::NotFull, _) => FeedFault::BadTransaction { line: number },
        _ => FeedFault::Extract(Fault::Refused { line: number, why }),
    }
}

/// Whether a line is a note, on a train or on a location (the CIF End User Specification).
fn is_note(line: &Line) -> bool
    ensures note { result ≡ is_note line.now }
    ensures line { IsLine line.now }
{
    columns_at(line, 1) == *b"TN" || columns_at(line, 1) == *b"LN"
}
