//! Reading a whole extract, line by line.
ghost use Rattle.std.specs.Prelude.{◌≡◌, ◌≢◌, ◌<◌, ◌≤◌, ◌+◌, ◌^◌, ◌++◌, ◌∷◌, []};
ghost use Rattle.std.specs.Prelude.{IfErr, IfNone, IfOk, IfSome, IsTrue, List, Ok, OnOk, Some, true, ℕ};
ghost use Rattle.cif_columns.specs.{Line.ArePrintable, Line.IsLine, declared.line_reader.TheConstants.MAX_LINES};
ghost use Rattle.cif_extract.specs.{ExtractParts.extract_parts, ReadCall.IsResultOf, ReadFault.reading_extract};
ghost use Rattle.cif_records.specs.{Association.association_refusal, Basic.basic_refusal, Bodies.has_body, Header.header_refusal};
ghost use Rattle.cif_records.specs.{Kind.kind_in, Record.record_refusal, Tiploc.tiploc_refusal, Trailer.trailer_refusal};

use crate::place::Place;
use crate::{Body, Extract, Fault, Schedule};
use cif_columns::{LINE_WIDTH, Line, LineReader, Lines, ReadDevice, Refusal, Source};
use cif_records::{
    Association, BasicTerms, Detail, Header, Kind, Stop, Tiploc, Trailer, are_plain, is_plain_line,
    kind_of, plain_line_of,
};
use std::alloc::{AllocError, Global};

/// The extract that the source's lines spell, of which at most `max_lines` may come.
///
/// Refused names the first refused line and its first reason; Read comes where the source failed
/// before a refused line was decided, and Memory where what a line says can't be kept. No other
/// fault is answered. After an extract nothing is left in the source.
pub fn read_extract<R: ReadDevice>(
    alloc: Global,
    source: &mut Source<R>,
    max_lines: u64,
) -> Result<Extract, Fault>
    requires within { max_lines ≤ MAX_LINES }
    ensures { IsResultOf R.remaining R.read_errors (reading_extract max_lines)
        source.old source.new result }
{
    let mut lines = LineReader::new(max_lines);
    let mut reading = Reading::new(alloc);
    let mut line = Line::blank();
    loop {
        if let Some(columns) = lines.columns_ahead() {
            if reading.goes_on_plainly(columns) {
                reading.take_plain_stop(columns)?;
                lines.pass_line();
                continue;
            }
            if let Some(kind) = reading.goes_further_plainly(columns) {
                reading.take_plain_further(alloc, kind, columns)?;
                lines.pass_line();
                continue;
            }
        }
        match lines.read_line(source, &mut line) {
            Ok(true) => match reading.take(alloc, &line) {
                Ok(()) => {}
                Err(fault) => return Err(fault.at_line(lines.line_number())),
            },
            Ok(false) => return reading.finish(lines.line_number()),
            Err(fault) => return Err(Fault::from(fault)),
        }
    }
}

/// The state of a reading, for callers that pass lines one by one.
#[derive(Drop)]
pub struct Reading {
    place: Place,
    header: Option<Header>,
    tiplocs: Vec<Tiploc>,
    associations: Vec<Association>,
    schedules: Vec<Schedule>,
    // The terms of the schedule that is being read, if it has a body, and the plain lines of this
    // body so far.
    opened: Option<BasicTerms>,
    lines: Lines,
}

impl Reading {
    ghost use Rattle.cif_extract.specs.{Body.KeepSomeBody, Grammar.AreExtract, Layouts.own_layouts, OrderOfRecords.may_stand};
    ghost use Rattle.cif_extract.specs.{Steps.Reading.no_progress, Steps.Reading.progress_of, Steps.Reading.step, Taken.refusal_at};
    ghost use Rattle.cif_extract.specs.Steps.Reading.{HasLast, HasRead, IsClosed, IsFurther, IsFurtherPlainly, IsKeepable, IsKept, IsStep};
    ghost use Rattle.cif_extract.specs.Steps.Reading.{GoesOnPlainly, IsTaken, Progress, keeping};
    ghost use Rattle.cif_records.specs.{Basic.terms_of, Detail.detail_in, declared.basic.Basic.Basic, declared.record.Record.Record};

    /// The reading of no lines.
    pub fn new(alloc: Global) -> Reading
        ensures { progress_of result ≡ no_progress }
    {
        Reading {
            place: Place::Start,
            header: None,
            tiplocs: Vec::new(alloc),
            associations: Vec::new(alloc),
            schedules: Vec::new(alloc),
            opened: None,
            lines: Lines::new(alloc),
        }
    }

    /// The extract of the records that were read, where these are all; `None` where the trailer is missing.
    pub fn end(self) -> Option<Extract>
        ensures are { (records : List Record) → HasRead records (progress_of self)
            → IfSome result (λ extract. AreExtract records (extract_parts extract)) }
        ensures unfinished { (records : List Record) → HasRead records (progress_of self)
            → IfNone result (self.place ≢ Place.Ended) }
    {
        let Reading {
            place,
            header,
            tiplocs,
            associations,
            schedules,
            opened: _,
            lines: _,
        } = self;
        match (place, header) {
            (Place::Ended, Some(header)) => Some(Extract {
                header,
                tiplocs,
                associations,
                schedules,
            }),
            // No extract ends without a header.
            _ => None,
        }
    }

    /// Takes one line more. Its kind and its place are judged before its fields, and memory is
    /// asked for after them. After a fault nothing is said of the reading.
    // It is called for each line. What few lines need is kept out of the loop that it is inlined into.
    #[inline(always)]
    #[tactic(auto, unfolding(cif_records::specs::Record::record_refusal))]
    pub fn take(&mut self, alloc: Global, line: &Line) -> Result<(), TakeFault>
        requires { (records : List Record) × HasRead records (progress_of self.old) }
        ensures taken { IsTaken (refusal_at own_layouts self.old.place line.now)
            line.now (progress_of self.old) result (progress_of self.new) }
        ensures line { IsLine line.now }
    {
        let Some(kind) = kind_of(line) else {
            return Err(TakeFault::Refused(Refusal::UnknownRecord));
        };
        if !self.allows(kind) {
            return Err(TakeFault::Refused(Refusal::OutOfOrder));
        }
        match kind {
            Kind::Li | Kind::Cr | Kind::Lo | Kind::Bx => self.take_further(kind, line),
            Kind::Lt => self.take_terminus(alloc, line),
            Kind::Bs => self.take_basic(line),
            Kind::Aa => self.take_association(line),
            Kind::Ti => self.take_tiploc(line),
            Kind::Ta | Kind::Td => Err(TakeFault::Refused(Refusal::NotFull)),
            Kind::Hd => self.take_header(line),
            Kind::Zz => self.take_trailer(line),
        }
    }

    /// Whether a record of this kind may come now.
    #[inline(always)]
    pub fn allows(&self, kind: Kind) -> bool
        ensures { result ≡ may_stand self.now.place kind }
    {
        self.place.allows(kind)
    }

    /// Whether these columns are a plain line of a location on the way, where one may stand.
    #[inline(always)]
    pub fn goes_on_plainly(&self, columns: &[u8; LINE_WIDTH]) -> bool
        ensures { IsTrue result → GoesOnPlainly self.now.place columns.now }
    {
        Stop::are_plain(columns) && matches!(self.place, Place::Journey)
    }

    /// Takes the line of such columns, as `take` does. Nearly three in four lines are such, and are kept from
    /// where they were read.
    #[inline(always)]
    pub fn take_plain_stop(&mut self, columns: &[u8; LINE_WIDTH]) -> Result<(), AllocError>
        requires { GoesOnPlainly self.old.place columns.now }
        ensures { OnOk result (IsTaken (refusal_at own_layouts self.old.place columns.now)
            columns.now (progress_of self.old) (Ok tt) (progress_of self.new)) }
    {
        self.keep_columns(columns)
    }

    /// The kind of the BX, LO, CR or LT whose plain line these columns are, where one may stand.
    pub fn goes_further_plainly(&self, columns: &[u8; LINE_WIDTH]) -> Option<Kind>
        ensures { IfSome result (IsFurtherPlainly self.now.place columns.now) }
    {
        match columns {
            [b'L', b'O', ..] => self.further_plainly(Kind::Lo, columns),
            [b'B', b'X', ..] => self.further_plainly(Kind::Bx, columns),
            [b'C', b'R', ..] => self.further_plainly(Kind::Cr, columns),
            [b'L', b'T', ..] => self.further_plainly(Kind::Lt, columns),
            _ => None,
        }
    }

    /// The kind, if these columns are a plain line of it, where one may stand.
    #[inline(always)]
    fn further_plainly(&self, kind: Kind, columns: &[u8; LINE_WIDTH]) -> Option<Kind>
        requires { kind ≢ Kind.Lt → IsFurther (Some kind) }
        ensures { IfSome result (IsFurtherPlainly self.now.place columns.now) }
    {
        if self.allows(kind) && are_plain(kind, columns) {
            Some(kind)
        } else {
            None
        }
    }

    /// Takes the line of such columns, as `take` does. It is kept from where it was read.
    #[inline(always)]
    pub fn take_plain_further(
        &mut self,
        alloc: Global,
        kind: Kind,
        columns: &[u8; LINE_WIDTH],
    ) -> Result<(), AllocError>
        requires plain { IsFurtherPlainly self.old.place columns.now kind }
        requires read { (records : List Record) × HasRead records (progress_of self.old) }
        ensures { OnOk result (IsTaken (refusal_at own_layouts self.old.place columns.now)
            columns.now (progress_of self.old) (Ok tt) (progress_of self.new)) }
    {
        match kind {
            Kind::Lt => {
                self.keep_columns(columns)?;
                self.end_schedule(alloc)
            }
            _ => {
                self.place = self.place.after_further(kind);
                self.keep_columns(columns)
            }
        }
    }

    /// The extract, where these are all lines, so many.
    fn finish(self, count: u64) -> Result<Extract, Fault>
        requires { count < 2 ^ 32 }
        ensures are { (records : List Record) → HasRead records (progress_of self)
            → IfOk result (λ extract. AreExtract records (extract_parts extract)) }
        ensures truncated { IfErr result (λ fault. fault ≡ Fault.Refused (count + 1) Refusal.Truncated) }
        ensures unfinished { (records : List Record) → HasRead records (progress_of self)
            → IfErr result (λ _. self.place ≢ Place.Ended) }
    {
        match self.end() {
            Some(extract) => Ok(extract),
            None => Err(Fault::Refused {
                line: count + 1,
                why: Refusal::Truncated,
            }),
        }
    }

    /// Takes the header.
    #[inline(never)]
    fn take_header(&mut self, line: &Line) -> Result<(), TakeFault>
        ensures { IsTaken (header_refusal line.now) line.now (progress_of self.old) result
            (progress_of self.new) }
    {
        self.put_header(Header::read(line)?);
        Ok(())
    }

    /// Puts a header that was read.
    #[inline(always)]
    pub fn put_header(&mut self, header: Header)
        ensures { progress_of self.new ≡ step (progress_of self.old) (Record.Header header) }
    {
        self.header = Some(header);
        self.place = Place::Tiplocs;
    }

    /// Takes a location.
    #[inline(never)]
    fn take_tiploc(&mut self, line: &Line) -> Result<(), TakeFault>
        ensures { IsTaken (tiploc_refusal line.now) line.now (progress_of self.old) result
            (progress_of self.new) }
    {
        Ok(self.put_tiploc(Tiploc::read(line)?)?)
    }

    /// Puts a location that was read.
    #[inline(always)]
    pub fn put_tiploc(&mut self, tiploc: Tiploc) -> Result<(), AllocError>
        ensures { OnOk result (progress_of self.new ≡ step (progress_of self.old) (Record.Tiploc tiploc)) }
    {
        self.place = Place::Tiplocs;
        Ok(self.tiplocs.push(tiploc)?)
    }

    /// Takes an association.
    #[inline(never)]
    fn take_association(&mut self, line: &Line) -> Result<(), TakeFault>
        ensures { IsTaken (association_refusal line.now) line.now (progress_of self.old) result
            (progress_of self.new) }
    {
        Ok(self.put_association(Association::read(line)?)?)
    }

    /// Puts an association that was read.
    #[inline(always)]
    pub fn put_association(&mut self, association: Association) -> Result<(), AllocError>
        ensures { OnOk result (progress_of self.new ≡ step (progress_of self.old) (Record.Association association)) }
    {
        self.place = Place::Associations;
        Ok(self.associations.push(association)?)
    }

    /// Takes a BS, which begins a schedule.
    #[inline(never)]
    fn take_basic(&mut self, line: &Line) -> Result<(), TakeFault>
        ensures { IsTaken (basic_refusal line.now) line.now (progress_of self.old) result
            (progress_of self.new) }
    {
        Ok(self.put_basic(BasicTerms::read(line)?, line)?)
    }

    /// Puts a BS whose terms were read of the line, which begins a schedule.
    #[inline(always)]
    pub fn put_basic(&mut self, terms: BasicTerms, line: &Line) -> Result<(), AllocError>
        ensures { (b : Basic) → terms ≡ terms_of b
            → (has_body b.letter ≡ true → b.detail ≡ Some (detail_in line.now))
            → OnOk result (IsKeepable (Record.Basic b)
            × (progress_of self.new ≡ step (progress_of self.old) (Record.Basic b))) }
    {
        if terms.has_body() {
            self.lines.clear();
            self.opened = Some(terms);
            self.place = Place::Basic;
            self.keep_plain(&Detail::line_of(line))
        } else {
            self.opened = None;
            self.place = Place::Cancelled;
            Ok(self.schedules.push(Schedule::of(terms, None))?)
        }
    }

    /// Takes a BX, or a location or a change of a journey, but for its last location.
    fn take_further(&mut self, kind: Kind, line: &Line) -> Result<(), TakeFault>
        requires kind { kind_in line.now ≡ Some kind }
        requires further { IsFurther (kind_in line.now) }
        ensures { IsTaken (record_refusal line.now) line.now (progress_of self.old) result
            (progress_of self.new) }
    {
        self.place = self.place.after_further(kind);
        self.keep(kind, line)
    }

    /// Takes an LT, which ends a schedule.
    fn take_terminus(&mut self, alloc: Global, line: &Line) -> Result<(), TakeFault>
        requires kind { kind_in line.now ≡ Some Kind.Lt }
        requires journey { self.old.place ≡ Place.Journey }
        requires read { (records : List Record) × HasRead records (progress_of self.old) }
        ensures { IsTaken (record_refusal line.now) line.now (progress_of self.old) result
            (progress_of self.new) }
    {
        self.keep(Kind::Lt, line)?;
        Ok(self.end_schedule(alloc)?)
    }

    /// Ends the schedule whose last line is kept.
    #[inline(never)]
    fn end_schedule(&mut self, alloc: Global) -> Result<(), AllocError>
        requires { (before : Progress) × (line : List ℕ) × HasLast before line (progress_of self.old) }
        ensures { (before : Progress) (line : List ℕ) → HasLast before line (progress_of self.old)
            → OnOk result (IsStep before line (progress_of self.new)) }
    {
        self.place = Place::Schedules;
        match self.opened.take() {
            Some(terms) => self.close(alloc, terms),
            None => Ok(()),
        }
    }

    /// Ends the schedule of these terms, whose body's lines are kept.
    fn close(&mut self, alloc: Global, terms: BasicTerms) -> Result<(), AllocError>
        requires lines { KeepSomeBody self.old.lines }
        requires runs { true ≡ has_body terms.letter }
        ensures { OnOk result (IsClosed (progress_of self.old) terms (progress_of self.new)) }
    {
        let body = Body::of_lines(alloc, &self.lines)?;
        Ok(self.schedules.push(Schedule::of(terms, Some(body)))?)
    }

    /// Keeps the line of a record of this kind as its plain line, if the schedule that is being read
    /// has a body.
    #[inline(always)]
    fn keep(&mut self, kind: Kind, line: &Line) -> Result<(), TakeFault>
        requires { kind_in line.now ≡ Some kind }
        ensures { IsKept (record_refusal line.now) line.now (progress_of self.old) result
            (progress_of self.new) }
    {
        // `plain_line_of` alone would do, but most lines are plain, and need no record.
        if is_plain_line(kind, line) {
            Ok(self.keep_plain(line)?)
        } else {
            Ok(self.keep_plain(&plain_line_of(kind, line)?)?)
        }
    }

    /// Keeps a plain line, if the schedule that is being read has a body.
    #[inline(always)]
    fn keep_plain(&mut self, line: &Line) -> Result<(), AllocError>
        ensures { OnOk result (progress_of self.new ≡ keeping (progress_of self.old) line.now) }
    {
        self.keep_columns(line.bytes())
    }

    /// Keeps the plain line of these columns in the open body.
    #[inline(always)]
    fn keep_columns(&mut self, columns: &[u8; LINE_WIDTH]) -> Result<(), AllocError>
        requires { ArePrintable columns.now }
        ensures { OnOk result (progress_of self.new ≡ keeping (progress_of self.old) columns.now) }
    {
        if self.opened.is_some() {
            self.lines.push_columns(columns)?;
        }
        Ok(())
    }

    /// Takes the trailer.
    #[inline(never)]
    fn take_trailer(&mut self, line: &Line) -> Result<(), TakeFault>
        ensures { IsTaken (trailer_refusal line.now) line.now (progress_of self.old) result
            (progress_of self.new) }
    {
        let _ = Trailer::read(line)?;
        self.place = Place::Ended;
        Ok(())
    }
}

/// Why a line is not taken into what was read.
#[derive(Drop)]
pub enum TakeFault {
    /// It is refused.
    Refused(Refusal),
    /// Memory ran out.
    Memory,
}

impl From<Refusal> for TakeFault {
    ghost use Rattle.cif_extract.specs.declared.reading.TakeFault.TheVariants.{Refused};

    ghost from_gives = { λ why fault. fault ≡ Refused why };

    fn from(why: Refusal) -> TakeFault {
        TakeFault::Refused(why)
    }
}

impl From<AllocError> for TakeFault {
    ghost use Rattle.cif_extract.specs.declared.reading.TakeFault.TheVariants.{Memory};

    ghost from_gives = { λ _ fault. fault ≡ Memory };

    fn from(_error: AllocError) -> TakeFault {
        TakeFault::Memory
    }
}

impl TakeFault {
    ghost use Rattle.cif_extract.specs.Steps.Reading.{fault_at_line};

    /// The fault, at the line of this number.
    fn at_line(self, number: u64) -> Fault
        ensures { result ≡ fault_at_line number self }
    {
        match self {
            TakeFault::Refused(why) => Fault::Refused { line: number, why },
            TakeFault::Memory => Fault::Memory,
        }
    }
}
