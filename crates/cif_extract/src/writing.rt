//! Records as plain lines, each with a line feed.
ghost use Rattle.std.specs.Prelude.{◌≡◌, ◌≤◌, ◌++◌, ◌∷◌, [], Some};
ghost use Rattle.cif_columns.specs.{Contents.lines_text, Field.plain_line, Sink.Writes, declared.stp.Stp.TheVariants.P};
ghost use Rattle.cif_extract.specs.Texts.{further_lines, schedule_lines};
ghost use Rattle.cif_records.specs.{Association.association_rows, Header.header_table, Tiploc.tiploc_table, Trailer.trailer_table};

use crate::Body;
use cif_columns::{Day, DaysRun, Line, LineSlice, LineTexts, Sink, Uid, WriteDevice, WriteFault};
use cif_records::{AssocBody, AssocKey, Association, Basic, Header, Tiploc, Trailer};
use std::marker::Model;

/// Appends the plain line of the header and a line feed.
pub fn write_head<W: WriteDevice>(header: &Header, sink: &mut Sink<W>) -> Result<(), WriteFault>
    ensures { Writes W.contents W.write_errors
        (plain_line (header_table header.now) ++ 10 ∷ []) sink.old sink.new result }
{
    sink.write_line(&header.write())
}

/// Appends the plain line of the location and a line feed.
pub fn write_tiploc<W: WriteDevice>(tiploc: &Tiploc, sink: &mut Sink<W>) -> Result<(), WriteFault>
    ensures { Writes W.contents W.write_errors
        (plain_line (tiploc_table tiploc.now) ++ 10 ∷ []) sink.old sink.new result }
{
    sink.write_line(&tiploc.write())
}

/// Appends the plain line of a permanent association and a line feed: transaction type `N`, letter
/// `P`.
pub fn write_association<W: WriteDevice>(
    key: &AssocKey,
    body: &AssocBody,
    first: Day,
    last: Day,
    days: DaysRun,
    sink: &mut Sink<W>,
) -> Result<(), WriteFault>
    requires { first ≤ last }
    ensures { Writes W.contents W.write_errors
        (plain_line (association_rows key.now first last days P (Some body.now)) ++ 10 ∷ []) sink.old sink.new result }
{
    sink.write_line(&Association::permanent_line(key, body, first, last, days))
}

/// Appends the plain lines of a permanent schedule, each with a line feed: BS (transaction type `N`,
/// letter `P`), BX if the body has one, and the journey from LO to LT.
pub fn write_schedule<W: WriteDevice>(
    uid: &Uid,
    body: &Body,
    first: Day,
    last: Day,
    days: DaysRun,
    sink: &mut Sink<W>,
) -> Result<(), WriteFault>
    requires { first ≤ last }
    ensures { Writes W.contents W.write_errors
        (lines_text (schedule_lines uid.now first last days P (Some body.now))) sink.old sink.new result }
{
    ScheduleWriter::of(body).write(uid, first, last, days, sink)
}

/// Writes schedules of one body. The lines that all of them have are made once. A clause sees the body.
#[derive(Drop)]
pub struct ScheduleWriter<'a> {
    body: &'a Body,
    // The line of a BS and those that follow it, as many as there is room for, and the others.
    texts: LineTexts,
    rest: LineSlice<'a>,
}

impl<'a> Model for ScheduleWriter<'a> {
    ghost use Rattle.std.specs.Prelude.{◌≡◌, ◌++◌, drop};
    ghost use Rattle.cif_columns.specs.Contents.{lines_text};
    ghost use Rattle.cif_extract.specs.Body.{BodyLines};

    ghost Value = { BodyLines };

    ghost view = { λ w. w.body.now };

    ghost invariant = { λ w. w.texts.1 ++ lines_text w.rest ≡ lines_text (drop 1 w.body.now) };
}

impl<'a> ScheduleWriter<'a> {
    /// For schedules that have this body.
    pub fn of(body: &'a Body) -> ScheduleWriter<'a>
        ensures { result ≡ body.now }
    {
        let mut texts = LineTexts::new();
        let rest = texts.take(body.further_lines());
        ScheduleWriter { body, texts, rest }
    }

    /// From now on for schedules that have this body.
    pub fn set_body(&mut self, body: &'a Body)
        ensures { self.new ≡ body.now }
    {
        self.body = body;
        self.rest = self.texts.take(body.further_lines());
    }

    /// Appends the plain lines of a schedule, as `write_schedule` does.
    pub fn write<W: WriteDevice>(
        &mut self,
        uid: &Uid,
        first: Day,
        last: Day,
        days: DaysRun,
        sink: &mut Sink<W>,
    ) -> Result<(), WriteFault>
        requires { first ≤ last }
        ensures writes { Writes W.contents W.write_errors
            (lines_text (schedule_lines uid.now first last days P (Some self.old))) sink.old sink.new result }
        ensures body { self.new ≡ self.old }
    {
        let basic = Basic::permanent_line(uid, &self.body.detail_line(), first, last, days);
        self.write_with_basic(&basic, sink)
    }

    /// Appends this line, as the BS of a schedule, and the plain lines of the body, each with a line feed.
    fn write_with_basic<W: WriteDevice>(
        &mut self,
        basic: &Line,
        sink: &mut Sink<W>,
    ) -> Result<(), WriteFault>
        ensures writes { Writes W.contents W.write_errors
            (lines_text (basic.now ∷ further_lines (Some self.old))) sink.old sink.new result }
        ensures body { self.new ≡ self.old }
    {
        self.texts.set_first(basic);
        sink.write_all(self.texts.text())?;
        sink.write_lines(&self.rest)
    }
}

/// Appends the plain line of the trailer and a line feed.
pub fn write_trailer<W: WriteDevice>(sink: &mut Sink<W>) -> Result<(), WriteFault>
    ensures { Writes W.contents W.write_errors
        (plain_line trailer_table ++ 10 ∷ []) sink.old sink.new result }
{
    sink.write_line(&Trailer.write())
}
