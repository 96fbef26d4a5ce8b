//! The canonical form of an extract: its records, its counts and its text.
ghost use Rattle.std.specs.Prelude.{◌≡◌, ◌↔◌, ◌<◌, All, IfErr, IsTrue, Some, length};
ghost use Rattle.std.specs.List.{flat_map};
ghost use Rattle.cif_calendar.specs.{Applies.IsAmongDates, Entries.schedule_entries, Keys.keyed};
ghost use Rattle.cif_columns.specs.Sink.{Writes};
ghost use Rattle.cif_extract.specs.declared.fault.Fault.TheVariants.{Write};
ghost use Rattle.cif_canon.specs.{Appended.IsAppended, Counts.counts_line};
ghost use Rattle.cif_canon.specs.Steps.Texts.{HasRecord, body_at, record_at, run_text, schedule_run_text};

use crate::extract_runs::AT_ONCE;
use crate::writing::{Texts, answer, write_each};
use arrayvec::ArrayString;
use cif_calendar::{Dates, Entry};
use cif_columns::{Day, Line, LineSlice, Sink, Uid, WriteDevice, WriteFault};
use cif_extract::{
    Body, Extract, Fault, Schedule, ScheduleWriter, write_head, write_tiploc, write_trailer,
};
use cif_records::{AssocBody, AssocKey, Association, Basic, Tiploc};
use cif_weeks::Run;
use itoa::Buffer;
use std::marker::Model;

/// The canonical form of an extract, from which its bodies are borrowed: a clause sees its text, its
/// lines and its counts.
#[derive(Drop)]
pub struct Canon<'a> {
    pub(crate) extract: &'a Extract,
    /// The locations, each once, rising.
    pub(crate) tiplocs: Vec<Tiploc>,
    /// The records of associations, rising by key and first date. The source of each is the
    /// position of an association with its key and body.
    pub(crate) associations: Vec<Run>,
    /// The records of schedules, likewise, by UID and first date.
    pub(crate) schedules: Vec<Run>,
}

impl<'a> Model for Canon<'a> {
    ghost use Rattle.std.specs.Prelude.{All, length};
    ghost use Rattle.cif_extract.specs.ExtractParts.{extract_parts};
    ghost use Rattle.cif_canon.specs.{Canon.CanonParts, Steps.Texts.HasRecord, Steps.Texts.canon_lines, Steps.Texts.canon_text};
    ghost use Rattle.cif_calendar.specs.Entries.{association_entries, schedule_entries};

    ghost Value = { CanonParts };

    ghost view = { λ c. record {
      text = canon_text (extract_parts c.extract.now) c.tiplocs.items c.associations.items c.schedules.items;
      lines = canon_lines (extract_parts c.extract.now) c.tiplocs.items c.associations.items c.schedules.items;
      counts = record {
        tiplocs = length c.tiplocs.items;
        associations = length c.associations.items;
        schedules = length c.schedules.items;
      };
    } };

    ghost invariant = { λ c.
        All (HasRecord (association_entries c.extract.now.associations.items)) c.associations.items
        × All (HasRecord (schedule_entries c.extract.now.schedules.items)) c.schedules.items };
}

impl<'a> Canon<'a> {
    /// How many records the canonical form has, by kind.
    pub fn counts(&self) -> Counts
        ensures { result ≡ self.now.counts }
    {
        Counts {
            tiplocs: self.tiplocs.len() as u64,
            associations: self.associations.len() as u64,
            schedules: self.schedules.len() as u64,
        }
    }

    /// Appends the canonical text: the plain lines of the header, the locations, the associations,
    /// the schedules and the trailer, each with a line feed.
    pub fn write<W: WriteDevice>(&self, sink: &mut Sink<W>) -> Result<(), Fault>
        ensures writes { Writes W.contents W.write_errors self.now.text sink.old sink.new result }
        ensures fault { IfErr result (λ fault. fault ≡ Write) }
    {
        // The sink keeps the failure of each part.
        let extract = self.extract;
        let _ = write_head(&extract.header, sink);
        write_each(&PlainLines, self.tiplocs.as_slice(), sink);
        write_runs(
            &PlainLines,
            extract.associations.as_slice(),
            self.associations.as_slice(),
            sink,
        );
        write_schedules(
            extract.schedules.as_slice(),
            self.schedules.as_slice(),
            sink,
        );
        let _ = write_trailer(sink);
        answer(sink)
    }
}

/// The bytes of the longest line: three numbers of twenty digits each.
const LONGEST_COUNTS: usize = 106;

/// The numbers of records of an extract, by kind; its header and its trailer aren't counted.
#[derive(Clone, Copy, Debug)]
pub struct Counts {
    /// The locations, TI.
    pub tiplocs: u64,
    /// The associations, AA.
    pub associations: u64,
    /// The schedules, each with its BS.
    pub schedules: u64,
}

/// Appends the line that says how many records there are, with its line feed.
pub fn write_counts<W: WriteDevice>(counts: &Counts, sink: &mut Sink<W>) -> Result<(), WriteFault>
    ensures { Writes W.contents W.write_errors (counts_line counts.now) sink.old sink.new result }
{
    sink.write_all(line_of(counts).as_str().as_bytes())
}

/// The line that says how many records there are.
#[tactic(auto, unfolding(crate::specs::Counts::counts_line))]
fn line_of(counts: &Counts) -> ArrayString<LONGEST_COUNTS>
    ensures { result.bytes ≡ counts_line counts.now }
{
    let mut line = ArrayString::new();
    line.push_str("accepted: ");
    line.push_str(Buffer::new().format(counts.tiplocs));
    line.push_str(" tiplocs, ");
    line.push_str(Buffer::new().format(counts.associations));
    line.push_str(" associations, ");
    line.push_str(Buffer::new().format(counts.schedules));
    line.push_str(" schedules\n");
    line
}

/// A record of a canonical form, with its key. A clause sees both.
#[derive(Drop)]
pub struct CanonRecord<'a, K, B> {
    pub(crate) key: &'a K,
    pub(crate) body: &'a B,
    pub(crate) run: &'a Run,
}

impl<'a, K, B> Model for CanonRecord<'a, K, B> {
    ghost use Rattle.std.specs.Prelude.{◌≤◌};
    ghost use Rattle.cif_weeks.specs.{Permanent.Permanent, Runs.record_of};

    ghost Value = { K × Permanent B };

    ghost view = { λ r. (r.key.now, record_of r.run.now r.body.now) };

    ghost invariant = { λ r. r.run.now.first ≤ r.run.now.last };
}

/// Whether the run applies on the day.
pub(crate) fn applies_on(run: &Run, day: Day) -> bool
    ensures { IsTrue result ↔ IsAmongDates run.now.first run.now.last run.now.days day }
{
    let dates = Dates {
        first: run.first,
        last: run.last,
        days: run.days,
    };
    dates.has(day)
}

/// The record of a run, whose source is an entry with its key and its body.
pub(crate) fn record_of<'a, E: Entry>(
    entries: &'a [E],
    run: &'a Run,
) -> CanonRecord<'a, E::Key, E::Body>
    requires { HasRecord (keyed E.key E.terms entries.now) run.now }
    ensures { record_at (keyed E.key E.terms entries.now) run.now ≡ Some result }
{
    let entry = &entries[run.source];
    match entry.body() {
        Some(body) => CanonRecord {
            key: entry.key(),
            body,
            run,
        },
        None => unreachable!(),
    }
}

impl<'a> CanonRecord<'a, AssocKey, AssocBody> {
    ghost use Rattle.cif_canon.specs.Lines.{association_plain};

    /// The line of an association.
    pub fn line(&self) -> Line
        ensures { result ≡ association_plain self.now }
    {
        let run = self.run;
        Association::permanent_line(self.key, self.body, run.first, run.last, run.days)
    }
}

/// A schedule of a canonical form.
pub type CanonSchedule<'a> = CanonRecord<'a, Uid, Body>;

impl<'a> CanonRecord<'a, Uid, Body> {
    ghost use Rattle.cif_canon.specs.Lines.{schedule_plain};
    ghost use Rattle.cif_weeks.specs.Applies.{Applies};

    /// The line of the BS of a schedule.
    pub fn basic(&self) -> Line
        ensures { result ≡ (schedule_plain self.now).basic }
    {
        let run = self.run;
        let detail = self.body.detail_line();
        Basic::permanent_line(self.key, &detail, run.first, run.last, run.days)
    }

    /// The train.
    pub fn uid(&self) -> &'a Uid
        ensures { result.now ≡ self.now.0 }
    {
        self.key
    }

    /// What runs.
    pub fn body(&self) -> &'a Body
        ensures { result.now ≡ self.now.1.body }
    {
        self.body
    }

    /// The first date on which it runs.
    pub fn first(&self) -> Day
        ensures { result ≡ self.now.1.first }
    {
        self.run.first
    }

    /// Whether it runs on the day.
    pub fn runs_on(&self, day: Day) -> bool
        ensures { IsTrue result ↔ Applies self.now.1 day }
    {
        applies_on(self.run, day)
    }

    /// The lines that follow its BS.
    pub fn further(&self) -> LineSlice<'a>
        ensures { result ≡ (schedule_plain self.now).further }
    {
        self.body.further_lines()
    }
}

/// Appends the texts of the runs' records.
pub(crate) fn write_runs<'a, E: Entry, L: Texts<CanonRecord<'a, E::Key, E::Body>>, W: WriteDevice>(
    texts: &L,
    entries: &'a [E],
    runs: &'a [Run],
    sink: &mut Sink<W>,
)
    requires { All (HasRecord (keyed E.key E.terms entries.now)) runs.now }
    ensures { IsAppended W.contents W.write_errors
        (flat_map (run_text (L.text texts.now) (keyed E.key E.terms entries.now)) runs.now)
        sink.old sink.new }
{
    for run in runs {
        texts.write(&record_of(entries, run), sink);
    }
}

/// Appends the lines of the runs' schedules.
// Inlined, it would keep the text of a body, 5 KiB, on the stack while the extract is read.
#[inline(never)]
fn write_schedules<W: WriteDevice>(schedules: &[Schedule], runs: &[Run], sink: &mut Sink<W>)
    requires { All (HasRecord (schedule_entries schedules.now)) runs.now }
    ensures { IsAppended W.contents W.write_errors
        (flat_map (schedule_run_text (schedule_entries schedules.now)) runs.now) sink.old sink.new }
{
    let Some(first) = runs.first() else {
        return;
    };
    let mut source = first.source;
    let mut writer = ScheduleWriter::of(body_of(schedules, first));
    for (at, run) in runs.iter().enumerate() {
        look_ahead_at(schedules, runs, at);
        set_body(schedules, run, &mut source, &mut writer);
        let uid = &schedules[run.source].uid;
        let _ = writer.write(uid, run.first, run.last, run.days, sink);
    }
}

/// The body of the run's schedule.
pub(crate) fn body_of<'a>(schedules: &'a [Schedule], run: &Run) -> &'a Body
    requires { HasRecord (schedule_entries schedules.now) run.now }
    ensures { body_at schedules.now run.now.source ≡ Some result.now }
{
    match &schedules[run.source].body {
        Some(body) => body,
        None => unreachable!(),
    }
}

/// Looks at the bodies of the schedules of the next runs, `AT_ONCE` of them, each time that as many are passed.
pub(crate) fn look_ahead_at(schedules: &[Schedule], runs: &[Run], at: usize)
    requires records { All (HasRecord (schedule_entries schedules.now)) runs.now }
    requires position { at < length runs.now }
{
    if at % AT_ONCE == 0 {
        look_ahead(schedules, &runs[at..runs.len().min(at + AT_ONCE)]);
    }
}

/// Looks at the bodies of the runs' schedules. Where a body lies is known once its schedule has come from memory:
/// so all schedules come first.
fn look_ahead(schedules: &[Schedule], runs: &[Run])
    requires { All (HasRecord (schedule_entries schedules.now)) runs.now }
{
    for run in runs {
        let _ = body_of(schedules, run);
    }
    for run in runs {
        match &schedules[run.source].body {
            Some(body) if body.prefetch() => {}
            _ => unreachable!(),
        }
    }
}

/// Gives the writer the body of the run's schedule. It has that of the schedule at `source`: more than a third
/// of the records have the body of the record before.
fn set_body<'a>(
    schedules: &'a [Schedule],
    run: &Run,
    source: &mut usize,
    writer: &mut ScheduleWriter<'a>,
)
    requires record { HasRecord (schedule_entries schedules.now) run.now }
    requires body { body_at schedules.now source.old ≡ Some writer.old }
    ensures source { source.new ≡ run.now.source }
    ensures body { body_at schedules.now source.new ≡ Some writer.new }
{
    if *source != run.source {
        *source = run.source;
        writer.set_body(body_of(schedules, run));
    }
}

/// The plain lines of records, as an extract has them.
#[derive(Clone, Copy)]
pub(crate) struct PlainLines;

impl Texts<Tiploc> for PlainLines {
    ghost use Rattle.cif_canon.specs.Steps.Texts.{tiploc_text};

    ghost text = { λ lines. tiploc_text };

    fn write<W: WriteDevice>(&self, item: &Tiploc, sink: &mut Sink<W>) {
        let _ = write_tiploc(item, sink);
    }
}

impl<'a> Texts<CanonRecord<'a, AssocKey, AssocBody>> for PlainLines {
    ghost use Rattle.cif_canon.specs.Steps.Texts.{association_text};

    ghost text = { λ lines. association_text };

    fn write<W: WriteDevice>(
        &self,
        item: &CanonRecord<'a, AssocKey, AssocBody>,
        sink: &mut Sink<W>,
    ) {
        let _ = sink.write_line(&item.line());
    }
}
