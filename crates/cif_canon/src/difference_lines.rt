//! The plain lines of the differences of two extracts, each behind the mark of its side.
ghost use Rattle.std.specs.Prelude.{◌≡◌, ◌∷◌, [], All, IfErr};
ghost use Rattle.std.specs.List.{flat_map};
ghost use Rattle.cif_calendar.specs.Keys.{keyed};
ghost use Rattle.cif_columns.specs.Sink.{Writes};
ghost use Rattle.cif_extract.specs.declared.fault.Fault.TheVariants.{Write};
ghost use Rattle.cif_canon.specs.{Appended.IsAppended, Steps.Sides.HasSidedRecord, Steps.Sides.sided_run_text};
ghost use Rattle.cif_canon.specs.Differences.{differences_text, mark, marked_text};

use crate::canonical_form::{CanonRecord, CanonSchedule};
use crate::listed_differences::{Differences, Side, Sided, sided_record};
use crate::writing::{Texts, answer, append, write_each};
use cif_calendar::Entry;
use cif_columns::{Line, LineSlice, Sink, WriteDevice};
use cif_extract::Fault;
use cif_records::{AssocBody, AssocKey, Tiploc};
use cif_weeks::Run;

impl<'a> Differences<'a> {
    /// Appends the plain lines of the differences, each behind `< ` where it is of the left extract
    /// or `> ` where it is of the right one, and with a line feed: the locations, rising; then the
    /// associations and then the schedules, by key and first date, left before right.
    pub fn write<W: WriteDevice>(&self, sink: &mut Sink<W>) -> Result<(), Fault>
        ensures writes { Writes W.contents W.write_errors (differences_text self.now)
            sink.old sink.new result }
        ensures fault { IfErr result (λ fault. fault ≡ Write) }
    {
        let (left, right) = (self.left, self.right);
        write_each(&MarkedLines, self.tiplocs.as_slice(), sink);
        write_sided_runs(
            &MarkedLines,
            left.associations.as_slice(),
            right.associations.as_slice(),
            self.associations.as_slice(),
            sink,
        );
        write_sided_runs(
            &MarkedLines,
            left.schedules.as_slice(),
            right.schedules.as_slice(),
            self.schedules.as_slice(),
            sink,
        );
        answer(sink)
    }
}

/// What is before each line of a side.
fn prefix_of(side: Side) -> &'static str
    ensures { result.now ≡ mark side }
{
    match side {
        Side::Left => "< ",
        Side::Right => "> ",
    }
}

/// Appends the line behind the mark of its side, and a line feed.
fn write_marked<W: WriteDevice>(side: Side, line: &Line, sink: &mut Sink<W>)
    ensures { IsAppended W.contents W.write_errors (marked_text side (line.now ∷ []))
        sink.old sink.new }
{
    append(prefix_of(side), sink);
    let _ = sink.write_line(line);
}

/// Appends the lines, as `write_marked` does.
fn write_marked_lines<W: WriteDevice>(side: Side, lines: &LineSlice<'_>, sink: &mut Sink<W>)
    ensures { IsAppended W.contents W.write_errors (marked_text side lines.now) sink.old sink.new }
{
    let mut rest = lines.copy();
    while !rest.is_empty() {
        write_marked(side, &rest.first(), sink);
        rest = rest.rest();
    }
}

/// The plain lines of locations and of records, behind the marks of their sides.
#[derive(Clone, Copy)]
struct MarkedLines;

impl Texts<Sided<Tiploc>> for MarkedLines {
    ghost use Rattle.cif_canon.specs.Differences.{marked_tiploc};

    ghost text = { λ lines. marked_tiploc };

    fn write<W: WriteDevice>(&self, item: &Sided<Tiploc>, sink: &mut Sink<W>) {
        write_marked(item.side, &item.it.write(), sink);
    }
}

impl<'a> Texts<Sided<CanonRecord<'a, AssocKey, AssocBody>>> for MarkedLines {
    ghost use Rattle.cif_canon.specs.Differences.{marked_association};

    ghost text = { λ lines. marked_association };

    fn write<W: WriteDevice>(
        &self,
        item: &Sided<CanonRecord<'a, AssocKey, AssocBody>>,
        sink: &mut Sink<W>,
    ) {
        write_marked(item.side, &item.it.line(), sink);
    }
}

impl<'a> Texts<Sided<CanonSchedule<'a>>> for MarkedLines {
    ghost use Rattle.cif_canon.specs.Differences.{marked_schedule};

    ghost text = { λ lines. marked_schedule };

    fn write<W: WriteDevice>(&self, item: &Sided<CanonSchedule<'a>>, sink: &mut Sink<W>) {
        write_marked(item.side, &item.it.basic(), sink);
        write_marked_lines(item.side, &item.it.further(), sink);
    }
}

/// Appends the texts of the runs' records, each of which is of an entry of its side.
fn write_sided_runs<
    'a,
    E: Entry,
    L: Texts<Sided<CanonRecord<'a, E::Key, E::Body>>>,
    W: WriteDevice,
>(texts: &L, left: &'a [E], right: &'a [E], runs: &'a [Sided<Run>], sink: &mut Sink<W>)
    requires { All (HasSidedRecord (keyed E.key E.terms left.now) (keyed E.key E.terms right.now)) runs.now }
    ensures { IsAppended W.contents W.write_errors
        (flat_map (sided_run_text (L.text texts.now) (keyed E.key E.terms left.now) (keyed E.key E.terms right.now)) runs.now)
        sink.old sink.new }
{
    for run in runs {
        let record = sided_record(left, right, run);
        let item = Sided {
            side: run.side,
            it: record,
        };
        texts.write(&item, sink);
    }
}
