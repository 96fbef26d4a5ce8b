//! Tables of a whole canonical extract.
ghost use Rattle.std.specs.Prelude.{◌≡◌, ◌<◌, ◌≤◌, ◌+◌, ◌^◌, ◌++◌, ◌∷◌, All, IfErr, IsTrue, List, cond, length, map, ℕ};
ghost use Rattle.std.specs.List.{flat_map};
ghost use Rattle.cif_columns.specs.Sink.{Writes};
ghost use Rattle.cif_extract.specs.declared.fault.Fault.TheVariants.{Write};
ghost use Rattle.cif_canon.specs.{Lines.line_of_tiploc, Lines.schedule_plain};
ghost use Rattle.cif_rows.specs.{Adds.Adds, Appended.IsAppended, Row.heading_text, Row.row_text, Steps.IsPlain, Steps.field_text, Steps.fields_text};
ghost use Rattle.cif_rows.specs.declared.format.Format.TheVariants as format;
ghost use Rattle.cif_views.specs.Steps.Columns.{are_within, call_columns, column_names, columns_of, fields_in, room_for};
ghost use Rattle.cif_views.specs.Steps.TableRows.{call_kind, has_row, journey_columns, journey_rows, row_of_kind};
ghost use Rattle.cif_views.specs.TableText.{table_names, table_rows, table_text};
ghost use Rattle.cif_views.specs.Tables.{is_call, kind_of_line, numbered_schedule, row_of, schedule_fields, tiploc_fields};
ghost use Rattle.cif_views.specs.declared.columns.JourneyKind.TheVariants.{Other};

use crate::columns::{
    ASSOCIATION, BASIC, CALL, CHANGE, Column, EXTRA, HEADER, JourneyKind, NUMBERS, PUBLIC, TIPLOC,
    call_after, extra_among, kind_of_line,
};
use crate::line_fields::{push_each, push_names, push_text};
use crate::public_calls::write_public_calls;
use cif_canon::writing::answer;
use cif_canon::{Canon, CanonListing, CanonSchedule};
use cif_columns::{Line, LineSlice, Sink, WriteDevice};
use cif_extract::Fault;
use cif_records::Tiploc;
use cif_rows::{Format, Json, Numeral, Padded, RowFormat, Rows, Tsv, is_plain};
use std::marker::PhantomData;

/// The tables of a canonical extract. All but the last together say what it says.
#[derive(Clone, Copy, PartialEq, Eq)]
pub enum Table {
    /// HD.
    Header,
    /// A row for each TI.
    Tiplocs,
    /// A row for each AA.
    Associations,
    /// A row for each BS, with its BX.
    Schedules,
    /// A row for each LO, LI and LT.
    Calls,
    /// A row for each CR.
    Changes,
    /// A row for each call that riders can use, and when.
    Public,
}

/// Appends the table of the canonical form in this format: the names of its fields, if it has such a line, and its
/// rows.
pub fn write_table<W: WriteDevice>(
    canon: &Canon<'_>,
    table: Table,
    format: Format,
    sink: &mut Sink<W>,
) -> Result<(), Fault>
    ensures writes { Writes W.contents W.write_errors (table_text format table canon.now.lines) sink.old sink.new result }
    ensures fault { IfErr result (λ fault. fault ≡ Write) }
{
    match format {
        Format::Text => write_rows::<Padded, W>(canon, table, sink),
        Format::Tsv => write_rows::<Tsv, W>(canon, table, sink),
        Format::Json => write_rows::<Json, W>(canon, table, sink),
    }
    answer(sink)
}

/// Appends the table of the canonical form.
fn write_rows<F: RowFormat, W: WriteDevice>(canon: &Canon<'_>, table: Table, sink: &mut Sink<W>)
    ensures { IsAppended W.contents W.write_errors (table_text F.FORMAT table canon.now.lines) sink.old sink.new }
{
    write_heading::<F, W>(table, sink);
    let rows = TableRows::<F> {
        table,
        format: PhantomData,
    };
    match table {
        Table::Header => write_line::<F, W>(&HEADER, &canon.header_line(), sink),
        Table::Tiplocs => write_tiplocs::<F, W>(canon.tiplocs(), sink),
        Table::Associations => canon.list_associations(&rows, sink),
        Table::Schedules | Table::Calls | Table::Changes | Table::Public => {
            canon.list_schedules(&rows, sink)
        }
    }
}

/// Appends the names of the table's fields, if they stand before its rows.
fn write_heading<F: RowFormat, W: WriteDevice>(table: Table, sink: &mut Sink<W>)
    ensures { IsAppended W.contents W.write_errors (heading_text F.FORMAT (table_names table)) sink.old sink.new }
{
    let (numbers, columns, more) = table_columns(table);
    let mut rows = Rows::<F>::new();
    push_names(&mut rows, numbers, sink);
    push_names(&mut rows, columns, sink);
    push_names(&mut rows, more, sink);
    rows.end_names();
    rows.finish(sink);
}

/// The numbers that a row of the table begins with, and the columns of one line or two.
fn table_columns(table: Table) -> (&'static [Column], &'static [Column], &'static [Column])
    ensures names { (column_names (columns_of result.0.now) ++ column_names (columns_of result.1.now))
        ++ column_names (columns_of result.2.now) ≡ table_names table }
    ensures numbers { room_for (columns_of result.0.now) ≤ 640 }
    ensures columns { room_for (columns_of result.1.now) ≤ 640 }
    ensures more { room_for (columns_of result.2.now) ≤ 640 }
{
    match table {
        Table::Header => (&[], &HEADER, &[]),
        Table::Tiplocs => (&[], &TIPLOC, &[]),
        Table::Associations => (&[], &ASSOCIATION, &[]),
        Table::Schedules => (&NUMBERS[..1], &BASIC, &EXTRA),
        Table::Calls => (&NUMBERS, &CALL, &[]),
        Table::Changes => (&NUMBERS, &CHANGE, &[]),
        Table::Public => (&NUMBERS, &PUBLIC, &[]),
    }
}

/// Appends the row of a line.
fn write_line<F: RowFormat, W: WriteDevice>(columns: &[Column], line: &Line, sink: &mut Sink<W>)
    requires some { 0 < length columns.now }
    requires within { IsTrue (are_within (columns_of columns.now)) }
    requires narrow { room_for (columns_of columns.now) ≤ 640 }
    ensures { IsAppended W.contents W.write_errors (row_text F.FORMAT (fields_in Other (columns_of columns.now) line.now)) sink.old sink.new }
{
    let mut rows = Rows::<F>::new();
    rows.begin_row(sink);
    push_each(&mut rows, columns, JourneyKind::Other, line, sink);
    rows.end_row(sink);
    rows.finish(sink);
}

/// Appends the rows of locations.
fn write_tiplocs<F: RowFormat, W: WriteDevice>(tiplocs: &[Tiploc], sink: &mut Sink<W>)
    ensures { IsAppended W.contents W.write_errors
        (flat_map (λ t. row_text F.FORMAT (row_of tiploc_fields (line_of_tiploc t))) tiplocs.now) sink.old sink.new }
{
    for tiploc in tiplocs {
        write_line::<F, W>(&TIPLOC, &tiploc.write(), sink);
    }
}

/// A table in the format `F`.
#[derive(Drop)]
struct TableRows<F> {
    table: Table,
    format: PhantomData<F>,
}

impl<F: RowFormat> CanonListing for TableRows<F> {
    ghost use Rattle.std.specs.List.{flat_map};
    ghost use Rattle.cif_rows.specs.Row.{row_text};
    ghost use Rattle.cif_views.specs.{TableText.schedule_rows, Tables.association_fields, Tables.row_of};

    ghost association_text = { λ rows line. row_text F.FORMAT (row_of association_fields line) };

    ghost schedule_text = { λ rows n s. flat_map (row_text F.FORMAT) (schedule_rows rows.table n s) };

    fn write_association<W: WriteDevice>(&self, line: &Line, sink: &mut Sink<W>) {
        write_line::<F, W>(&ASSOCIATION, line, sink);
    }

    fn write_schedule<W: WriteDevice>(
        &self,
        number: usize,
        schedule: &CanonSchedule<'_>,
        sink: &mut Sink<W>,
    ) {
        match self.table {
            Table::Schedules => write_schedule::<F, W>(number, schedule, sink),
            Table::Calls => write_journey::<F, W>(true, number, schedule.further(), sink),
            Table::Changes => write_journey::<F, W>(false, number, schedule.further(), sink),
            Table::Public => write_public_calls::<F, W>(number, schedule.further(), sink),
            Table::Header => {}
            Table::Tiplocs => {}
            Table::Associations => {}
        }
    }
}

/// Appends the row of a schedule.
fn write_schedule<F: RowFormat, W: WriteDevice>(
    number: usize,
    schedule: &CanonSchedule<'_>,
    sink: &mut Sink<W>,
)
    ensures { IsAppended W.contents W.write_errors
        (row_text F.FORMAT (row_of schedule_fields (numbered_schedule (number, schedule_plain schedule.now)))) sink.old sink.new }
{
    let mut rows = Rows::<F>::new();
    rows.begin_row(sink);
    rows.push_number(sink, "schedule", number);
    let extra = extra_among(&schedule.further());
    push_each(
        &mut rows,
        &BASIC,
        JourneyKind::Other,
        &schedule.basic(),
        sink,
    );
    push_each(&mut rows, &EXTRA, JourneyKind::Other, &extra, sink);
    rows.end_row(sink);
    rows.finish(sink);
}

/// Appends the rows of a schedule's calls, or of its changes. They all begin with its number.
fn write_journey<F: RowFormat, W: WriteDevice>(
    calls: bool,
    schedule: usize,
    lines: LineSlice<'_>,
    sink: &mut Sink<W>,
)
    ensures { IsAppended W.contents W.write_errors (flat_map (row_text F.FORMAT) (journey_rows calls schedule lines.entry)) sink.old sink.new }
{
    let mut rows = Rows::<F>::new();
    let number = Numeral::of(schedule);
    let mut call = 1;
    let mut lines = lines;
    lines.are_few();
    while !lines.is_empty() {
        call = write_numbered(calls, &mut rows, &number, call, &lines.first(), sink);
        lines = lines.rest();
    }
    rows.finish(sink);
}

/// Whether the table of the calls, or else that of the changes, has a row of a line of this kind.
fn has_row(calls: bool, kind: JourneyKind) -> bool
    ensures { result ≡ has_row calls kind }
{
    match kind {
        JourneyKind::Origin | JourneyKind::Stop | JourneyKind::Terminus => calls,
        JourneyKind::Change => !calls,
        JourneyKind::Other => false,
    }
}

/// Adds the row of a line, if the table has one of it, and returns the number of the next call.
fn write_numbered<F: RowFormat, W: WriteDevice>(
    calls: bool,
    rows: &mut Rows<F>,
    schedule: &Numeral,
    call: usize,
    line: &Line,
    sink: &mut Sink<W>,
) -> usize
    requires call { call ≤ 2 ^ 63 }
    ensures row { Adds W.contents W.write_errors
        (flat_map (row_text F.FORMAT) (row_of_kind calls schedule.now call (kind_of_line line.now) line.now))
        sink.old sink.new rows.old rows.new }
    ensures next { result ≡ cond (is_call (kind_of_line line.now)) (call + 1) call }
{
    let kind = kind_of_line(line);
    let next = call_after(call, kind);
    if has_row(calls, kind) {
        rows.begin_row(sink);
        rows.push_numeral(sink, "schedule", schedule);
        rows.push_number(sink, "call", call);
        push_journey(calls, rows, kind, line, sink);
        rows.end_row(sink);
    }
    next
}

/// Adds the fields of a call or of a change.
fn push_journey<F: RowFormat, W: WriteDevice>(
    calls: bool,
    rows: &mut Rows<F>,
    kind: JourneyKind,
    line: &Line,
    sink: &mut Sink<W>,
)
    ensures { Adds W.contents W.write_errors (fields_text F.FORMAT (fields_in kind (journey_columns calls) line.now))
        sink.old sink.new rows.old rows.new }
{
    match (calls, kind) {
        (false, _) => push_each(rows, &CHANGE, kind, line, sink),
        (true, JourneyKind::Origin) => push_call::<0, F, W>(rows, line, sink),
        (true, JourneyKind::Stop) => push_call::<1, F, W>(rows, line, sink),
        (true, JourneyKind::Terminus) => push_call::<2, F, W>(rows, line, sink),
        (true, _) => push_each(rows, &CALL, kind, line, sink),
    }
}

/// The kinds of calls by number, in the order of a journey.
#[inline(always)]
fn call_kind(number: usize) -> JourneyKind
    ensures { result ≡ call_kind number }
{
    if number == 0 {
        JourneyKind::Origin
    } else if number == 1 {
        JourneyKind::Stop
    } else {
        JourneyKind::Terminus
    }
}

/// Adds the fields of a call of the kind with this number.
// Nearly all rows are such. The compiler makes a function for each kind, and so knows which columns are copied.
fn push_call<const KIND: usize, F: RowFormat, W: WriteDevice>(
    rows: &mut Rows<F>,
    line: &Line,
    sink: &mut Sink<W>,
)
    ensures { Adds W.contents W.write_errors (fields_text F.FORMAT (fields_in (call_kind KIND) call_columns line.now))
        sink.old sink.new rows.old rows.new }
{
    if is_shown_as_it_is::<F>(line) {
        rows.make_room(sink);
        push_fields_of_call::<KIND, F>(rows, line);
    } else {
        push_each(rows, &CALL, call_kind(KIND), line, sink);
    }
}

/// Whether the format shows each byte of the line as it is.
#[inline(always)]
fn is_shown_as_it_is<F: RowFormat>(line: &Line) -> bool
    ensures { IsTrue result → F.FORMAT ≡ format.Json → All IsPlain line.now }
{
    match F::FORMAT {
        Format::Text | Format::Tsv => true,
        Format::Json => is_plain(line.bytes()),
    }
}

/// Adds the fields of a call of the kind with this number, for which there is room.
#[inline(always)]
fn push_fields_of_call<const KIND: usize, F: RowFormat>(rows: &mut Rows<F>, line: &Line)
    requires room { length rows.old + 600 ≤ 1280 }
    requires plain { F.FORMAT ≡ format.Json → All IsPlain line.now }
    ensures { rows.new ≡ rows.old ++ fields_text F.FORMAT (fields_in (call_kind KIND) call_columns line.now) }
{
    let kind = call_kind(KIND);
    let columns = &CALL;
    push_text(rows, &columns[0], kind, *line);
    push_text(rows, &columns[1], kind, *line);
    push_text(rows, &columns[2], kind, *line);
    push_text(rows, &columns[3], kind, *line);
    push_text(rows, &columns[4], kind, *line);
    push_text(rows, &columns[5], kind, *line);
    push_text(rows, &columns[6], kind, *line);
    push_text(rows, &columns[7], kind, *line);
    push_text(rows, &columns[8], kind, *line);
    push_text(rows, &columns[9], kind, *line);
    push_text(rows, &columns[10], kind, *line);
    push_text(rows, &columns[11], kind, *line);
    push_text(rows, &columns[12], kind, *line);
    push_text(rows, &columns[13], kind, *line);
    push_text(rows, &columns[14], kind, *line);
}
