//! The table of the differences of two extracts.
ghost use Rattle.std.specs.Prelude.{◌≡◌, ◌≤◌, ◌++◌, ◌+◌, ◌*◌, [], ◌∷◌, IfErr, IsTrue, List, None, Some, codes, decimal, length};
ghost use Rattle.cif_columns.specs.{Field.columns, Sink.Writes};
ghost use Rattle.cif_extract.specs.declared.fault.Fault.TheVariants.{Write};
ghost use Rattle.cif_canon.specs.{Lines.schedule_plain, declared.listed_differences.Side.TheVariants.Left};
ghost use Rattle.cif_rows.specs.{Adds.Adds, Appended.IsAppended, Row.all_named, Row.heading_text, Row.named, Row.nothing, Row.text};
ghost use Rattle.cif_rows.specs.{Row.trimmed, Steps.field_text, Steps.fields_text};
ghost use Rattle.cif_views.specs.DifferenceTable.{difference_names, difference_table, difference_text, differing_rows, in_record};
ghost use Rattle.cif_views.specs.DifferenceTable.{schedule_differences, single_row, without_extra};
ghost use Rattle.cif_views.specs.{Tables.category_fields, Tables.type_fields};
ghost use Rattle.cif_views.specs.Steps.Columns.{column, columns_of, is_span};
ghost use Rattle.cif_views.specs.Steps.DifferenceRows.{are_texts, count_of_calls, field_row, field_rows, is_text, own_columns};
ghost use Rattle.cif_views.specs.Steps.DifferenceRows.{rows_of_journeys, rows_of_place, rows_of_places, rows_text, same_places};
ghost use Rattle.cif_views.specs.Steps.DifferenceHeads.{IsShortPlace, change_on, head_of, head_values, place_names, place_values, start_values};
ghost use Rattle.cif_views.specs.declared.difference_table.RecordKind.TheVariants.{Association};

use crate::columns::{
    ASSOCIATION, ASSOCIATION_HEAD, BASIC, BASIC_HEAD, CALL, CHANGE, Column, ColumnRange,
    DIFFERENCE, EXTRA, JourneyKind, TIPLOC_HEAD, call_after, extra_among, kind_of_line, span_in,
};
use crate::line_fields::{columns_in, push_each, push_names, push_nothing};
use cif_canon::writing::{Texts, answer};
use cif_canon::{CanonSchedule, Differences, ListedRecord, Side, Sided};
use cif_columns::{Line, LineSlice, Sink, Uid, WriteDevice, columns_at, used_columns};
use cif_extract::{Body, Fault};
use cif_records::{AssocBody, AssocKey, Kind, Tiploc, kind_of};
use cif_rows::{Format, Json, Padded, Padding, RowFormat, Rows, Shape, Tsv};
use itoa::Buffer;
use std::marker::PhantomData;

/// Appends the table of the differences in this format: the names of its fields, if it has such a line, a row for each
/// location and for each record that only one side has, and for each pair of records a row for each field that differs.
pub fn write_difference_table<'a, W: WriteDevice>(
    found: &'a Differences<'a>,
    format: Format,
    sink: &mut Sink<W>,
) -> Result<(), Fault>
    ensures writes { Writes W.contents W.write_errors (difference_table format found.now) sink.old sink.new result }
    ensures fault { IfErr result (λ fault. fault ≡ Write) }
{
    match format {
        Format::Text => write_rows::<Padded, W>(found, sink),
        Format::Tsv => write_rows::<Tsv, W>(found, sink),
        Format::Json => write_rows::<Json, W>(found, sink),
    }
    answer(sink)
}

/// Appends the table of the differences.
fn write_rows<'a, F: RowFormat, W: WriteDevice>(found: &'a Differences<'a>, sink: &mut Sink<W>)
    ensures { IsAppended W.contents W.write_errors (difference_table F.FORMAT found.now) sink.old sink.new }
{
    write_heading::<F, W>(sink);
    let rows = DifferenceRows::<F> {
        format: PhantomData,
    };
    found.list_tiplocs(&rows, sink);
    found.list_associations(&rows, sink);
    found.list_schedules(&rows, sink);
}

/// Appends the names of the fields, if they stand before the rows.
fn write_heading<F: RowFormat, W: WriteDevice>(sink: &mut Sink<W>)
    ensures { IsAppended W.contents W.write_errors (heading_text F.FORMAT difference_names) sink.old sink.new }
{
    let mut rows = Rows::<F>::new();
    push_names(&mut rows, &DIFFERENCE, sink);
    rows.end_names();
    rows.finish(sink);
}

/// The rows of differences in the format `F`.
#[derive(Drop)]
struct DifferenceRows<F> {
    format: PhantomData<F>,
}

impl<F: RowFormat> Texts<Sided<Tiploc>> for DifferenceRows<F> {
    ghost use Rattle.cif_views.specs.DifferenceTable.{difference_text, tiploc_row};
    ghost use Rattle.cif_canon.specs.Lines.{line_of_tiploc};

    ghost text = { λ rows s. difference_text F.FORMAT (tiploc_row (record { side = s.side; it = line_of_tiploc s.it })) };

    fn write<W: WriteDevice>(&self, item: &Sided<Tiploc>, sink: &mut Sink<W>) {
        let side = Some(item.side);
        write_single::<F, W>(RecordKind::Tiploc, side, &item.it.write(), sink);
    }
}

impl<'a, F: RowFormat> Texts<ListedRecord<'a, AssocKey, AssocBody>> for DifferenceRows<F> {
    ghost use Rattle.cif_canon.specs.{Lines.association_plain, Pairs.listed_as};
    ghost use Rattle.cif_views.specs.{DifferenceTable.association_differences, Steps.DifferenceRows.rows_text};

    ghost text = { λ rows e. rows_text F.FORMAT (association_differences (listed_as association_plain e)) };

    fn write<W: WriteDevice>(
        &self,
        item: &ListedRecord<'a, AssocKey, AssocBody>,
        sink: &mut Sink<W>,
    ) {
        let line = item.one.line();
        match &item.other {
            None => write_single::<F, W>(RecordKind::Association, Some(item.side), &line, sink),
            Some(other) => write_associations::<F, W>(&line, &other.line(), sink),
        }
    }
}

impl<'a, F: RowFormat> Texts<ListedRecord<'a, Uid, Body>> for DifferenceRows<F> {
    ghost use Rattle.cif_canon.specs.{Lines.schedule_plain, Pairs.listed_as};
    ghost use Rattle.cif_views.specs.{DifferenceTable.schedule_differences, Steps.DifferenceRows.rows_text};

    ghost text = { λ rows e. rows_text F.FORMAT (schedule_differences (listed_as schedule_plain e)) };

    fn write<W: WriteDevice>(&self, item: &ListedRecord<'a, Uid, Body>, sink: &mut Sink<W>) {
        match &item.other {
            None => {
                let side = Some(item.side);
                write_single::<F, W>(RecordKind::Schedule, side, &item.one.basic(), sink);
            }
            Some(other) => write_schedules::<F, W>(&item.one, other, sink),
        }
    }
}

/// The kinds of records that differ.
#[derive(Clone, Copy)]
enum RecordKind {
    Tiploc,
    Association,
    Schedule,
}

/// What the rows of a record begin with: its kind, the side that has it, or none of a pair, and its line.
#[derive(Clone, Copy)]
struct Head {
    kind: RecordKind,
    side: Option<Side>,
    line: Line,
}

/// Where in a record a field stands.
#[derive(Clone, Copy)]
enum Place {
    /// In a line with this identity, which is no call.
    Record(&'static str),
    /// In this line of a journey, with the number of the call that it is, or that comes next.
    Journey(usize, Line),
}

/// What the row of a field begins with.
#[derive(Clone, Copy)]
struct Start {
    head: Head,
    place: Place,
}

/// The lines of this kind in which fields of a pair stand.
#[derive(Clone, Copy)]
struct Lines {
    kind: JourneyKind,
    left: Line,
    right: Line,
}

/// Appends the row of what only one side has.
fn write_single<F: RowFormat, W: WriteDevice>(
    kind: RecordKind,
    side: Option<Side>,
    line: &Line,
    sink: &mut Sink<W>,
)
    ensures { IsAppended W.contents W.write_errors
        (difference_text F.FORMAT (single_row (head_values kind side line.now))) sink.old sink.new }
{
    let mut rows = Rows::<F>::new();
    rows.begin_row(sink);
    let head = Head {
        kind,
        side,
        line: *line,
    };
    push_head(&mut rows, &head, sink);
    push_nothing(&mut rows, "call", sink);
    push_nothing(&mut rows, "record", sink);
    push_nothing(&mut rows, "place", sink);
    push_nothing(&mut rows, "field", sink);
    push_nothing(&mut rows, "left", sink);
    push_nothing(&mut rows, "right", sink);
    rows.end_row(sink);
    rows.finish(sink);
}

/// Adds a text, which doesn't end in a space.
fn push_text<F: RowFormat, W: WriteDevice>(
    rows: &mut Rows<F>,
    name: &str,
    value: &str,
    sink: &mut Sink<W>,
)
    requires narrow { length name.now + 2 * length value.now ≤ 400 }
    ensures { Adds W.contents W.write_errors (field_text F.FORMAT (named name.now (text value.now))) sink.old sink.new rows.old rows.new }
{
    rows.push(sink, name, Padding::Apart, Shape::Trimmed, value.as_bytes());
}

/// What says which side has it, or that both have it.
fn change_of(side: Option<Side>) -> &'static str
    ensures text { text result.now ≡ change_on side }
    ensures len { length result.now ≤ 2 }
{
    match side {
        Some(Side::Left) => "<",
        Some(Side::Right) => ">",
        None => "<>",
    }
}

/// Adds the fields up to the days run.
fn push_head<F: RowFormat, W: WriteDevice>(rows: &mut Rows<F>, head: &Head, sink: &mut Sink<W>)
    ensures { Adds W.contents W.write_errors
        (fields_text F.FORMAT (all_named difference_names (head_values head.now.kind head.now.side head.now.line)))
        sink.old sink.new rows.old rows.new }
{
    push_text(rows, "change", change_of(head.side), sink);
    match head.kind {
        RecordKind::Tiploc => {
            push_text(rows, "kind", "TI", sink);
            push_each(rows, &TIPLOC_HEAD, JourneyKind::Other, &head.line, sink);
        }
        RecordKind::Association => {
            push_text(rows, "kind", "AA", sink);
            push_each(
                rows,
                &ASSOCIATION_HEAD,
                JourneyKind::Other,
                &head.line,
                sink,
            );
        }
        RecordKind::Schedule => {
            push_text(rows, "kind", "BS", sink);
            push_each(rows, &BASIC_HEAD, JourneyKind::Other, &head.line, sink);
        }
    }
}

/// Adds the fields that say where in a record a field stands.
fn push_place<F: RowFormat, W: WriteDevice>(rows: &mut Rows<F>, place: &Place, sink: &mut Sink<W>)
    requires { IsShortPlace place.now }
    ensures { Adds W.contents W.write_errors (fields_text F.FORMAT (all_named place_names (place_values place.now)))
        sink.old sink.new rows.old rows.new }
{
    match place {
        Place::Record(identity) => {
            push_nothing(rows, "call", sink);
            push_text(rows, "record", identity, sink);
            push_nothing(rows, "place", sink);
        }
        Place::Journey(call, line) => {
            rows.push_number(sink, "call", *call);
            let identity = columns_at::<2>(line, 1);
            rows.push(sink, "record", Padding::Apart, Shape::Trimmed, &identity);
            let location = columns_at::<7>(line, 3);
            rows.push(sink, "place", Padding::Apart, Shape::Trimmed, &location);
        }
    }
}

/// Appends the rows of a pair of associations: one for each of the fields that differ.
fn write_associations<F: RowFormat, W: WriteDevice>(left: &Line, right: &Line, sink: &mut Sink<W>)
    ensures { IsAppended W.contents W.write_errors (rows_text F.FORMAT
        (differing_rows (in_record (head_values Association None left.now) (codes "AA")) (category_fields ++ type_fields) left.now right.now))
        sink.old sink.new }
{
    let mut rows = Rows::<F>::new();
    let start = Start {
        head: Head {
            kind: RecordKind::Association,
            side: None,
            line: *left,
        },
        place: Place::Record("AA"),
    };
    let lines = Lines {
        kind: JourneyKind::Other,
        left: *left,
        right: *right,
    };
    write_differing(&mut rows, &start, &ASSOCIATION[5..7], &lines, sink);
    write_differing(&mut rows, &start, &ASSOCIATION[10..], &lines, sink);
    rows.finish(sink);
}

/// Appends the rows of a pair of schedules.
fn write_schedules<F: RowFormat, W: WriteDevice>(
    left: &CanonSchedule<'_>,
    right: &CanonSchedule<'_>,
    sink: &mut Sink<W>,
)
    ensures { IsAppended W.contents W.write_errors (rows_text F.FORMAT
        (schedule_differences (record { side = Left; it = schedule_plain left.now }, Some (schedule_plain right.now))))
        sink.old sink.new }
{
    let mut rows = Rows::<F>::new();
    let (one, other) = (left.basic(), right.basic());
    let (lefts, rights) = (left.further(), right.further());
    let (extra, other_extra) = (extra_among(&lefts), extra_among(&rights));
    let head = Head {
        kind: RecordKind::Schedule,
        side: None,
        line: one,
    };
    let basics = Lines {
        kind: JourneyKind::Other,
        left: one,
        right: other,
    };
    let extras = Lines {
        kind: JourneyKind::Other,
        left: extra,
        right: other_extra,
    };
    let in_basic = Start {
        head,
        place: Place::Record("BS"),
    };
    let in_extra = Start {
        head,
        place: Place::Record("BX"),
    };
    write_differing(&mut rows, &in_basic, &BASIC[4..], &basics, sink);
    write_differing(&mut rows, &in_basic, &EXTRA[..1], &extras, sink);
    write_differing(&mut rows, &in_extra, &EXTRA[1..], &extras, sink);
    write_journeys(
        &mut rows,
        &head,
        &journey_among(lefts),
        &journey_among(rights),
        sink,
    );
    rows.finish(sink);
}

/// Adds a row for each of the fields whose cells differ in the lines.
fn write_differing<F: RowFormat, W: WriteDevice>(
    rows: &mut Rows<F>,
    start: &Start,
    fields: &[Column],
    lines: &Lines,
    sink: &mut Sink<W>,
)
    requires place { IsShortPlace start.now.place }
    requires fields { IsTrue (are_texts (columns_of fields.now)) }
    ensures { Adds W.contents W.write_errors (rows_text F.FORMAT
        (field_rows (start_values start.now) lines.now.kind lines.now.left lines.now.right (columns_of fields.now)))
        sink.old sink.new rows.old rows.new }
{
    for field in fields {
        write_field(rows, start, field, lines, sink);
    }
}

/// Adds the row of a field, if its cells differ.
fn write_field<F: RowFormat, W: WriteDevice>(
    rows: &mut Rows<F>,
    start: &Start,
    field: &Column,
    lines: &Lines,
    sink: &mut Sink<W>,
)
    requires place { IsShortPlace start.now.place }
    requires field { IsTrue (is_text (column field.now)) }
    ensures { Adds W.contents W.write_errors (rows_text F.FORMAT
        (field_row (start_values start.now) lines.now.kind lines.now.left lines.now.right (column field.now)))
        sink.old sink.new rows.old rows.new }
{
    let span = span_in(lines.kind, &field.1);
    let (one, other) = (text_of(&lines.left, span), text_of(&lines.right, span));
    if one == other {
        return;
    }
    let (left, right) = (
        columns_in(&lines.left, span),
        columns_in(&lines.right, span),
    );
    rows.begin_row(sink);
    push_head(rows, &start.head, sink);
    push_place(rows, &start.place, sink);
    push_text(rows, "field", field.0, sink);
    rows.push(sink, "left", Padding::Apart, Shape::Trimmed, left);
    rows.push(sink, "right", Padding::Apart, Shape::Trimmed, right);
    rows.end_row(sink);
}

/// What stands in these columns, up to the last that is no space.
fn text_of(line: &Line, span: ColumnRange) -> &[u8]
    requires { IsTrue (is_span span) }
    ensures text { result.now ≡ trimmed (columns span.0 span.1 line.now) }
    ensures len { length result.now ≤ 80 }
{
    let columns = columns_in(line, span);
    &columns[..used_columns(columns)]
}

/// The lines of the calls and the changes: all but a BX, which stands first.
fn journey_among(lines: LineSlice<'_>) -> LineSlice<'_>
    ensures { result ≡ without_extra lines.entry }
{
    if lines.is_empty() {
        return lines;
    }
    match kind_of(&lines.first()) {
        Some(Kind::Bx) => lines.rest(),
        _ => lines,
    }
}

/// Adds the rows of two journeys: place by place if the places are the same, else one row.
fn write_journeys<F: RowFormat, W: WriteDevice>(
    rows: &mut Rows<F>,
    head: &Head,
    left: &LineSlice<'_>,
    right: &LineSlice<'_>,
    sink: &mut Sink<W>,
)
    ensures { Adds W.contents W.write_errors (rows_text F.FORMAT (rows_of_journeys (head_of head.now) left.now right.now))
        sink.old sink.new rows.old rows.new }
{
    if have_same_places(left, right) {
        write_places(rows, head, left.copy(), right.copy(), sink);
        return;
    }
    rows.begin_row(sink);
    push_head(rows, head, sink);
    push_nothing(rows, "call", sink);
    push_nothing(rows, "record", sink);
    push_nothing(rows, "place", sink);
    push_text(rows, "field", "journey", sink);
    push_count(rows, "left", count_of_calls(left), sink);
    push_count(rows, "right", count_of_calls(right), sink);
    rows.end_row(sink);
}

/// Adds a count, as a text.
fn push_count<F: RowFormat, W: WriteDevice>(
    rows: &mut Rows<F>,
    name: &str,
    count: usize,
    sink: &mut Sink<W>,
)
    requires { length name.now ≤ 100 }
    ensures { Adds W.contents W.write_errors (field_text F.FORMAT (named name.now (text (decimal count)))) sink.old sink.new rows.old rows.new }
{
    push_text(rows, name, Buffer::new().format(count), sink);
}

/// Whether the two journeys have the same identities, locations and suffixes, in one order.
fn have_same_places(left: &LineSlice<'_>, right: &LineSlice<'_>) -> bool
    ensures { result ≡ same_places left.now right.now }
{
    let mut lefts = left.copy();
    let mut rights = right.copy();
    while !lefts.is_empty() {
        if rights.is_empty() {
            return false;
        }
        if columns_at::<10>(&lefts.first(), 1) != columns_at::<10>(&rights.first(), 1) {
            return false;
        }
        lefts = lefts.rest();
        rights = rights.rest();
    }
    rights.is_empty()
}

/// How many lines are calls.
fn count_of_calls(lines: &LineSlice<'_>) -> usize
    ensures { result ≡ count_of_calls lines.now }
{
    let mut rest = lines.copy();
    rest.are_few();
    let mut count = 0;
    while !rest.is_empty() {
        count = call_after(count, kind_of_line(&rest.first()));
        rest = rest.rest();
    }
    count
}

/// Adds the rows of two journeys with the same places.
fn write_places<F: RowFormat, W: WriteDevice>(
    rows: &mut Rows<F>,
    head: &Head,
    left: LineSlice<'_>,
    right: LineSlice<'_>,
    sink: &mut Sink<W>,
)
    requires places { IsTrue (same_places left right) }
    ensures { Adds W.contents W.write_errors (rows_text F.FORMAT (rows_of_places (head_of head.now) 1 left.entry right.entry))
        sink.old sink.new rows.old rows.new }
{
    let mut lefts = left;
    let mut rights = right;
    lefts.are_few();
    let mut call = 1;
    while !lefts.is_empty() {
        let one = lefts.first();
        let other = rights.first();
        let lines = Lines {
            kind: kind_of_line(&one),
            left: one,
            right: other,
        };
        write_place(rows, head, call, &lines, sink);
        call = call_after(call, lines.kind);
        lefts = lefts.rest();
        rights = rights.rest();
    }
}

/// Adds the rows of one place of both journeys.
fn write_place<F: RowFormat, W: WriteDevice>(
    rows: &mut Rows<F>,
    head: &Head,
    call: usize,
    lines: &Lines,
    sink: &mut Sink<W>,
)
    ensures { Adds W.contents W.write_errors (rows_text F.FORMAT
        (rows_of_place (head_of head.now) call lines.now.kind lines.now.left lines.now.right))
        sink.old sink.new rows.old rows.new }
{
    if lines.left == lines.right {
        return;
    }
    let start = Start {
        head: *head,
        place: Place::Journey(call, lines.left),
    };
    write_differing(rows, &start, fields_of(lines.kind), lines, sink);
}

/// The fields that a line of this kind has after its suffix.
fn fields_of(kind: JourneyKind) -> &'static [Column]
    ensures fields { columns_of result.now ≡ own_columns kind }
    ensures texts { IsTrue (are_texts (columns_of result.now)) }
{
    match kind {
        JourneyKind::Change => &CHANGE[2..],
        _ => &CALL[3..],
    }
}
