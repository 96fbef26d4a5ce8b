//! The fields of lines, as a row has them.
ghost use Rattle.std.specs.Prelude.{◌≡◌, ◌≤◌, ◌+◌, ◌*◌, ◌-◌, ◌++◌, All, IsTrue, length};
ghost use Rattle.cif_columns.specs.Field.{columns};
ghost use Rattle.cif_rows.specs.{Adds.Adds, Row.named, Row.nothing, declared.format.Format.TheVariants.Json, declared.shape.Padding.TheVariants.Apart};
ghost use Rattle.cif_rows.specs.Steps.{IsOfShape, IsPlain, field_text, fields_text, names_text, width_of};
ghost use Rattle.cif_views.specs.Steps.Columns.{are_within, column, column_names, columns_of, field_in, fields_in, is_span, is_text, is_within};
ghost use Rattle.cif_views.specs.Steps.Columns.{room_for, room_of};
ghost use Rattle.cif_views.specs.Tables.{yymmdd_from};

use crate::columns::{Column, ColumnRange, FieldPlace, JourneyKind, span_in};
use cif_columns::{Line, Sink, WriteDevice};
use cif_rows::{Padding, RowFormat, Rows, Shape};

/// Adds the names of the fields, if names stand before the rows.
pub(crate) fn push_names<F: RowFormat, W: WriteDevice>(
    rows: &mut Rows<F>,
    columns: &[Column],
    sink: &mut Sink<W>,
)
    requires narrow { room_for (columns_of columns.now) ≤ 640 }
    ensures { Adds W.contents W.write_errors (names_text F.FORMAT (column_names (columns_of columns.now)))
        sink.old sink.new rows.old rows.new }
{
    for column in columns {
        rows.push_name(sink, column.0);
    }
}

/// Adds the fields of a line of this kind to the row.
#[inline(always)]
pub(crate) fn push_each<F: RowFormat, W: WriteDevice>(
    rows: &mut Rows<F>,
    columns: &[Column],
    kind: JourneyKind,
    line: &Line,
    sink: &mut Sink<W>,
)
    requires within { IsTrue (are_within (columns_of columns.now)) }
    requires narrow { room_for (columns_of columns.now) ≤ 640 }
    ensures { Adds W.contents W.write_errors (fields_text F.FORMAT (fields_in kind (columns_of columns.now) line.now))
        sink.old sink.new rows.old rows.new }
{
    rows.make_room(sink);
    push_all(rows, columns, kind, line);
}

/// Adds the fields of a line of this kind, for which there is room.
#[inline(always)]
fn push_all<F: RowFormat>(rows: &mut Rows<F>, columns: &[Column], kind: JourneyKind, line: &Line)
    requires within { IsTrue (are_within (columns_of columns.now)) }
    requires room { length rows.old + room_for (columns_of columns.now) ≤ 1280 }
    ensures { rows.new ≡ rows.old ++ fields_text F.FORMAT (fields_in kind (columns_of columns.now) line.now) }
{
    for column in columns {
        push_field(rows, column, kind, line);
    }
}

/// Adds the field that has this column in a line of this kind, for which there is room.
#[inline(always)]
pub(crate) fn push_field<F: RowFormat>(
    rows: &mut Rows<F>,
    given: &Column,
    kind: JourneyKind,
    line: &Line,
)
    requires within { IsTrue (is_within (column given.now).1) }
    requires room { length rows.old + room_of (column given.now) ≤ 1280 }
    ensures text { rows.new ≡ rows.old ++ field_text F.FORMAT (field_in kind line.now (column given.now)) }
    ensures len { length rows.new ≤ length rows.old + room_of (column given.now) }
{
    let there = columns_in(line, span_in(kind, &given.1));
    match &given.1 {
        FieldPlace::Nowhere | FieldPlace::Text(_, _) | FieldPlace::Call(_, _, _) => {
            rows.push_within(given.0, Padding::Apart, Shape::Trimmed, there)
        }
        FieldPlace::Whole(_, _) => push_shaped(rows, given.0, Shape::Whole, there),
        FieldPlace::Date(_, _) => push_shaped(rows, given.0, Shape::Date, there),
        FieldPlace::DayFirst(_, _) => {
            push_shaped(rows, given.0, Shape::Date, &year_first(there))
        }
    }
}

/// Adds the text that has this column in a line of this kind, for which there is room. JSON shows each byte of the line as it is.
// The line is a copy: so the compiler knows that no byte of it is one of the row.
#[inline(always)]
pub(crate) fn push_text<F: RowFormat>(
    rows: &mut Rows<F>,
    given: &Column,
    kind: JourneyKind,
    line: Line,
)
    requires within { IsTrue (is_within (column given.now).1) }
    requires text { IsTrue (is_text (column given.now).1) }
    requires plain { F.FORMAT ≡ Json → All IsPlain line }
    requires room { length rows.old + room_of (column given.now) ≤ 1280 }
    ensures text { rows.new ≡ rows.old ++ field_text F.FORMAT (field_in kind line (column given.now)) }
    ensures len { length rows.new ≤ length rows.old + room_of (column given.now) }
{
    match &given.1 {
        FieldPlace::Nowhere | FieldPlace::Text(_, _) | FieldPlace::Call(_, _, _) => {
            rows.push_plain_within(given.0, columns_in(&line, span_in(kind, &given.1)))
        }
        FieldPlace::Whole(_, _) | FieldPlace::Date(_, _) | FieldPlace::DayFirst(_, _) => {
            unreachable!()
        }
    }
}

/// Adds a field, for which there is room.
// Not inlined, so that a loop over few columns is short enough to be unrolled.
#[inline(never)]
fn push_shaped<F: RowFormat>(rows: &mut Rows<F>, name: &str, shape: Shape, columns: &[u8])
    requires field { IsOfShape shape columns.now }
    requires room { length rows.old + length name.now + 2 * width_of shape columns.now + 8 ≤ 1280 }
    ensures text { rows.new ≡ rows.old ++ field_text F.FORMAT
        (record { name = name.now; padding = Apart; shape = shape; columns = columns.now }) }
    ensures len { length rows.new ≤ length rows.old + length name.now + 2 * width_of shape columns.now + 8 }
{
    rows.push_within(name, Padding::Apart, shape, columns);
}

/// These columns of the line.
#[inline(always)]
pub(crate) fn columns_in(line: &Line, span: ColumnRange) -> &[u8]
    requires { IsTrue (is_span span) }
    ensures columns { result.now ≡ columns span.0 span.1 line.now }
    ensures len { length result.now ≡ span.1 + 1 - span.0 }
    ensures few { length result.now ≤ 80 }
{
    &line.bytes()[span.0 - 1..span.1]
}

/// The digits YYMMDD of a date DDMMYY.
fn year_first(ddmmyy: &[u8]) -> [u8; 6]
    requires { length ddmmyy.now ≡ 6 }
    ensures { result ≡ yymmdd_from ddmmyy.now }
{
    [
        ddmmyy[4], ddmmyy[5], ddmmyy[2], ddmmyy[3], ddmmyy[0], ddmmyy[1],
    ]
}

/// Adds an empty field.
pub(crate) fn push_nothing<F: RowFormat, W: WriteDevice>(
    rows: &mut Rows<F>,
    name: &str,
    sink: &mut Sink<W>,
)
    requires { length name.now ≤ 100 }
    ensures { Adds W.contents W.write_errors (field_text F.FORMAT (named name.now nothing)) sink.old sink.new rows.old rows.new }
{
    rows.push(sink, name, Padding::Apart, Shape::Trimmed, b"");
}
