//! The calls of a train, each below its line, behind its row, or within its object.
ghost use Rattle.std.specs.Prelude.{◌≡◌, ◌<◌, ◌≤◌, List, length};
ghost use Rattle.std.specs.List.{flat_map};
ghost use Rattle.cif_rows.specs.{Adds.Adds, Appended.IsAppended, Row.Field, Row.row_text, Steps.fields_text};
ghost use Rattle.cif_views.specs.Calls.{calls_at, calls_in, origin_call, stop_call, terminus_call};
ghost use Rattle.cif_views.specs.Listing.{with_calls, without_calls};
ghost use Rattle.cif_views.specs.Steps.Rows.{IsRowText, call_text, fields_of_call, no_call_text, values_of};

use cif_columns::{Sink, WriteDevice};
use cif_extract::{Body, Call, Calls};
use cif_records::{Origin, Stop, Terminus};
use cif_rows::{Format, Padding, RowFormat, Rows, Shape};

/// The columns of a time, a public time, a platform, a path or a line that a record doesn't have.
const NO_WORK_TIME: [u8; 5] = *b"     ";

const NO_PUBLIC_TIME: [u8; 4] = *b"    ";

const NO_TRACK: [u8; 3] = *b"   ";

/// The names of the fields of a call.
pub(crate) const CALL_NAMES: [&str; 12] = [
    "call",
    "call_location",
    "call_suffix",
    "call_arrival",
    "call_departure",
    "call_pass",
    "call_public_arrival",
    "call_public_departure",
    "call_platform",
    "call_path",
    "call_line",
    "call_activities",
];

/// The row of an association, of a train or of a schedule.
pub(crate) trait RowSource {
    ghost use Rattle.std.specs.Prelude.{◌≡◌, ◌<◌, ◌≤◌, ◌+◌, ◌++◌, List, length};
    ghost use Rattle.cif_rows.specs.{Row.Field, Steps.fields_text, declared.format.Format.Format};

    // Its fields.
    ghost fields: { Self → List Field };

    /// Adds the fields of the row, for which there is room.
    fn push_row<F: RowFormat>(&self, rows: &mut Rows<F>)
        requires { length rows.old ≤ 640 }
        ensures text { rows.new ≡ rows.old ++ fields_text F.FORMAT (fields self.now) }
        ensures len { length rows.new ≤ length rows.old + 640 }
        ensures some { (format : Format) → 0 < length (fields_text format (fields self.now)) };
}

/// The columns of a call.
#[derive(Clone, Copy)]
struct CallColumns {
    record: [u8; 2],
    location: [u8; 7],
    suffix: [u8; 1],
    arrival: [u8; 5],
    departure: [u8; 5],
    pass: [u8; 5],
    public_arrival: [u8; 4],
    public_departure: [u8; 4],
    platform: [u8; 3],
    path: [u8; 3],
    line: [u8; 3],
    activities: [u8; 12],
}

/// The call of an origin.
fn origin_call(origin: &Origin) -> CallColumns
    ensures { values_of result ≡ origin_call origin.now }
{
    CallColumns {
        record: *b"LO",
        location: origin.location.write(),
        suffix: origin.suffix.write(),
        arrival: NO_WORK_TIME,
        departure: origin.departure.write(),
        pass: NO_WORK_TIME,
        public_arrival: NO_PUBLIC_TIME,
        public_departure: origin.public_departure.write(),
        platform: origin.platform.write(),
        path: NO_TRACK,
        line: origin.line.write(),
        activities: origin.activities.write(),
    }
}

/// The call of a location on the way.
fn stop_call(stop: &Stop) -> CallColumns
    ensures { values_of result ≡ stop_call stop.now }
{
    CallColumns {
        record: *b"LI",
        location: stop.location.write(),
        suffix: stop.suffix.write(),
        arrival: stop.arrival.write(),
        departure: stop.departure.write(),
        pass: stop.pass.write(),
        public_arrival: stop.public_arrival.write(),
        public_departure: stop.public_departure.write(),
        platform: stop.platform.write(),
        path: stop.path.write(),
        line: stop.line.write(),
        activities: stop.activities.write(),
    }
}

/// The call of a terminus.
fn terminus_call(terminus: &Terminus) -> CallColumns
    ensures { values_of result ≡ terminus_call terminus.now }
{
    CallColumns {
        record: *b"LT",
        location: terminus.location.write(),
        suffix: terminus.suffix.write(),
        arrival: terminus.arrival.write(),
        departure: NO_WORK_TIME,
        pass: NO_WORK_TIME,
        public_arrival: terminus.public_arrival.write(),
        public_departure: NO_PUBLIC_TIME,
        platform: terminus.platform.write(),
        path: terminus.path.write(),
        line: NO_TRACK,
        activities: terminus.activities.write(),
    }
}

/// Adds the fields of a call. Within an object their names don't begin with `call_`.
fn push_call<F: RowFormat, W: WriteDevice>(
    rows: &mut Rows<F>,
    call: &CallColumns,
    sink: &mut Sink<W>,
)
    ensures { Adds W.contents W.write_errors (fields_text F.FORMAT (fields_of_call F.FORMAT (values_of call.now)))
        sink.old sink.new rows.old rows.new }
{
    match F::FORMAT {
        Format::Text | Format::Tsv => rows.push_fields(
            sink,
            &[
                ("call", Padding::Apart, Shape::Trimmed, &call.record),
                (
                    "call_location",
                    Padding::Apart,
                    Shape::Trimmed,
                    &call.location,
                ),
                ("call_suffix", Padding::Apart, Shape::Trimmed, &call.suffix),
                (
                    "call_arrival",
                    Padding::Apart,
                    Shape::Trimmed,
                    &call.arrival,
                ),
                (
                    "call_departure",
                    Padding::Apart,
                    Shape::Trimmed,
                    &call.departure,
                ),
                ("call_pass", Padding::Apart, Shape::Trimmed, &call.pass),
                (
                    "call_public_arrival",
                    Padding::Apart,
                    Shape::Trimmed,
                    &call.public_arrival,
                ),
                (
                    "call_public_departure",
                    Padding::Apart,
                    Shape::Trimmed,
                    &call.public_departure,
                ),
                (
                    "call_platform",
                    Padding::Apart,
                    Shape::Trimmed,
                    &call.platform,
                ),
                ("call_path", Padding::Apart, Shape::Trimmed, &call.path),
                ("call_line", Padding::Apart, Shape::Trimmed, &call.line),
                (
                    "call_activities",
                    Padding::Apart,
                    Shape::Trimmed,
                    &call.activities,
                ),
            ],
        ),
        Format::Json => rows.push_fields(
            sink,
            &[
                ("record", Padding::Apart, Shape::Trimmed, &call.record),
                ("location", Padding::Apart, Shape::Trimmed, &call.location),
                ("suffix", Padding::Apart, Shape::Trimmed, &call.suffix),
                ("arrival", Padding::Apart, Shape::Trimmed, &call.arrival),
                ("departure", Padding::Apart, Shape::Trimmed, &call.departure),
                ("pass", Padding::Apart, Shape::Trimmed, &call.pass),
                (
                    "public_arrival",
                    Padding::Apart,
                    Shape::Trimmed,
                    &call.public_arrival,
                ),
                (
                    "public_departure",
                    Padding::Apart,
                    Shape::Trimmed,
                    &call.public_departure,
                ),
                ("platform", Padding::Apart, Shape::Trimmed, &call.platform),
                ("path", Padding::Apart, Shape::Trimmed, &call.path),
                ("line", Padding::Apart, Shape::Trimmed, &call.line),
                (
                    "activities",
                    Padding::Apart,
                    Shape::Trimmed,
                    &call.activities,
                ),
            ],
        ),
    }
}

/// Adds a call of a train whose row has these fields: its line of text, the row with the call's fields, or an object.
fn push_call_of<F: RowFormat, W: WriteDevice>(
    rows: &mut Rows<F>,
    row: &Rows<F>,
    call: &CallColumns,
    sink: &mut Sink<W>,
)
    requires { length row.now ≤ 640 }
    ensures { (fields : List Field) → IsRowText F.FORMAT fields row.now
        → Adds W.contents W.write_errors (call_text F.FORMAT fields (values_of call.now)) sink.old sink.new rows.old rows.new }
{
    match F::FORMAT {
        Format::Text => {
            rows.begin_row(sink);
            push_call(rows, call, sink);
            rows.end_row(sink);
        }
        Format::Tsv => {
            rows.begin_row(sink);
            rows.push_kept(sink, row);
            push_call(rows, call, sink);
            rows.end_row(sink);
        }
        Format::Json => {
            rows.begin_call(sink);
            push_call(rows, call, sink);
            rows.end_call(sink);
        }
    }
}

/// Adds the call of a location on the way; a change is none.
fn push_call_at<F: RowFormat, W: WriteDevice>(
    rows: &mut Rows<F>,
    row: &Rows<F>,
    call: &Call,
    sink: &mut Sink<W>,
)
    requires { length row.now ≤ 640 }
    ensures { (fields : List Field) → IsRowText F.FORMAT fields row.now
        → Adds W.contents W.write_errors (flat_map (call_text F.FORMAT fields) (calls_at call.now)) sink.old sink.new rows.old rows.new }
{
    match call {
        Call::At(stop) => push_call_of(rows, row, &stop_call(stop), sink),
        Call::Turn(_) => {}
    }
}

/// Adds the calls on the way.
fn push_calls_between<F: RowFormat, W: WriteDevice>(
    rows: &mut Rows<F>,
    row: &Rows<F>,
    calls: Calls<'_>,
    sink: &mut Sink<W>,
)
    requires { length row.now ≤ 640 }
    ensures { (fields : List Field) → IsRowText F.FORMAT fields row.now
        → Adds W.contents W.write_errors (flat_map (call_text F.FORMAT fields) (flat_map calls_at calls.entry)) sink.old sink.new rows.old rows.new }
{
    let mut calls = calls;
    while let Some(call) = calls.next() {
        push_call_at(rows, row, &call, sink);
    }
}

/// Adds all calls of a train whose row has these fields.
fn push_calls<F: RowFormat, W: WriteDevice>(
    rows: &mut Rows<F>,
    row: &Rows<F>,
    body: &Body,
    sink: &mut Sink<W>,
)
    requires { length row.now ≤ 640 }
    ensures { (fields : List Field) → IsRowText F.FORMAT fields row.now
        → Adds W.contents W.write_errors (flat_map (call_text F.FORMAT fields) (calls_in body.now)) sink.old sink.new rows.old rows.new }
{
    push_call_of(rows, row, &origin_call(&body.origin()), sink);
    push_calls_between(rows, row, body.calls(), sink);
    push_call_of(rows, row, &terminus_call(&body.terminus()), sink);
}

/// Adds the row of a train, which has these fields, and its calls.
fn push_with_calls<F: RowFormat, W: WriteDevice>(
    rows: &mut Rows<F>,
    row: &Rows<F>,
    body: &Body,
    sink: &mut Sink<W>,
)
    requires { length row.now ≤ 640 }
    ensures { (fields : List Field) → IsRowText F.FORMAT fields row.now
        → Adds W.contents W.write_errors (with_calls F.FORMAT fields (calls_in body.now)) sink.old sink.new rows.old rows.new }
{
    match F::FORMAT {
        Format::Text => {
            rows.begin_row(sink);
            rows.push_kept(sink, row);
            rows.end_row(sink);
            push_calls(rows, row, body, sink);
        }
        Format::Tsv => push_calls(rows, row, body, sink),
        Format::Json => {
            rows.begin_row(sink);
            rows.push_kept(sink, row);
            rows.begin_calls(sink);
            push_calls(rows, row, body, sink);
            rows.end_calls(sink);
            rows.end_row(sink);
        }
    }
}

/// Adds what a row has in place of calls.
fn push_no_calls<F: RowFormat, W: WriteDevice>(rows: &mut Rows<F>, sink: &mut Sink<W>)
    ensures { Adds W.contents W.write_errors (no_call_text F.FORMAT) sink.old sink.new rows.old rows.new }
{
    match F::FORMAT {
        Format::Text => {}
        Format::Tsv => rows.push_absent(sink, &CALL_NAMES),
        Format::Json => rows.push_no_calls(sink),
    }
}

/// Appends the row of a train, with its calls.
// In a table each call has the fields of the row again: they are laid out once.
pub(crate) fn write_with_calls<F: RowFormat, R: RowSource, W: WriteDevice>(
    row: &R,
    body: &Body,
    sink: &mut Sink<W>,
)
    ensures { IsAppended W.contents W.write_errors (with_calls F.FORMAT (R.fields row.now) (calls_in body.now)) sink.old sink.new }
{
    let mut kept = Rows::<F>::new();
    row.push_row(&mut kept);
    let mut rows = Rows::<F>::new();
    push_with_calls(&mut rows, &kept, body, sink);
    rows.finish(sink);
}

/// Appends the row of an association where calls are listed.
pub(crate) fn write_without_calls<F: RowFormat, R: RowSource, W: WriteDevice>(
    row: &R,
    sink: &mut Sink<W>,
)
    ensures { IsAppended W.contents W.write_errors (without_calls F.FORMAT (R.fields row.now)) sink.old sink.new }
{
    let mut rows = Rows::<F>::new();
    rows.begin_row(sink);
    rows.make_room(sink);
    row.push_row(&mut rows);
    push_no_calls(&mut rows, sink);
    rows.end_row(sink);
    rows.finish(sink);
}

/// Appends the row.
pub(crate) fn write_row<F: RowFormat, R: RowSource, W: WriteDevice>(row: &R, sink: &mut Sink<W>)
    ensures { IsAppended W.contents W.write_errors (row_text F.FORMAT (R.fields row.now)) sink.old sink.new }
{
    let mut rows = Rows::<F>::new();
    rows.begin_row(sink);
    rows.make_room(sink);
    row.push_row(&mut rows);
    rows.end_row(sink);
    rows.finish(sink);
}
