//! The rows of a board in each format.
ghost use Rattle.std.specs.Prelude.{◌≡◌, ◌≤◌, ◌∷◌, [], AllPairs, codes, length};
ghost use Rattle.std.specs.{Cmp.Lexicographic.slice_cmp, Ordering.nat_cmp, declared.cmp.Ordering.TheVariants.Less};
ghost use Rattle.cif_rows.specs.{Adds.Adds, Appended.IsAppended, Row.heading_text, Row.named, Row.text, Steps.fields_text, Steps.names_text};
ghost use Rattle.cif_rows.specs.declared.shape.Shape.TheVariants.{Whole};
ghost use Rattle.cif_views.specs.Boards.{board_fields, board_names, board_text, call_fields, calling_fields, calling_names, calling_time};
ghost use Rattle.cif_views.specs.Boards.{date_value};
ghost use Rattle.cif_views.specs.Boards.{end_fields, end_of, end_text, hour_and_minute, line_fields, table_fields, train_fields};

use crate::board::{Board, BoardKind, BoardRow, BoardTrain, CallingAt};
use crate::moment::TimeOfDay;
use crate::places::{Place, location_name};
use cif_columns::{Day, Sink, WriteDevice, used_columns};
use cif_records::Tiploc;
use cif_rows::{Format, Padding, RowFormat, Rows, Shape};

/// Appends the names of the fields, if the format has them, and the rows.
pub(crate) fn write_rows<F: RowFormat, W: WriteDevice>(
    board: &Board,
    tiplocs: &[Tiploc],
    board_rows: &[BoardRow],
    sink: &mut Sink<W>,
)
    requires { AllPairs (λ s t. slice_cmp nat_cmp s.columns t.columns ≡ Less) tiplocs.now }
    ensures { IsAppended W.contents W.write_errors (board_text F.FORMAT board.now tiplocs.now board_rows.now) sink.old sink.new }
{
    let mut rows = Rows::<F>::new();
    push_names(&mut rows, board, sink);
    for row in board_rows {
        rows.begin_row(sink);
        push_row(&mut rows, board, tiplocs, row, sink);
        rows.end_row(sink);
    }
    rows.finish(sink);
}

/// The names of the fields of a row.
const BOARD_NAMES: [&str; 15] = [
    "date",
    "time",
    "train_date",
    "uid",
    "identity",
    "operator_code",
    "category",
    "status",
    "location",
    "platform",
    "call",
    "origin",
    "origin_name",
    "destination",
    "destination_name",
];

/// The names of those of the place where the train has to call.
const CALLING_NAMES: [&str; 3] = ["calling_at", "calling_at_date", "calling_at_time"];

/// Adds the names of the fields, if they stand before the rows.
fn push_names<F: RowFormat, W: WriteDevice>(rows: &mut Rows<F>, board: &Board, sink: &mut Sink<W>)
    ensures { Adds W.contents W.write_errors (heading_text F.FORMAT (board_names board.now)) sink.old sink.new rows.old rows.new }
{
    rows.push_names(sink, &BOARD_NAMES);
    push_calling_names(rows, board.calling_at, sink);
    rows.end_names();
}

/// Adds the names of the fields of the place where the train has to call.
fn push_calling_names<F: RowFormat, W: WriteDevice>(
    rows: &mut Rows<F>,
    goal: Option<Place>,
    sink: &mut Sink<W>,
)
    ensures { Adds W.contents W.write_errors (names_text F.FORMAT (calling_names goal))
        sink.old sink.new rows.old rows.new }
{
    if goal.is_some() {
        rows.push_names(sink, &CALLING_NAMES);
    }
}

/// Adds the fields of a row.
fn push_row<F: RowFormat, W: WriteDevice>(
    rows: &mut Rows<F>,
    board: &Board,
    tiplocs: &[Tiploc],
    row: &BoardRow,
    sink: &mut Sink<W>,
)
    requires { AllPairs (λ s t. slice_cmp nat_cmp s.columns t.columns ≡ Less) tiplocs.now }
    ensures { Adds W.contents W.write_errors (fields_text F.FORMAT (board_fields F.FORMAT board.now tiplocs.now row.now)) sink.old sink.new rows.old rows.new }
{
    match F::FORMAT {
        Format::Text => push_line(rows, board.kind, tiplocs, row, sink),
        Format::Tsv | Format::Json => push_fields(rows, board.day, tiplocs, row, sink),
    }
}

/// Adds the fields of a row of a table.
fn push_fields<F: RowFormat, W: WriteDevice>(
    rows: &mut Rows<F>,
    day: Day,
    tiplocs: &[Tiploc],
    row: &BoardRow,
    sink: &mut Sink<W>,
)
    requires { AllPairs (λ s t. slice_cmp nat_cmp s.columns t.columns ≡ Less) tiplocs.now }
    ensures { Adds W.contents W.write_errors (fields_text F.FORMAT (table_fields day tiplocs.now row.now)) sink.old sink.new rows.old rows.new }
{
    push_train(rows, day, row, sink);
    push_call(rows, row, sink);
    push_ends(rows, tiplocs, &row.train, sink);
    push_calling_at(rows, row.calling_at, sink);
}

/// Adds when a call is, and which train makes it.
fn push_train<F: RowFormat, W: WriteDevice>(
    rows: &mut Rows<F>,
    day: Day,
    row: &BoardRow,
    sink: &mut Sink<W>,
)
    ensures { Adds W.contents W.write_errors (fields_text F.FORMAT (train_fields day row.now)) sink.old sink.new rows.old rows.new }
{
    let (key, train) = (row.key, row.train);
    rows.push_fields(
        sink,
        &[
            ("date", Padding::Apart, Shape::Date, &day.to_yymmdd()),
            ("time", Padding::Apart, Shape::Whole, &key.time.write()),
            (
                "train_date",
                Padding::Apart,
                Shape::Date,
                &key.train_date.to_yymmdd(),
            ),
            ("uid", Padding::Apart, Shape::Whole, &key.uid.write()),
            ("identity", Padding::Apart, Shape::Trimmed, &train.identity),
            (
                "operator_code",
                Padding::Apart,
                Shape::Trimmed,
                &train.operator,
            ),
            ("category", Padding::Apart, Shape::Trimmed, &train.category),
            ("status", Padding::Apart, Shape::Trimmed, &train.status),
        ],
    );
}

/// Adds where a call is.
fn push_call<F: RowFormat, W: WriteDevice>(rows: &mut Rows<F>, row: &BoardRow, sink: &mut Sink<W>)
    ensures { Adds W.contents W.write_errors (fields_text F.FORMAT (call_fields row.now)) sink.old sink.new rows.old rows.new }
{
    rows.push_fields(
        sink,
        &[
            ("location", Padding::Apart, Shape::Trimmed, &row.location),
            ("platform", Padding::Apart, Shape::Trimmed, &row.platform),
        ],
    );
    rows.push_number(sink, "call", row.key.call);
}

/// Adds where a train comes from and goes to.
fn push_ends<F: RowFormat, W: WriteDevice>(
    rows: &mut Rows<F>,
    tiplocs: &[Tiploc],
    train: &BoardTrain,
    sink: &mut Sink<W>,
)
    requires { AllPairs (λ s t. slice_cmp nat_cmp s.columns t.columns ≡ Less) tiplocs.now }
    ensures { Adds W.contents W.write_errors (fields_text F.FORMAT (end_fields tiplocs.now train.now)) sink.old sink.new rows.old rows.new }
{
    let train = *train;
    rows.push_fields(
        sink,
        &[
            ("origin", Padding::Apart, Shape::Trimmed, &train.origin),
            (
                "origin_name",
                Padding::Apart,
                Shape::Trimmed,
                &location_name(tiplocs, &train.origin),
            ),
            (
                "destination",
                Padding::Apart,
                Shape::Trimmed,
                &train.destination,
            ),
            (
                "destination_name",
                Padding::Apart,
                Shape::Trimmed,
                &location_name(tiplocs, &train.destination),
            ),
        ],
    );
}

/// Adds when the train is where it has to call.
fn push_calling_at<F: RowFormat, W: WriteDevice>(
    rows: &mut Rows<F>,
    calling_at: CallingAt,
    sink: &mut Sink<W>,
)
    ensures { Adds W.contents W.write_errors (fields_text F.FORMAT (calling_fields calling_at)) sink.old sink.new rows.old rows.new }
{
    let Some(location) = calling_at.location else {
        return;
    };
    rows.push(
        sink,
        "calling_at",
        Padding::Apart,
        Shape::Trimmed,
        &location,
    );
    push_date(rows, calling_at.date, sink);
    rows.push(
        sink,
        "calling_at_time",
        Padding::Apart,
        Shape::Whole,
        &calling_at.time.write(),
    );
}

/// Adds the date on which it calls there.
fn push_date<F: RowFormat, W: WriteDevice>(
    rows: &mut Rows<F>,
    date: Option<[u8; 10]>,
    sink: &mut Sink<W>,
)
    ensures { Adds W.contents W.write_errors (fields_text F.FORMAT (named (codes "calling_at_date") (date_value date) ∷ [])) sink.old sink.new rows.old rows.new }
{
    match date {
        Some(date) => rows.push(sink, "calling_at_date", Padding::Apart, Shape::Whole, &date),
        None => rows.push(sink, "calling_at_date", Padding::Apart, Shape::Whole, b""),
    }
}

/// Adds the fields of a line of text.
fn push_line<F: RowFormat, W: WriteDevice>(
    rows: &mut Rows<F>,
    kind: BoardKind,
    tiplocs: &[Tiploc],
    row: &BoardRow,
    sink: &mut Sink<W>,
)
    requires { AllPairs (λ s t. slice_cmp nat_cmp s.columns t.columns ≡ Less) tiplocs.now }
    ensures { Adds W.contents W.write_errors (fields_text F.FORMAT (line_fields kind tiplocs.now row.now)) sink.old sink.new rows.old rows.new }
{
    push_minute(rows, "time", row.key.time, sink);
    push_calling_time(rows, row.calling_at, sink);
    let (platform, uid, train) = (row.platform, row.key.uid, row.train);
    rows.push_fields(
        sink,
        &[
            ("platform", Padding::Apart, Shape::Trimmed, &platform),
            (
                "operator_code",
                Padding::Apart,
                Shape::Trimmed,
                &train.operator,
            ),
            ("identity", Padding::Apart, Shape::Trimmed, &train.identity),
            ("uid", Padding::Apart, Shape::Whole, &uid.write()),
        ],
    );
    push_end(rows, tiplocs, end_of(kind, &row.train), sink);
}

/// Adds the hour and the minute at which the train is where it has to call.
fn push_calling_time<F: RowFormat, W: WriteDevice>(
    rows: &mut Rows<F>,
    calling_at: CallingAt,
    sink: &mut Sink<W>,
)
    ensures { Adds W.contents W.write_errors (fields_text F.FORMAT (calling_time calling_at)) sink.old sink.new rows.old rows.new }
{
    match calling_at.location {
        Some(_) => push_minute(rows, "calling_at_time", calling_at.time, sink),
        None => {}
    }
}

/// The end of a train that a line of text names.
fn end_of(kind: BoardKind, train: &BoardTrain) -> [u8; 7]
    ensures { result ≡ end_of kind train.now }
{
    match kind {
        BoardKind::Departures => train.destination,
        BoardKind::Arrivals => train.origin,
    }
}

/// Adds the hour and the minute of a time of day.
fn push_minute<F: RowFormat, W: WriteDevice>(
    rows: &mut Rows<F>,
    name: &str,
    time: TimeOfDay,
    sink: &mut Sink<W>,
)
    requires { length name.now ≤ 100 }
    ensures { Adds W.contents W.write_errors (fields_text F.FORMAT (named name.now (Whole, hour_and_minute time) ∷ [])) sink.old sink.new rows.old rows.new }
{
    let time = time.write();
    let (minute, _) = time.split_at(5);
    rows.push(sink, name, Padding::Apart, Shape::Whole, minute);
}

/// Adds the name of the end of a train, or its TIPLOC if it has none.
fn push_end<F: RowFormat, W: WriteDevice>(
    rows: &mut Rows<F>,
    tiplocs: &[Tiploc],
    end: [u8; 7],
    sink: &mut Sink<W>,
)
    requires { AllPairs (λ s t. slice_cmp nat_cmp s.columns t.columns ≡ Less) tiplocs.now }
    ensures { Adds W.contents W.write_errors (fields_text F.FORMAT (named (codes "end") (text (end_text tiplocs.now end)) ∷ [])) sink.old sink.new rows.old rows.new }
{
    let name = location_name(tiplocs, &end);
    let used = used_columns(&name);
    if used > 0 {
        rows.push(sink, "end", Padding::Apart, Shape::Trimmed, &name[..used]);
    } else {
        let used = used_columns(&end);
        rows.push(sink, "end", Padding::Apart, Shape::Trimmed, &end[..used]);
    }
}
