//! The calendar of a train, date by date.
ghost use Rattle.std.specs.Prelude.{◌≡◌, ◌+◌, ℕ, List, IfErr, codes, length};
ghost use Rattle.std.specs.List.{flat_map};
ghost use Rattle.cif_canon.specs.Normalised.{FaultWrites, IfWritten};
ghost use Rattle.cif_extract.specs.ExtractParts.{extract_parts};
ghost use Rattle.cif_rows.specs.{Adds.Adds, Appended.IsAppended, Row.named, Row.row_text, Steps.field_text};
ghost use Rattle.cif_views.specs.DateCalendar.{IsDateCalendar, date_row, dates_text, runs};
ghost use Rattle.cif_views.specs.{Steps.WeekCalendar.state_in, WeekCalendar.IsWeekCalendarFault};

use crate::calendar_weeks::{character, states_of_train};
use crate::line_fields::push_nothing;
use cif_calendar::{DayState, Window};
use cif_canon::writing::answer;
use cif_columns::{Day, Sink, Stp, Uid, WriteDevice};
use cif_extract::{Extract, Fault};
use cif_rows::{Format, Json, Padded, Padding, RowFormat, Rows, Shape, Tsv};
use std::alloc::Global;

/// The fields of a date.
const DATE_NAMES: [&str; 4] = ["uid", "date", "mark", "runs"];

/// Appends the calendar of the train in the extract's window, in this format: a row for each date, rising, with the
/// character that `week_calendar` has of it, and whether the train runs. That is 1 or 0, and nothing on a date of a clash.
///
/// A clash is no fault: the faults are those of `week_calendar`.
pub fn date_calendar<W: WriteDevice>(
    alloc: Global,
    extract: &Extract,
    uid: &Uid,
    format: Format,
    sink: &mut Sink<W>,
) -> Result<(), Fault>
    ensures view { (text : List ℕ)
        × FaultWrites W.contents W.write_errors text sink.old sink.new result
        × IfWritten result (IsDateCalendar format (extract_parts extract.now) uid.now text) }
    ensures fault { IfErr result IsWeekCalendarFault }
{
    let window = Window::of(&extract.header);
    let states = states_of_train(alloc, extract.schedules.as_slice(), uid, &window)?;
    let states = states.as_slice();
    match format {
        Format::Text => write_dates::<Padded, W>(uid, states, &window, sink),
        Format::Tsv => write_dates::<Tsv, W>(uid, states, &window, sink),
        Format::Json => write_dates::<Json, W>(uid, states, &window, sink),
    }
    answer(sink)
}

/// Appends the names of the fields and the rows of the dates of the window, on each of which one of these states stands.
fn write_dates<F: RowFormat, W: WriteDevice>(
    uid: &Uid,
    states: &[DayState],
    window: &Window,
    sink: &mut Sink<W>,
)
    requires { window.now.first + length states.now ≡ window.now.last + 1 }
    ensures { IsAppended W.contents W.write_errors
        (dates_text F.FORMAT uid.now window.now.first window.now.last (state_in window.now.first states.now)) sink.old sink.new }
{
    let mut rows = Rows::<F>::new();
    rows.push_names(sink, &DATE_NAMES);
    rows.end_names();
    let mut day = window.first;
    for state in states {
        push_date(&mut rows, uid, day, *state, sink);
        day = day.next_up_to(window.last).unwrap_or(day);
    }
    rows.finish(sink);
}

/// Adds the row of a date.
fn push_date<F: RowFormat, W: WriteDevice>(
    rows: &mut Rows<F>,
    uid: &Uid,
    day: Day,
    state: DayState,
    sink: &mut Sink<W>,
)
    ensures { Adds W.contents W.write_errors (row_text F.FORMAT (date_row uid.now day state)) sink.old sink.new rows.old rows.new }
{
    rows.begin_row(sink);
    rows.push(sink, "uid", Padding::Apart, Shape::Whole, &uid.write());
    rows.push(sink, "date", Padding::Apart, Shape::Date, &day.to_yymmdd());
    rows.push(
        sink,
        "mark",
        Padding::Apart,
        Shape::Trimmed,
        &[character(state)],
    );
    push_runs(rows, state, sink);
    rows.end_row(sink);
}

/// Adds whether the train runs.
fn push_runs<F: RowFormat, W: WriteDevice>(rows: &mut Rows<F>, state: DayState, sink: &mut Sink<W>)
    ensures { Adds W.contents W.write_errors (field_text F.FORMAT (named (codes "runs") (runs state))) sink.old sink.new rows.old rows.new }
{
    match state {
        DayState::NoneApplies => rows.push_number(sink, "runs", 0),
        DayState::Clash => push_nothing(rows, "runs", sink),
        DayState::Letter(Stp::C) => rows.push_number(sink, "runs", 0),
        DayState::Letter(_) => rows.push_number(sink, "runs", 1),
    }
}
