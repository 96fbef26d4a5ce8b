//! Which published schedule decides on each date of each train: the records of form 3 of the dates on which each does.
ghost use Rattle.std.specs.Prelude.{◌≡◌, ◌<◌, ℕ, All, IfOk, IsPermutation, List, codes, length, map};
ghost use Rattle.std.specs.{BTreeMap.get, Ordering.nat_cmp};
ghost use Rattle.cif_feed.specs.Steps.Deciding.{AppliesAt, AreDecided, AreInOrder, ranked_at, rows_of};
ghost use Rattle.cif_feed.specs.Steps.Dropping.{ReadsTrains};
ghost use Rattle.cif_feed.specs.{Steps.Deciding.as_record, Winners.last_value, Winners.winner_names, Winners.winner_values, Winners.winners_table};
ghost use Rattle.cif_rows.specs.{Adds.Adds, Appended.IsAppended, Row.all_named, Row.named, Row.row_text, Steps.field_text};
ghost use Rattle.cif_weeks.specs.Window.{window_days};

use crate::deciding::{Deciders, decided};
use crate::prepare::ClashDates;
use crate::{Holidays, PublishedExtract, PublishedSchedule};
use cif_calendar::{RankedEntry, Window, count_of_first_key, positions_by_key, precedence};
use cif_columns::{Sink, WriteDevice};
use cif_rows::{Format, Json, Padded, Padding, RowFormat, Rows, Shape, Tsv};
use cif_weeks::Run;
use std::alloc::{AllocError, Global};

/// The fields of a row.
const WINNER_NAMES: [&str; 7] = [
    "uid",
    "first_date",
    "last_date",
    "stp_indicator",
    "wins_from",
    "wins_to",
    "days_run",
];

/// The records of form 3 of the dates on which each schedule of the extract decides, by UID and then first date. The source of
/// a run is the position of the schedule.
pub(crate) fn winning_runs(alloc: Global, deciders: Deciders<'_>) -> Result<Vec<Run>, AllocError>
    ensures within { IfOk result (λ runs. All (λ run. run.source < length deciders.entry.schedules.now) runs.items) }
    ensures decides { IfOk result (λ runs. (days : List ℕ → List ℕ) → ReadsTrains days (get nat_cmp deciders.entry.clash_dates.now)
        → AreDecided (window_days deciders.entry.window.now) (AppliesAt deciders.entry.holidays.now days
        deciders.entry.window.now.last deciders.entry.schedules.now) deciders.entry.schedules.now
        (rows_of deciders.entry.schedules.now runs.items)) }
{
    let schedules = deciders.schedules;
    let positions = positions_by_key(alloc, schedules)?;
    let mut all = Vec::new(alloc);
    let mut rest = positions.as_slice();
    while !rest.is_empty() {
        let (members, later) = rest.split_at(count_of_first_key(schedules, rest));
        let ranked = by_precedence(alloc, schedules, members)?;
        let runs = decided(alloc, deciders, ranked.as_slice())?;
        all.extend_from_slice(runs.as_slice())?;
        rest = later;
    }
    Ok(all)
}

/// The positions with the precedence of their schedules, in the order of these, and of one precedence rising.
fn by_precedence(
    alloc: Global,
    schedules: &[PublishedSchedule],
    members: &[usize],
) -> Result<Vec<(u8, usize)>, AllocError>
    requires { All (λ i. i < length schedules.now) members.now }
    ensures ranked { IfOk result (λ ranked. IsPermutation (map (ranked_at schedules.now) members.now) ranked.items) }
    ensures in_order { IfOk result (λ ranked. AreInOrder ranked.items) }
    ensures within { IfOk result (λ ranked. All (λ p. p.1 < length schedules.now) ranked.items) }
{
    let mut ranked = Vec::with_capacity(alloc, members.len())?;
    for position in members {
        ranked.push((precedence(&schedules[*position]), *position))?;
    }
    ranked.sort_unstable();
    Ok(ranked)
}

/// Appends the table of these runs in this format: a row for each.
pub(crate) fn append_table<W: WriteDevice>(
    schedules: &[PublishedSchedule],
    runs: &[Run],
    format: Format,
    sink: &mut Sink<W>,
)
    requires { All (λ run. run.source < length schedules.now) runs.now }
    ensures { IsAppended W.contents W.write_errors (winners_table format schedules.now (rows_of schedules.now runs.now))
        sink.old sink.new }
{
    match format {
        Format::Text => write_rows::<Padded, W>(schedules, runs, sink),
        Format::Tsv => write_rows::<Tsv, W>(schedules, runs, sink),
        Format::Json => write_rows::<Json, W>(schedules, runs, sink),
    }
}

/// Appends the names of the fields and the rows of the runs.
fn write_rows<F: RowFormat, W: WriteDevice>(
    schedules: &[PublishedSchedule],
    runs: &[Run],
    sink: &mut Sink<W>,
)
    requires { All (λ run. run.source < length schedules.now) runs.now }
    ensures { IsAppended W.contents W.write_errors (winners_table F.FORMAT schedules.now (rows_of schedules.now runs.now))
        sink.old sink.new }
{
    let mut rows = Rows::<F>::new();
    rows.push_names(sink, &WINNER_NAMES);
    rows.end_names();
    for run in runs {
        push_winner(&mut rows, &schedules[run.source], run, sink);
    }
    rows.finish(sink);
}

/// Adds the row of a schedule and the dates on which it decides.
fn push_winner<F: RowFormat, W: WriteDevice>(
    rows: &mut Rows<F>,
    one: &PublishedSchedule,
    run: &Run,
    sink: &mut Sink<W>,
)
    ensures { Adds W.contents W.write_errors (row_text F.FORMAT (all_named winner_names (winner_values one.now (as_record run.now))))
        sink.old sink.new rows.old rows.new }
{
    let schedule = &one.schedule;
    rows.begin_row(sink);
    rows.push(
        sink,
        "uid",
        Padding::Apart,
        Shape::Whole,
        &schedule.uid.write(),
    );
    rows.push(
        sink,
        "first_date",
        Padding::Apart,
        Shape::Date,
        &schedule.first.to_yymmdd(),
    );
    push_last(rows, one, sink);
    rows.push(
        sink,
        "stp_indicator",
        Padding::Apart,
        Shape::Trimmed,
        &[schedule.letter.write()],
    );
    rows.push(
        sink,
        "wins_from",
        Padding::Apart,
        Shape::Date,
        &run.first.to_yymmdd(),
    );
    rows.push(
        sink,
        "wins_to",
        Padding::Apart,
        Shape::Date,
        &run.last.to_yymmdd(),
    );
    rows.push(
        sink,
        "days_run",
        Padding::Apart,
        Shape::Trimmed,
        &run.days.write(),
    );
    rows.end_row(sink);
}

/// Adds the last date of the schedule; nothing where its end is open.
fn push_last<F: RowFormat, W: WriteDevice>(
    rows: &mut Rows<F>,
    one: &PublishedSchedule,
    sink: &mut Sink<W>,
)
    ensures { Adds W.contents W.write_errors (field_text F.FORMAT (named (codes "last_date") (last_value one.now)))
        sink.old sink.new rows.old rows.new }
{
    if one.open_end {
        rows.push(sink, "last_date", Padding::Apart, Shape::Trimmed, b"");
    } else {
        rows.push(
            sink,
            "last_date",
            Padding::Apart,
            Shape::Date,
            &one.schedule.last.to_yymmdd(),
        );
    }
}
