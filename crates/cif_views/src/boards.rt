//! What leaves from a place on a date, and what arrives there, by the clock.
ghost use Rattle.std.specs.Prelude.{◌≡◌, ◌≤◌, ◌+◌, ◌-◌, ◌++◌, ℕ, IfErr, IfOk, List, None, OnOk, Some, cond, nat_le, option_map, pos};
ghost use Rattle.std.specs.List.{find, list_any};
ghost use Rattle.cif_canon.specs.{Normalised.FaultWrites, Normalised.IfWritten, Views.IsDayFault};
ghost use Rattle.cif_columns.specs.Field.{columns_from};
ghost use Rattle.jiff.specs.Words.{IsBetween};
ghost use Rattle.cif_extract.specs.ExtractParts.{extract_parts};
ghost use Rattle.cif_views.specs.Boards.{IsBoard, board_train, clock_time, date_on, date_text, destination_in};
ghost use Rattle.cif_views.specs.Boards.{is_shown, origin_in};
ghost use Rattle.cif_views.specs.Steps.Boards.{AreRowsOf, calling_from, goal_in, is_at, is_goal, row_if, rows_from, rows_of};

use crate::board::{Board, BoardKey, BoardKind, BoardRow, BoardTrain, CallingAt, add_row};
use crate::board_text::write_rows;
use crate::columns::extra_among;
use crate::moment::{ClockTime, TimeOfDay};
use crate::places::Locations;
use crate::public_calls::public_stops;
use crate::public_stop::PublicStop;
use cif_canon::writing::answer;
use cif_canon::{CanonSchedule, CanonSchedules, canon_schedules, check_within, distinct_tiplocs};
use cif_columns::{Day, LineSlice, Sink, WriteDevice, columns_at, digits_of};
use cif_extract::{Body, Extract, Fault};
use cif_records::Tiploc;
use cif_rows::{Format, Json, Padded, Tsv};
use cif_weeks::Form;
use jiff_core::civil::Date;
use std::alloc::{AllocError, Global};

/// Appends the board of what leaves from a place, or arrives there, on a date, in this format: a row for each call, by
/// the time of day, the UID, the date on which the train runs, and the call. A table begins with the names of its fields.
///
/// The faults are those of `day_listing`.
pub fn write_board<W: WriteDevice>(
    alloc: Global,
    extract: &Extract,
    board: &Board,
    format: Format,
    sink: &mut Sink<W>,
) -> Result<(), Fault>
    ensures view { (text : List ℕ)
        × FaultWrites W.contents W.write_errors text sink.old sink.new result
        × IfWritten result (IsBoard format (extract_parts extract.now) board.now text) }
    ensures fault { IfErr result (IsDayFault (extract_parts extract.now) board.now.day) }
{
    check_within(&extract.header, board.day)?;
    let schedules = canon_schedules(alloc, extract, Form::Three)?;
    let tiplocs = distinct_tiplocs(alloc, extract.tiplocs.as_slice())?;
    let rows = board_rows(alloc, extract.tiplocs.as_slice(), &schedules, board)?;
    let (tiplocs, rows) = (tiplocs.as_slice(), rows.as_slice());
    match format {
        Format::Text => write_rows::<Padded, W>(board, tiplocs, rows, sink),
        Format::Tsv => write_rows::<Tsv, W>(board, tiplocs, rows, sink),
        Format::Json => write_rows::<Json, W>(board, tiplocs, rows, sink),
    }
    answer(sink)
}

/// What is looked for among the public calls of trains.
#[derive(Drop)]
struct Wanted {
    kind: BoardKind,
    day: Day,
    place: Locations,
    goal: Option<Locations>,
}

/// The rows of a board, in their order.
fn board_rows(
    alloc: Global,
    tiplocs: &[Tiploc],
    schedules: &CanonSchedules<'_>,
    board: &Board,
) -> Result<Vec<BoardRow>, AllocError>
    ensures { IfOk result (λ rows. AreRowsOf tiplocs.now board.now schedules.now rows.items) }
{
    let place = Locations::of(alloc, tiplocs, &board.place)?;
    let goal = match &board.calling_at {
        Some(goal) => Some(Locations::of(alloc, tiplocs, goal)?),
        None => None,
    };
    let wanted = Wanted {
        kind: board.kind,
        day: board.day,
        place,
        goal,
    };
    let mut rows = Vec::new(alloc);
    for position in 0..schedules.len() {
        wanted.add_rows(alloc, &mut rows, &schedules.at(position))?;
    }
    rows.sort_unstable_by_key(|row| row.key);
    Ok(rows)
}

impl Wanted {
    /// Adds the rows of a schedule.
    // Few trains call at the place, and the lines of others are only looked at.
    fn add_rows(
        &self,
        alloc: Global,
        rows: &mut Vec<BoardRow>,
        schedule: &CanonSchedule<'_>,
    ) -> Result<(), AllocError>
        ensures { OnOk result (rows.new.items ≡ rows.old.items ++ rows_of self.now schedule.now) }
    {
        if self.day < schedule.first() {
            return Ok(());
        }
        if !are_at(schedule.further(), &self.place) {
            return Ok(());
        }
        let stops = public_stops(alloc, schedule.further())?;
        let train = train_of(schedule.body(), stops.as_slice());
        self.add_each(rows, schedule, &train, stops.as_slice())
    }

    /// Adds the rows of public calls, which are all that are left of a train.
    fn add_each(
        &self,
        rows: &mut Vec<BoardRow>,
        schedule: &CanonSchedule<'_>,
        train: &BoardTrain,
        stops: &[PublicStop],
    ) -> Result<(), AllocError>
        ensures { OnOk result (rows.new.items ≡ rows.old.items ++ rows_from self.now schedule.now train.now stops.now) }
    {
        let mut rest = stops;
        while let [stop, later @ ..] = rest {
            add_row(rows, self.row_of(schedule, train, stop, later))?;
            rest = later;
        }
        Ok(())
    }

    /// The row of a public call, which has these behind it.
    fn row_of(
        &self,
        schedule: &CanonSchedule<'_>,
        train: &BoardTrain,
        stop: &PublicStop,
        later: &[PublicStop],
    ) -> Option<BoardRow>
        ensures { result ≡ row_if self.now schedule.now train.now stop.now later.now }
    {
        if !stop.is_shown(self.kind) || !self.place.has(&stop.location) {
            return None;
        }
        let ClockTime { midnights, time } = stop.time(self.kind);
        let train_date = date_before(self.day, midnights)?;
        if !schedule.runs_on(train_date) {
            return None;
        }
        let calling_at = self.calling_at(train_date, later)?;
        Some(BoardRow {
            key: BoardKey {
                time,
                uid: *schedule.uid(),
                train_date,
                call: stop.call,
            },
            location: stop.location,
            platform: stop.platform,
            train: *train,
            calling_at,
        })
    }

    /// When a train of this date calls where it has to, at one of these calls; `None` if it doesn't call there.
    fn calling_at(&self, train_date: Day, later: &[PublicStop]) -> Option<CallingAt>
        ensures { result ≡ calling_from self.now.goal train_date later.now }
    {
        let Some(goal) = &self.goal else {
            return Some(CallingAt {
                location: None,
                date: None,
                time: TimeOfDay::new(0),
            });
        };
        let stop = first_goal(goal, later)?;
        Some(CallingAt {
            location: Some(stop.location),
            date: date_after(train_date, stop.arrival.midnights),
            time: stop.arrival.time,
        })
    }
}

impl PublicStop {
    /// When the train is there, as a board of this kind shows it.
    fn time(&self, kind: BoardKind) -> ClockTime
        ensures { result ≡ clock_time kind self.now }
    {
        match kind {
            BoardKind::Departures => self.departure,
            BoardKind::Arrivals => self.arrival,
        }
    }

    /// Whether a board of this kind shows the call.
    fn is_shown(&self, kind: BoardKind) -> bool
        ensures { result ≡ is_shown kind self.now }
    {
        match kind {
            BoardKind::Departures => self.gets_on,
            BoardKind::Arrivals => self.gets_off,
        }
    }
}

/// Whether one of the lines is at one of the locations.
pub fn are_at(lines: LineSlice<'_>, place: &Locations) -> bool
    ensures { result ≡ list_any (λ line. is_at place.now (columns_from 3 7 line)) lines.entry }
{
    let mut lines = lines;
    while !lines.is_empty() {
        if place.has(&columns_at(&lines.first(), 3)) {
            return true;
        }
        lines = lines.rest();
    }
    false
}

/// The date that is so many days before this one.
fn date_before(day: Day, days: u128) -> Option<Day>
    ensures { result ≡ cond (nat_le days day) (Some (day - days)) None }
{
    let number = u128::from(day.number());
    if days <= number {
        Day::from_number((number - days) as u16)
    } else {
        None
    }
}

/// The number of 31 December 9999, counted as days are.
const LAST_NUMBER: u128 = 2_936_549;

/// The date YYYY-MM-DD that is so many days after this one; `None` after the year 9999.
fn date_after(day: Day, days: u128) -> Option<[u8; 10]>
    ensures { result ≡ date_on (day + days) }
{
    let number = u128::from(day.number());
    if days <= LAST_NUMBER - number {
        Some(date_text((number + days) as u32))
    } else {
        None
    }
}

/// How many days after 1 January of the year -9999, from which jiff counts, day 0 is.
const DAYS_BEFORE: u32 = 4_367_934;

/// The date YYYY-MM-DD of the day with this number, up to the year 9999.
fn date_text(number: u32) -> [u8; 10]
    requires { number ≤ 2936549 }
    ensures { result ≡ date_text number }
{
    let date = Date::from_days_since_min(number + DAYS_BEFORE);
    let year = year_of(date);
    let [a, b] = digits_of((year / 100) as u8);
    let [c, d] = digits_of((year % 100) as u8);
    let [e, f] = digits_of(date.month);
    let [g, h] = digits_of(date.day);
    [a, b, c, d, b'-', e, f, b'-', g, h]
}

/// The first of these calls at which riders may get off, at one of the locations.
fn first_goal<'a>(goal: &Locations, later: &'a [PublicStop]) -> Option<&'a PublicStop>
    ensures { option_map (λ stop. stop.now) result ≡ goal_in goal.now later.now }
{
    for stop in later {
        if is_goal(goal, stop) {
            return Some(stop);
        }
    }
    None
}

/// Whether riders may get off at this call, at one of the locations.
fn is_goal(goal: &Locations, stop: &PublicStop) -> bool
    ensures { result ≡ is_goal goal.now stop.now }
{
    stop.gets_off && goal.has(&stop.location)
}

/// What a board says of a train with this body and these public calls.
fn train_of(body: &Body, stops: &[PublicStop]) -> BoardTrain
    ensures { result ≡ board_train body.now stops.now }
{
    let detail = body.detail_line();
    let extra = extra_among(&body.further_lines());
    BoardTrain {
        identity: columns_at(&detail, 33),
        operator: columns_at(&extra, 12),
        category: columns_at(&detail, 31),
        status: columns_at(&detail, 30),
        origin: origin_of(stops),
        destination: destination_of(stops),
    }
}

/// The TIPLOC of no location.
const NO_LOCATION: [u8; 7] = *b"       ";

/// Where riders first get on, or the first of the calls.
fn origin_of(stops: &[PublicStop]) -> [u8; 7]
    ensures { result ≡ origin_in stops.now }
{
    match first_open(stops).or(stops.first()) {
        Some(stop) => stop.location,
        None => NO_LOCATION,
    }
}

/// The first of the calls at which riders may get on.
fn first_open(stops: &[PublicStop]) -> Option<&PublicStop>
    ensures { option_map (λ stop. stop.now) result ≡ find (λ s. s.gets_on) stops.now }
{
    for stop in stops {
        if stop.gets_on {
            return Some(stop);
        }
    }
    None
}

/// Where riders last get off, or the last of the calls.
fn destination_of(stops: &[PublicStop]) -> [u8; 7]
    ensures { result ≡ destination_in stops.now }
{
    let mut last = None;
    let mut last_open = None;
    for stop in stops {
        last = Some(stop.location);
        last_open = location_if(stop.gets_off, stop.location, last_open);
    }
    last_open.or(last).unwrap_or(NO_LOCATION)
}

/// This location if it passes, or else what was found before.
fn location_if(passes: bool, location: [u8; 7], found: Option<[u8; 7]>) -> Option<[u8; 7]>
    ensures { result ≡ cond passes (Some location) found }
{
    if passes { Some(location) } else { found }
}

/// The year of a date from 1960 on.
fn year_of(date: Date) -> u16
    requires { IsBetween (pos 1960) (pos 9999) date.year }
    ensures year { date.year ≡ pos result }
    ensures bound { result ≤ 9999 }
{
    date.year as u16
}
