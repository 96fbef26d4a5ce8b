//! The public calls of a schedule, as rows of a table.
ghost use Rattle.std.specs.Prelude.{◌≡◌, ◌<◌, ◌≤◌, ◌+◌, ◌^◌, ◌++◌, ◌∷◌, [], ℕ, IfOk, IfSome, List, OnOk, codes, cond, length, map};
ghost use Rattle.cif_columns.specs.{Activities.codes_in, Field.columns_from};
ghost use Rattle.std.specs.List.{flat_map};
ghost use Rattle.cif_rows.specs.{Adds.Adds, Appended.IsAppended, Row.all_named, Row.named, Row.row_text, Steps.field_text};
ghost use Rattle.cif_rows.specs.Steps.{fields_text};
ghost use Rattle.cif_views.specs.Boards.{stop_of};
ghost use Rattle.cif_views.specs.Moments.{IsBy, IsOnTheWay};
ghost use Rattle.cif_views.specs.PublicCalls.{advertised, answer_of, pick_up, platform_in, public_fields, riders_in, riders_of};
ghost use Rattle.cif_views.specs.PublicCalls.{said_by, set_down, times_in, times_of, working};
ghost use Rattle.cif_views.specs.Steps.PublicCalls.{at_first, public_call, public_from, reached_moment, shown_at, stay, step, step_at};
ghost use Rattle.cif_views.specs.Steps.PublicRows.{IsJourneyBy, IsStayBy, IsToShow, joined, public_values, row_of_step, shown_in};
ghost use Rattle.cif_views.specs.Tables.{is_call, kind_of_line, names, numbered_from, row_of};

use crate::columns::{JourneyKind, call_after, kind_of_line};
use crate::moment::{Moment, TimeOfDay};
use crate::public_stop::PublicStop;
use cif_columns::{Line, LineSlice, PublicTime, Sink, WorkTime, WriteDevice, columns_at};
use cif_rows::{Numeral, Padding, RowFormat, Rows, Shape};
use std::alloc::{AllocError, Global};

/// The times of day of a call: the working times, and the public ones.
#[derive(Clone, Copy)]
struct CallTimes {
    arrival: Option<TimeOfDay>,
    pass: Option<TimeOfDay>,
    departure: Option<TimeOfDay>,
    public_arrival: Option<TimeOfDay>,
    public_departure: Option<TimeOfDay>,
}

/// The moments at which a call is reached and left.
#[derive(Clone, Copy)]
struct Stay {
    reached: Moment,
    left: Moment,
}

/// The moments that the table shows of a public call.
#[derive(Clone, Copy)]
struct Shown {
    arrival: Moment,
    departure: Moment,
}

impl CallTimes {
    /// The times in a line of this kind.
    #[inline(always)]
    fn of(kind: JourneyKind, line: &Line) -> CallTimes
        ensures { result ≡ times_in kind line.now }
    {
        let mut times = CallTimes {
            arrival: None,
            pass: None,
            departure: None,
            public_arrival: None,
            public_departure: None,
        };
        match kind {
            JourneyKind::Origin => {
                times.departure = working(line, 11);
                times.public_departure = advertised(line, 16);
            }
            JourneyKind::Stop => {
                times.arrival = working(line, 11);
                times.departure = working(line, 16);
                times.pass = working(line, 21);
                times.public_arrival = advertised(line, 26);
                times.public_departure = advertised(line, 30);
            }
            JourneyKind::Terminus => {
                times.arrival = working(line, 11);
                times.public_arrival = advertised(line, 16);
            }
            JourneyKind::Change | JourneyKind::Other => {}
        }
        times
    }

    /// When the call is reached and left, behind the moment at which the call before was left; `None` if it
    /// isn't timed.
    #[inline(always)]
    fn stay(&self, before: Option<Moment>) -> Option<Stay>
        requires { (n : ℕ) × (n ≤ 2 ^ 64) × IfSome before (IsBy n) }
        ensures exact { result ≡ stay before self.now }
        ensures by { (n : ℕ) → IfSome before (IsBy n) → IfSome result (IsStayBy n) }
    {
        let reached = self.arrival.or(self.pass).or(self.departure)?;
        let left = self.departure.or(self.pass).or(self.arrival)?;
        let reached = reached_behind(before, reached);
        Some(Stay {
            reached,
            left: reached.next(left),
        })
    }

    /// The moments of its public times, none of them before this one; `None` if it has no public time.
    #[inline(always)]
    fn shown(&self, before: Moment, stay: &Stay) -> Option<Shown>
        requires reached { IsOnTheWay stay.now.reached }
        requires left { IsOnTheWay stay.now.left }
        ensures exact { result ≡ shown_at before stay.now self.now.public_arrival self.now.public_departure }
        ensures from { IfSome result (λ shown. (before ≤ shown.arrival) × (shown.arrival ≤ shown.departure)) }
        ensures upto { IfSome result (λ shown. (m : ℕ) → before ≤ m → stay.now.reached + 86400 ≤ m
            → stay.now.left + 86400 ≤ m → shown.departure ≤ m) }
    {
        let (arrival, departure) = match (self.public_arrival, self.public_departure) {
            (Some(arrival), Some(departure)) => {
                (stay.reached.nearest(arrival), stay.left.nearest(departure))
            }
            (Some(arrival), None) => {
                let moment = stay.reached.nearest(arrival);
                (moment, moment)
            }
            (None, Some(departure)) => {
                let moment = stay.left.nearest(departure);
                (moment, moment)
            }
            (None, None) => return None,
        };
        let arrival = before.or_later(arrival);
        let departure = arrival.or_later(departure);
        Some(Shown { arrival, departure })
    }
}

/// When a call with this time of day is reached, behind this moment.
fn reached_behind(before: Option<Moment>, time: TimeOfDay) -> Moment
    requires { (n : ℕ) × (n ≤ 2 ^ 64) × IfSome before (IsBy n) }
    ensures exact { result ≡ reached_moment before time }
    ensures by { (n : ℕ) → IfSome before (IsBy n) → IsBy (n + 1) result }
{
    match before {
        Some(moment) => moment.next(time),
        None => Moment::on_date(time),
    }
}

/// The working time in the five columns from `first` on, if it is one.
fn working(line: &Line, first: usize) -> Option<TimeOfDay>
    requires from_one { 1 ≤ first }
    requires within { first ≤ 76 }
    ensures { result ≡ working (columns_from first 5 line.now) }
{
    let seconds = WorkTime::seconds_in(&columns_at(line, first))?;
    Some(TimeOfDay::new(seconds))
}

/// The public time in the four columns from `first` on, if it is one.
fn advertised(line: &Line, first: usize) -> Option<TimeOfDay>
    requires from_one { 1 ≤ first }
    requires within { first ≤ 77 }
    ensures { result ≡ advertised (columns_from first 4 line.now) }
{
    let columns = columns_at::<4>(line, first);
    // Most are no time, and need no second look.
    if columns == *b"0000" {
        return None;
    }
    let seconds = PublicTime::seconds_in(&columns)?;
    Some(TimeOfDay::new(seconds))
}

/// What the activities of a call say of riders.
#[derive(Clone, Copy)]
struct Riders {
    advertised: bool,
    // Whether they may get off, and on, and whether they have to ask.
    set_down: bool,
    pick_up: bool,
    on_request: bool,
}

impl Riders {
    /// What is said where there is no activity.
    fn of_none() -> Riders
        ensures { result ≡ said_by [] }
    {
        Riders {
            advertised: true,
            set_down: false,
            pick_up: false,
            on_request: false,
        }
    }

    /// What this activity says.
    fn of_one(code: [u8; 2]) -> Riders
        ensures { result ≡ said_by (code ∷ []) }
    {
        let mut riders = Riders::of_none();
        match code {
            [b'N', b' '] => riders.advertised = false,
            [b'S', b' '] => riders.advertised = false,
            [b'T', b' '] => {
                riders.set_down = true;
                riders.pick_up = true;
            }
            [b'D', b' '] => riders.set_down = true,
            [b'T', b'F'] => riders.set_down = true,
            [b'U', b' '] => riders.pick_up = true,
            [b'T', b'B'] => riders.pick_up = true,
            [b'R', b' '] => riders.on_request = true,
            _ => {}
        }
        riders
    }

    /// What both say.
    fn join(self, other: Riders) -> Riders
        ensures { result ≡ joined self other }
    {
        Riders {
            advertised: self.advertised & other.advertised,
            set_down: self.set_down | other.set_down,
            pick_up: self.pick_up | other.pick_up,
            on_request: self.on_request | other.on_request,
        }
    }

    /// What the activities in these columns say. Two spaces say nothing.
    // Few calls have more than two. Not inlined, so that the line stays where it is.
    #[inline(never)]
    fn in_columns(columns: &[u8; 12]) -> Riders
        ensures { result ≡ said_by (codes_in columns.now) }
    {
        let riders = Riders::of_one([columns[0], columns[1]]).join(Riders::of_one([
            columns[2], columns[3],
        ]));
        if columns.ends_with(b"        ") {
            riders
        } else {
            let (_, others) = columns.split_at(4);
            riders.join(Riders::in_others(others))
        }
    }

    /// What the activities in further columns say.
    #[inline(never)]
    fn in_others(columns: &[u8]) -> Riders
        ensures { result ≡ said_by (codes_in columns.now) }
    {
        let mut riders = Riders::of_none();
        let mut rest = columns;
        while let [a, b, after @ ..] = rest {
            riders = riders.join(Riders::of_one([*a, *b]));
            rest = after;
        }
        riders
    }

    /// What those of a call in a line of this kind say.
    fn in_line(kind: JourneyKind, line: &Line) -> Riders
        ensures { result ≡ riders_in kind line.now }
    {
        match kind {
            JourneyKind::Origin => Riders::in_columns(&columns_at(line, 30)),
            JourneyKind::Stop => Riders::in_columns(&columns_at(line, 43)),
            JourneyKind::Terminus => Riders::in_columns(&columns_at(line, 26)),
            JourneyKind::Change | JourneyKind::Other => Riders::of_none(),
        }
    }
}

/// What is said for whether riders may: 0 yes, 1 no, 3 on request.
fn answer_of(may: bool, on_request: bool) -> u8
    ensures { result ∷ [] ≡ answer_of may on_request }
{
    match (may, on_request) {
        (false, _) => b'1',
        (true, true) => b'3',
        (true, false) => b'0',
    }
}

/// Whether riders may get off, and whether they may get on.
fn answers_of(riders: &Riders, times: &CallTimes) -> (u8, u8)
    ensures set_down { result.0 ∷ [] ≡ set_down riders.now times.now }
    ensures pick_up { result.1 ∷ [] ≡ pick_up riders.now times.now }
{
    let down_by_time = !riders.pick_up && times.public_arrival.is_some();
    let up_by_time = !riders.set_down && times.public_departure.is_some();
    (
        answer_of(riders.set_down || down_by_time, riders.on_request),
        answer_of(riders.pick_up || up_by_time, riders.on_request),
    )
}

/// What goes on from call to call.
#[derive(Clone, Copy)]
struct Journey {
    // When the last timed call was left.
    left: Option<Moment>,
    // The last moment that was shown; at first the midnight at which the schedule's date begins.
    shown: Moment,
}

impl Journey {
    /// The moments of a line of this kind with these times, and what its activities say, if it is a public call;
    /// the journey goes on behind it.
    // Many calls have no public time, and their activities aren't looked at.
    #[inline(always)]
    fn step(&mut self, times: &CallTimes, kind: JourneyKind, line: &Line) -> Option<(Shown, Riders)>
        requires { (n : ℕ) × (n ≤ 2 ^ 64) × IsJourneyBy n self.old }
        ensures exact { (self.new, shown_in result) ≡ step self.old times.now (riders_in kind line.now) }
        ensures riders { IfSome result (λ public. public.1 ≡ riders_in kind line.now) }
        ensures by { (n : ℕ) → IsJourneyBy n self.old → IsJourneyBy (n + 2) self.new }
        ensures shown { IfSome result (λ public. IsToShow public.0) }
    {
        let Some(stay) = times.stay(self.left) else {
            return None;
        };
        self.left = Some(stay.left);
        let shown = times.shown(self.shown, &stay)?;
        let riders = Riders::in_line(kind, line);
        if !riders.advertised {
            return None;
        }
        self.shown = shown.departure;
        Some((shown, riders))
    }
}

/// Adds the values of a public call with these times, whose activities say this.
fn push_public_call<F: RowFormat, W: WriteDevice>(
    rows: &mut Rows<F>,
    schedule: &Numeral,
    call: usize,
    line: &Line,
    public: &PublicCall<'_>,
    sink: &mut Sink<W>,
)
    requires times { public.now.times.now ≡ times_of line.now }
    requires riders { public.now.riders ≡ riders_of line.now }
    requires shown { IsToShow public.now.shown }
    ensures { Adds W.contents W.write_errors
        (fields_text F.FORMAT (all_named (names public_fields) (public_values schedule.now call line.now public.now.shown)))
        sink.old sink.new rows.old rows.new }
{
    let (set_down, pick_up) = answers_of(&public.riders, public.times);
    rows.push_numeral(sink, "schedule", schedule);
    rows.push_number(sink, "call", call);
    let location = columns_at::<7>(line, 3);
    rows.push(sink, "location", Padding::Apart, Shape::Trimmed, &location);
    push_platform(rows, kind_of_line(line), line, sink);
    public.shown.arrival.push_to(rows, "arrival", sink);
    public.shown.departure.push_to(rows, "departure", sink);
    rows.push(sink, "set_down", Padding::Apart, Shape::Number, &[set_down]);
    rows.push(sink, "pick_up", Padding::Apart, Shape::Number, &[pick_up]);
}

/// What the table shows of a public call: its times, what its activities say, and its moments.
#[derive(Clone, Copy)]
struct PublicCall<'a> {
    times: &'a CallTimes,
    riders: Riders,
    shown: Shown,
}

/// Adds the row of the line, which is of this kind, if it is a public call. The journey goes on after it, and the
/// number of the next call is returned.
fn write_step<F: RowFormat, W: WriteDevice>(
    journey: &mut Journey,
    rows: &mut Rows<F>,
    schedule: &Numeral,
    call: usize,
    line: &Line,
    sink: &mut Sink<W>,
) -> usize
    requires by { (n : ℕ) × (n ≤ 2 ^ 64) × IsJourneyBy n journey.old }
    requires call { call ≤ 2 ^ 63 }
    ensures row { Adds W.contents W.write_errors
        (flat_map (row_text F.FORMAT) (row_of_step schedule.now call line.now (step_at journey.old line.now).1))
        sink.old sink.new rows.old rows.new }
    ensures journey { journey.new ≡ (step_at journey.old line.now).0 }
    ensures by { (n : ℕ) → IsJourneyBy n journey.old → IsJourneyBy (n + 2) journey.new }
    ensures next { result ≡ cond (is_call (kind_of_line line.now)) (call + 1) call }
{
    let kind = kind_of_line(line);
    let next = call_after(call, kind);
    let times = CallTimes::of(kind, line);
    if let Some((shown, riders)) = journey.step(&times, kind, line) {
        let public = PublicCall {
            times: &times,
            riders,
            shown,
        };
        rows.begin_row(sink);
        push_public_call(rows, schedule, call, line, &public, sink);
        rows.end_row(sink);
    }
    next
}

/// A public call with this line, as a board shows it.
fn stop_of(call: usize, line: &Line, public: &PublicCall<'_>) -> PublicStop
    requires times { public.now.times.now ≡ times_of line.now }
    requires riders { public.now.riders ≡ riders_of line.now }
    requires shown { IsToShow public.now.shown }
    ensures { result ≡ stop_of (record {
      call = record { schedule = 1; call = call; line = line.now };
      arrival = public.now.shown.arrival;
      departure = public.now.shown.departure;
    }) }
{
    let (set_down, pick_up) = answers_of(&public.riders, public.times);
    PublicStop {
        call,
        location: columns_at(line, 3),
        platform: platform_of(kind_of_line(line), line),
        arrival: public.shown.arrival.by_the_clock(),
        departure: public.shown.departure.by_the_clock(),
        gets_off: set_down != b'1',
        gets_on: pick_up != b'1',
    }
}

/// Adds the line, if it is a public call. The journey goes on after it, and the number of the next call is returned.
fn add_stop(
    stops: &mut Vec<PublicStop>,
    journey: &mut Journey,
    call: usize,
    line: &Line,
) -> Result<usize, AllocError>
    requires by { (n : ℕ) × (n ≤ 2 ^ 64) × IsJourneyBy n journey.old }
    requires call { call ≤ 2 ^ 63 }
    ensures stops { OnOk result (stops.new.items ≡ stops.old.items
        ++ map stop_of (public_call (record { schedule = 1; call = call; line = line.now }) (step_at journey.old line.now).1)) }
    ensures journey { journey.new ≡ (step_at journey.old line.now).0 }
    ensures by { (n : ℕ) → IsJourneyBy n journey.old → IsJourneyBy (n + 2) journey.new }
    ensures next { IfOk result (λ next. next ≡ cond (is_call (kind_of_line line.now)) (call + 1) call) }
{
    let kind = kind_of_line(line);
    let times = CallTimes::of(kind, line);
    if let Some((shown, riders)) = journey.step(&times, kind, line) {
        let public = PublicCall {
            times: &times,
            riders,
            shown,
        };
        stops.push(stop_of(call, line, &public))?;
    }
    Ok(call_after(call, kind))
}

/// The public calls of a train with these lines.
pub(crate) fn public_stops(
    alloc: Global,
    lines: LineSlice<'_>,
) -> Result<Vec<PublicStop>, AllocError>
    ensures { IfOk result (λ stops. stops.items ≡ map stop_of (public_from at_first (numbered_from 1 1 lines.entry))) }
{
    let mut stops = Vec::new(alloc);
    let mut journey = Journey {
        left: None,
        shown: Moment::on_date(TimeOfDay::new(0)),
    };
    let mut call = 1;
    let mut lines = lines;
    lines.are_few();
    while !lines.is_empty() {
        call = add_stop(&mut stops, &mut journey, call, &lines.first())?;
        lines = lines.rest();
    }
    Ok(stops)
}

/// The columns of the platform of a call.
fn platform_of(kind: JourneyKind, line: &Line) -> [u8; 3]
    ensures { result ≡ (platform_in kind line.now).1 }
{
    match kind {
        JourneyKind::Stop => columns_at(line, 34),
        _ => columns_at(line, 20),
    }
}

/// Adds the platform of a call.
fn push_platform<F: RowFormat, W: WriteDevice>(
    rows: &mut Rows<F>,
    kind: JourneyKind,
    line: &Line,
    sink: &mut Sink<W>,
)
    ensures { Adds W.contents W.write_errors (field_text F.FORMAT (named (codes "platform") (platform_in kind line.now)))
        sink.old sink.new rows.old rows.new }
{
    let platform = platform_of(kind, line);
    rows.push(sink, "platform", Padding::Apart, Shape::Trimmed, &platform);
}

/// Appends the rows of a schedule's public calls. They all begin with its number.
pub(crate) fn write_public_calls<F: RowFormat, W: WriteDevice>(
    schedule: usize,
    lines: LineSlice<'_>,
    sink: &mut Sink<W>,
)
    ensures { IsAppended W.contents W.write_errors
        (flat_map (row_text F.FORMAT) (map (row_of public_fields) (public_from at_first (numbered_from schedule 1 lines.entry))))
        sink.old sink.new }
{
    let mut rows = Rows::<F>::new();
    let number = Numeral::of(schedule);
    let mut journey = Journey {
        left: None,
        shown: Moment::on_date(TimeOfDay::new(0)),
    };
    let mut call = 1;
    let mut lines = lines;
    lines.are_few();
    while !lines.is_empty() {
        call = write_step(&mut journey, &mut rows, &number, call, &lines.first(), sink);
        lines = lines.rest();
    }
    rows.finish(sink);
}
