//! The calendar of a train, week by week.
ghost use Rattle.std.specs.Prelude.{◌≡◌, ◌+◌, ◌*◌, ◌<◌, ℕ, List, IfErr, IfOk, length};
ghost use Rattle.std.specs.List.{flat_map};
ghost use Rattle.cif_calendar.specs.{DayState.AreDayStates, Entries.schedule_entries, Keys.of_key};
ghost use Rattle.cif_canon.specs.{Appended.IsAppended, Normalised.FaultWrites, Normalised.IfWritten};
ghost use Rattle.cif_extract.specs.ExtractParts.{extract_parts};
ghost use Rattle.cif_views.specs.{Steps.WeekCalendar.state_in, WeekCalendar.IsWeekCalendar, WeekCalendar.IsWeekCalendarFault};
ghost use Rattle.cif_views.specs.WeekCalendar.{cell, character, monday_columns, week_line, weeks_between};

use cif_calendar::{DayState, Window, day_states, positions_of_key};
use cif_canon::writing::{answer, append};
use cif_columns::{Day, Sink, Uid, WriteDevice};
use cif_extract::{Extract, Fault, Schedule};
use std::alloc::{AllocError, Global};

/// The bytes of the line of a week, its line feed too.
const LINE: usize = 15;

/// Appends the calendar of the train in the extract's window: a heading, and for each week its Monday and a
/// character for each date. That is the letter of the records that win, `!` where they differ, `.` where no
/// record applies, and a space outside the window.
///
/// A clash is no fault: only Memory and Write come. All memory is allocated before anything is written.
pub fn week_calendar<W: WriteDevice>(
    alloc: Global,
    extract: &Extract,
    uid: &Uid,
    sink: &mut Sink<W>,
) -> Result<(), Fault>
    ensures view { (text : List ℕ)
        × FaultWrites W.contents W.write_errors text sink.old sink.new result
        × IfWritten result (IsWeekCalendar (extract_parts extract.now) uid.now text) }
    ensures fault { IfErr result IsWeekCalendarFault }
{
    let window = Window::of(&extract.header);
    let states = states_of_train(alloc, extract.schedules.as_slice(), uid, &window)?;
    append("       MTWTFSS\n", sink);
    write_weeks(states.as_slice(), &window, sink);
    answer(sink)
}

/// What stands on each date of the window, by the schedules of the train.
pub(crate) fn states_of_train(
    alloc: Global,
    schedules: &[Schedule],
    uid: &Uid,
    window: &Window,
) -> Result<Vec<DayState>, AllocError>
    ensures { IfOk result (λ states. AreDayStates (of_key (schedule_entries schedules.now) uid.now)
        window.now.first (window.now.last + 1) states.items) }
{
    let positions = positions_of_key(alloc, schedules, uid)?;
    day_states(alloc, schedules, positions.as_slice(), window)
}

/// Appends the lines of the weeks of the window, on each date of which one of these states stands.
fn write_weeks<W: WriteDevice>(states: &[DayState], window: &Window, sink: &mut Sink<W>)
    requires { window.now.first + length states.now ≡ window.now.last + 1 }
    ensures { IsAppended W.contents W.write_errors (flat_map
        (week_line window.now.first window.now.last (state_in window.now.first states.now))
        (weeks_between window.now.first window.now.last)) sink.old sink.new }
{
    window.last.fits();
    for week in window.first.week()..window.last.week() + 1 {
        write_week(states, window, week, sink);
    }
}

/// Appends the line of a week.
fn write_week<W: WriteDevice>(states: &[DayState], window: &Window, week: u32, sink: &mut Sink<W>)
    requires many { window.now.first + length states.now ≡ window.now.last + 1 }
    requires week { week * 7 < 36529 }
    ensures { IsAppended W.contents W.write_errors
        (week_line window.now.first window.now.last (state_in window.now.first states.now) week)
        sink.old sink.new }
{
    let _ = sink.write_all(&week_line(states, window, week));
}

/// The line of a week.
fn week_line(states: &[DayState], window: &Window, week: u32) -> [u8; LINE]
    requires many { window.now.first + length states.now ≡ window.now.last + 1 }
    requires week { week * 7 < 36529 }
    ensures { result ≡ week_line window.now.first window.now.last
        (state_in window.now.first states.now) week }
{
    let [a, b, c, d, e, f] = monday_columns(week);
    [
        a,
        b,
        c,
        d,
        e,
        f,
        b' ',
        cell(states, window, week, 0),
        cell(states, window, week, 1),
        cell(states, window, week, 2),
        cell(states, window, week, 3),
        cell(states, window, week, 4),
        cell(states, window, week, 5),
        cell(states, window, week, 6),
        b'\n',
    ]
}

/// The six digits of the Monday of a week; spaces before 1960.
fn monday_columns(week: u32) -> [u8; 6]
    requires { week * 7 < 36529 }
    ensures { result ≡ monday_columns week }
{
    match Day::in_week(week, 0) {
        Some(monday) => monday.to_yymmdd(),
        None => *b"      ",
    }
}

/// The character of a weekday of a week.
fn cell(states: &[DayState], window: &Window, week: u32, weekday: u8) -> u8
    requires { window.now.first + length states.now ≡ window.now.last + 1 }
    ensures { result ≡ cell window.now.first window.now.last
        (state_in window.now.first states.now) week weekday }
{
    let days = u64::from(week) * 7 + u64::from(weekday);
    let first = u64::from(window.first.days_since_first_monday());
    let last = u64::from(window.last.days_since_first_monday());
    if days < first {
        return b' ';
    }
    if last < days {
        return b' ';
    }
    character(states[(days - first) as usize])
}

/// The character of a date.
pub(crate) fn character(state: DayState) -> u8
    ensures { result ≡ character state }
{
    match state {
        DayState::NoneApplies => b'.',
        DayState::Clash => b'!',
        DayState::Letter(stp) => stp.write(),
    }
}
