//! The clash dates of published schedules, which don't count on the holidays of their codes.
ghost use Rattle.std.specs.Prelude.{◌≡◌, ◌<◌, ◌+◌, ◌⊎◌, ◌↔◌, ℕ, All, Contains, IfOk, IsTrue, Some, length};
ghost use Rattle.cif_feed.specs.{Holidays.IsHoliday, PublishedParts.published_schedule_terms};
ghost use Rattle.cif_feed.specs.Steps.Counting.{AreClashDatesOn, AreMerged, CountsAmong, HasCodeAt};

use crate::{HolidayCode, Holidays, PublishedSchedule};
use cif_calendar::{Window, clash_dates};
use cif_columns::Day;
use std::alloc::{AllocError, Global};

/// The dates of the window on which two winners have different bodies, by the schedules at `members`, each of which
/// doesn't count on the holidays of its code, if that is one of `codes`. They rise.
///
/// The time is that of `cif_calendar::clash_dates`: no schedule is cut at its holidays, of which there may be many.
pub(crate) fn clash_dates_by(
    alloc: Global,
    schedules: &[PublishedSchedule],
    members: &[usize],
    codes: &[HolidayCode],
    holidays: &Holidays,
    window: &Window,
) -> Result<Vec<Day>, AllocError>
    requires { All (λ i. i < length schedules.now) members.now }
    ensures { IfOk result (λ days. AreClashDatesOn
        (CountsAmong holidays.now published_schedule_terms schedules.now members.now codes.now)
        window.now.first (window.now.last + 1) days.items) }
{
    let [code, others @ ..] = codes else {
        return clash_dates(alloc, schedules, members, window);
    };
    let days = clash_dates_by(alloc, schedules, members, others, holidays, window)?;
    if !have_code(schedules, members, *code) {
        return Ok(days);
    }
    let rest = without_code(alloc, schedules, members, *code)?;
    let on_holidays = clash_dates_by(alloc, schedules, rest.as_slice(), others, holidays, window)?;
    merged(
        alloc,
        days.as_slice(),
        on_holidays.as_slice(),
        holidays,
        *code,
    )
}

/// Whether the schedule has the code.
fn is_of(schedule: &PublishedSchedule, code: HolidayCode) -> bool
    ensures { IsTrue result ↔ (schedule.now.code ≡ Some code) }
{
    schedule.code == Some(code)
}

/// Whether a schedule at one of the positions has the code.
fn have_code(schedules: &[PublishedSchedule], members: &[usize], code: HolidayCode) -> bool
    requires { All (λ i. i < length schedules.now) members.now }
    ensures { (i : ℕ) → Contains members.now i → HasCodeAt published_schedule_terms schedules.now code i → IsTrue result }
{
    for position in members {
        if is_of(&schedules[*position], code) {
            return true;
        }
    }
    false
}

/// The positions whose schedules don't have the code.
fn without_code(
    alloc: Global,
    schedules: &[PublishedSchedule],
    members: &[usize],
    code: HolidayCode,
) -> Result<Vec<usize>, AllocError>
    requires { All (λ i. i < length schedules.now) members.now }
    ensures within { IfOk result (λ rest. All (λ i. i < length schedules.now) rest.items) }
    ensures rest { IfOk result (λ rest. (i : ℕ) → Contains rest.items i
        ↔ (Contains members.now i × (¬ HasCodeAt published_schedule_terms schedules.now code i))) }
{
    let mut rest = Vec::new(alloc);
    for position in members {
        if !is_of(&schedules[*position], code) {
            rest.push(*position)?;
        }
    }
    Ok(rest)
}

/// Of the one dates those that are no holidays of the code, and of the others those that are, rising.
fn merged(
    alloc: Global,
    dates: &[Day],
    on_holidays: &[Day],
    holidays: &Holidays,
    code: HolidayCode,
) -> Result<Vec<Day>, AllocError>
    ensures { IfOk result (λ days. AreMerged (IsHoliday holidays.now code) dates.now on_holidays.now days.items) }
{
    let mut days = Vec::with_capacity(alloc, dates.len())?;
    add_where(dates, holidays, code, false, &mut days)?;
    add_where(on_holidays, holidays, code, true, &mut days)?;
    days.sort()?;
    days.dedup();
    Ok(days)
}

/// Appends those of the dates that are holidays of the code, or those that aren't.
fn add_where(
    dates: &[Day],
    holidays: &Holidays,
    code: HolidayCode,
    wanted: bool,
    days: &mut Vec<Day>,
) -> Result<(), AllocError>
    ensures { IfOk result (λ _. (d : ℕ) → Contains days.new.items d
        ↔ (Contains days.old.items d ⊎ (Contains dates.now d × (IsHoliday holidays.now code d ↔ IsTrue wanted)))) }
{
    for day in dates {
        if holidays.has(Some(code), *day) == wanted {
            days.push(*day)?;
        }
    }
    Ok(())
}
