//! The records of a prepared extract: those of the published one, on their dates between their cuts.
ghost use Rattle.std.specs.Prelude.{◌≡◌, ◌≤◌, ◌++◌, ◌⊎◌, ℕ, IfOk, Contains, max};
ghost use Rattle.std.specs.List.Sorted.{IsNonDecreasing};
ghost use Rattle.cif_feed.specs.{HolidayDates.IsDateOnDaysRun, HolidayDates.IsFirstFrom, Parts.ended};
ghost use Rattle.cif_feed.specs.Steps.PartsSoFar.{AreAdded, IsFromNext, IsLeftFrom, IsPushed, added_before, first_upto};
ghost use Rattle.cif_feed.specs.Steps.PartsSoFar.{records_on, sooner_of};

use crate::written::{Written, write_schedule};
use cif_calendar::Entry;
use cif_columns::{Day, DaysRun, LineTexts, Sink, WriteDevice, WriteFault};
use cif_extract::Schedule;
use cif_records::Association;
use std::alloc::AllocError;

/// A record of a published extract on other dates: on those of a part of it. A last date before the
/// first counts as the first.
// Its dates are days. Their type is a parameter, as the borrow checker doesn't cover the passing of a
// struct that holds a reference beside a value with an invariant.
#[derive(Drop)]
pub struct PreparedRecord<'a, E, D> {
    pub(crate) entry: &'a E,
    pub(crate) first: D,
    pub(crate) last: D,
}

impl<'a, E> PreparedRecord<'a, E, Day> {
    /// Its last date.
    fn last(&self) -> Day
        ensures { result ≡ max self.now.first self.now.last }
    {
        self.first.max(self.last)
    }
}

impl<'a> Written for PreparedRecord<'a, Association, Day> {
    ghost use Rattle.cif_feed.specs.Steps.Written.{prepared_association_text};

    ghost text = { prepared_association_text };

    fn write<W: WriteDevice>(
        &self,
        _texts: &mut LineTexts,
        sink: &mut Sink<W>,
    ) -> Result<(), WriteFault> {
        sink.write_line(&self.entry.line_on(self.first, self.last()))
    }
}

impl<'a> Written for PreparedRecord<'a, Schedule, Day> {
    ghost use Rattle.cif_feed.specs.Steps.Written.{prepared_schedule_text};

    ghost text = { prepared_schedule_text };

    fn write<W: WriteDevice>(
        &self,
        texts: &mut LineTexts,
        sink: &mut Sink<W>,
    ) -> Result<(), WriteFault> {
        let line = self.entry.line_on(self.first, self.last());
        write_schedule(&line, self.entry.body.as_ref(), texts, sink)
    }
}

/// Dates that don't fall.
#[derive(Drop)]
pub(crate) struct RisingDays {
    pub(crate) days: Vec<Day>,
    ghost rising: { IsNonDecreasing days.items },
}

/// Appends the entry on its dates between its cuts: its dates, up to `last`, that are holidays or clash dates. Of
/// these only those between its first and its last date are looked at.
pub(crate) fn add_parts<'a, E: Entry>(
    entry: &'a E,
    last: Day,
    holidays: &[Day],
    clash_dates: &[Day],
    prepared: &mut Vec<PreparedRecord<'a, E, Day>>,
) -> Result<(), AllocError>
    requires in_order { (E.terms entry.now).first ≤ last }
    requires holidays { IsNonDecreasing holidays.now }
    requires clash_dates { IsNonDecreasing clash_dates.now }
    ensures { IfOk result (λ _. AreAdded (λ (d : ℕ). Contains holidays.now d ⊎ Contains clash_dates.now d)
        (E.key entry.now) (ended last (E.terms entry.now))
        (records_on E.key E.terms prepared.old.items) (records_on E.key E.terms prepared.new.items)) }
{
    let mut first = entry.first();
    if holidays.is_empty() && clash_dates.is_empty() {
        return push(entry, first, last, prepared);
    }
    let days = entry.days();
    let mut holidays_left = from_next(from_day(holidays, first), days, first, last);
    let mut clashes_left = from_next(from_day(clash_dates, first), days, first, last);
    loop {
        let holiday = first_up_to(holidays_left, last);
        let clash = first_up_to(clashes_left, last);
        let Some(cut) = sooner(&holiday, &clash) else {
            return push(entry, first, last, prepared);
        };
        add_before(entry, first, cut, prepared)?;
        match cut.next_up_to(last) {
            Some(next) => first = next,
            None => return Ok(()),
        }
        holidays_left = from_next(holidays_left, days, first, last);
        clashes_left = from_next(clashes_left, days, first, last);
    }
}

/// The sooner of two dates, where there are both.
fn sooner(one: &Option<Day>, other: &Option<Day>) -> Option<Day>
    ensures { result ≡ sooner_of one.now other.now }
{
    match (one, other) {
        (Some(day), Some(later)) => Some((*day).min(*later)),
        (Some(day), None) => Some(*day),
        (None, Some(day)) => Some(*day),
        (None, None) => None,
    }
}

/// The first of the dates from `from` to `last` whose weekday is in the mask.
pub(crate) fn next_on(dates: &[Day], days: DaysRun, from: Day, last: Day) -> Option<Day>
    requires { IsNonDecreasing dates.now }
    ensures { IsFirstFrom (IsDateOnDaysRun dates.now days) from last result }
{
    first_up_to(from_next(from_day(dates, from), days, from, last), last)
}

/// The first of the dates, if it isn't after `last`.
fn first_up_to(dates: &[Day], last: Day) -> Option<Day>
    ensures { result ≡ first_upto last dates.now }
{
    match dates {
        [day, ..] if *day <= last => Some(*day),
        _ => None,
    }
}

/// The dates without the first ones that come before `from` or whose weekdays aren't in the mask. After `last` none is
/// looked at.
fn from_next(dates: &[Day], days: DaysRun, from: Day, last: Day) -> &[Day]
    ensures { IsFromNext days from last dates.now result.now }
{
    for (count, day) in dates.iter().enumerate() {
        if *day > last || (from <= *day && days.has(day.weekday())) {
            return &dates[count..];
        }
    }
    &[]
}

/// The dates from this one on.
pub(crate) fn from_day(dates: &[Day], day: Day) -> &[Day]
    requires { IsNonDecreasing dates.now }
    ensures { IsLeftFrom dates.now day result.now }
{
    &dates[dates.partition_point(|other| *other < day)..]
}

/// Appends the entry from `first` to the date before the cut, if there is one.
fn add_before<'a, E: Entry>(
    entry: &'a E,
    first: Day,
    cut: Day,
    prepared: &mut Vec<PreparedRecord<'a, E, Day>>,
) -> Result<(), AllocError>
    ensures { IfOk result (λ _. records_on E.key E.terms prepared.new.items ≡ records_on E.key E.terms prepared.old.items
        ++ added_before (E.key entry.now) (E.terms entry.now) first cut) }
{
    match cut.previous() {
        Some(last) if first <= last => push(entry, first, last, prepared),
        _ => Ok(()),
    }
}

/// Appends the entry on these dates.
fn push<'a, E, D: Drop>(
    entry: &'a E,
    first: D,
    last: D,
    prepared: &mut Vec<PreparedRecord<'a, E, D>>,
) -> Result<(), AllocError>
    ensures { IfOk result (λ _. IsPushed entry.now first last prepared.old.items prepared.new.items) }
{
    prepared.push(PreparedRecord { entry, first, last })?;
    Ok(())
}
