//! What the kinds of record have in common: a table, and the checks of columns.
ghost use Rattle.std.specs.Prelude.{◌≡◌, [], ◌∷◌, ◌≤◌, ◌+◌, List, Some, IfOk, is_some, true};
ghost use Rattle.cif_columns.specs.{Day.ddmmyy_in, Day.yymmdd_in, Field.public_time, Field.working_time, LineBuilder.put_all};
ghost use Rattle.cif_columns.specs.Field.{AllFit, AllStandIn, Row, StandsIn, is_whole_from, plain_line, columns, columns_from, date};
ghost use Rattle.cif_records.specs.{Bodies.has_body, Checks.last_date_refusal, Checks.public_time_refusal, Checks.work_time_refusal};
ghost use Rattle.cif_records.specs.Checks.{IsJudged, are, first_of, unless, dates_refusal, header_date_refusal, identity_refusal};

use crate::Record;
use cif_columns::{
    Day, Field, Line, LineBuilder, PublicTime, Refusal, Stp, WorkTime, as_text, columns_at,
    field_at,
};
use std::fmt;

/// A value that is laid out by a table: each row's value stands in the row's columns.
pub(crate) trait Layout {
    // Its table.
    ghost table: { Self → List Row };

    /// Puts the plain columns of each row on an empty line.
    fn put_rows(&self, line: &mut LineBuilder)
        requires { line.old ≡ [] }
        ensures columns { line.new ≡ put_all [] (table self.now) }
        ensures fits { AllFit (table self.now) };

    // The table has each of the eighty columns once.
    ghost whole: { (r : Self) → is_whole_from 1 (table r) ≡ true };
}

/// The plain line of the value.
pub(crate) fn write<R: Layout>(value: &R) -> Line
    ensures plain { result ≡ plain_line (R.table value.now) }
    ensures again { AllStandIn result (R.table value.now) }
{
    let mut line = LineBuilder::new();
    value.put_rows(&mut line);
    line.finish()
}

/// Shows a record as its plain line, in quotes.
pub(crate) fn debug<W: fmt::Write>(line: &Line, f: &mut fmt::Formatter<W>) -> fmt::Result {
    fmt::Debug::fmt(as_text(line.bytes()), f)
}

/// Refuses a line for the reason `why`, if its columns from `at` on, counted from 1, aren't these
/// letters.
pub(crate) fn check_letters<const N: usize>(
    line: &Line,
    at: usize,
    letters: &[u8; N],
    why: Refusal,
) -> Result<(), Refusal>
    requires from_one { 1 ≤ at }
    requires within { at + N ≤ 81 }
    ensures { IsJudged (unless (are (columns_from at N line.now) letters.now) why)
        (λ _. columns_from at N line.now ≡ letters.now) result }
{
    if columns_at(line, at) == *letters {
        Ok(())
    } else {
        Err(why)
    }
}

/// The value in the columns of a line from `at` on, counted from 1; `why` if there is none.
pub fn field_or<F: Field>(line: &Line, at: usize, why: Refusal) -> Result<F, Refusal>
    requires from_one { 1 ≤ at }
    requires within { at + F.WIDTH ≤ 81 }
    ensures judged { IsJudged (unless (is_some (F.value_in (columns_from at F.WIDTH line.now))) why)
        (λ value. StandsIn (columns_from at F.WIDTH line.now) (F.shown value)) result }
    ensures exact { IfOk result (λ value.
        F.value_in (columns_from at F.WIDTH line.now) ≡ Some value) }
{
    field_at(line, at).ok_or(why)
}

/// The first and the last date of a record.
#[derive(Clone, Copy)]
pub struct DateRange {
    pub first: Day,
    pub last: Day,
    ghost in_order: { first ≤ last },
}

/// The dates in the twelve columns of a line from `at` on, counted from 1.
pub fn dates_at(line: &Line, at: usize) -> Result<DateRange, Refusal>
    requires from_one { 1 ≤ at }
    requires within { at ≤ 69 }
    ensures { IsJudged
        (dates_refusal (columns_from at 6 line.now) (columns_from (at + 6) 6 line.now))
        (λ dates. StandsIn (columns_from at 6 line.now) (date dates.first)
        × StandsIn (columns_from (at + 6) 6 line.now) (date dates.last)) result }
{
    let first = field_or(line, at, Refusal::BadDate)?;
    let last = last_date_at(line, at + 6)?;
    if first <= last {
        Ok(DateRange { first, last })
    } else {
        Err(Refusal::DatesReversed)
    }
}

/// The last date in the six columns of a line from `at` on, counted from 1.
fn last_date_at(line: &Line, at: usize) -> Result<Day, Refusal>
    requires from_one { 1 ≤ at }
    requires within { at ≤ 75 }
    ensures judged { IsJudged (last_date_refusal (columns_from at 6 line.now))
        (λ day. StandsIn (columns_from at 6 line.now) (date day)) result }
    ensures exact { IfOk result (λ day. yymmdd_in (columns_from at 6 line.now) ≡ Some day) }
{
    if columns_at(line, at) == *b"999999" {
        return Err(Refusal::OpenEnd);
    }
    field_or(line, at, Refusal::BadDate)
}

/// The date in the six columns of a line from `at` on, by day, month and year.
pub(crate) fn window_date_at(line: &Line, at: usize) -> Result<Day, Refusal>
    requires from_one { 1 ≤ at }
    requires within { at ≤ 75 }
    ensures { IsJudged (header_date_refusal (columns_from at 6 line.now))
        (λ day. ddmmyy_in (columns_from at 6 line.now) ≡ Some day) result }
{
    Day::from_ddmmyy(&columns_at(line, at)).ok_or(Refusal::BadDate)
}

/// The times of the first or the last location of a journey.
#[derive(Clone, Copy)]
pub(crate) struct EndTimes {
    pub(crate) working: WorkTime,
    pub(crate) public: PublicTime,
}

/// The times in columns 11 to 19 of a line whose columns 1 and 2 are these letters: the working time,
/// and then the public one.
pub(crate) fn end_times(line: &Line, letters: &[u8; 2]) -> Result<EndTimes, Refusal>
    ensures { IsJudged
        (first_of (identity_refusal letters.now line.now
        ∷ work_time_refusal (columns 11 15 line.now)
        ∷ public_time_refusal (columns 16 19 line.now)
        ∷ []))
        (λ times. (columns 1 2 line.now ≡ letters.now)
        × StandsIn (columns 11 15 line.now) (working_time times.working)
        × StandsIn (columns 16 19 line.now) (public_time times.public)) result }
{
    check_letters(line, 1, letters, Refusal::UnknownRecord)?;
    Ok(EndTimes {
        working: field_or(line, 11, Refusal::BadTime)?,
        public: field_or(line, 16, Refusal::BadTime)?,
    })
}

/// Whether a record of this letter has a body: all but a cancellation have.
pub(crate) fn has_body(letter: Stp) -> bool
    ensures { result ≡ has_body letter }
{
    letter != Stp::C
}
