//! The first record of a schedule.
ghost use Rattle.std.specs.Prelude.{◌≡◌, ◌≤◌, [], length, Ok, Option, Some, is_some};
ghost use Rattle.cif_columns.specs.Field.{AllFit, AllStandIn, columns, plain_line};
ghost use Rattle.cif_columns.specs.{Line.IsLine, declared.stp.Stp.TheVariants.P};
ghost use Rattle.cif_records.specs.{Bodies.has_body, Checks.IsJudged, Detail.detail_rows, Detail.detail_table};
ghost use Rattle.cif_records.specs.declared.detail.Detail.{Detail};

use crate::detail::{DETAIL_WIDTH, Detail};
use crate::layout::{self, Layout, check_letters, dates_at, field_or, has_body};
use cif_columns::{Day, DaysRun, Field, Line, LineBuilder, Refusal, Stp, Uid, columns_at, uid_at};
use std::fmt;

/// A record `BS` (the CIF End User Specification): on which dates a schedule runs, or is cancelled.
#[derive(Drop)]
pub struct Basic {
    /// Columns 4 to 9: the train's UID.
    pub uid: Uid,
    /// Columns 10 to 15: the first date, by year, month and day.
    pub first: Day,
    /// Columns 16 to 21: the last date, by year, month and day.
    pub last: Day,
    /// Columns 22 to 28: the weekdays on which it applies.
    pub days: DaysRun,
    /// Column 80: the indicator of short-term planning.
    pub letter: Stp,
    /// Columns 30 to 78: the detail; absent exactly for a cancellation.
    pub detail: Option<Detail>,
    ghost in_order: { first ≤ last },
    ghost bodied: { is_some detail ≡ has_body letter },
}

/// What a record `BS` says but for its detail: on which dates a train runs, or doesn't.
#[derive(Clone, Copy, Debug)]
pub struct BasicTerms {
    /// Columns 4 to 9: the train's UID.
    pub uid: Uid,
    /// Columns 10 to 15: the first date.
    pub first: Day,
    /// Columns 16 to 21: the last date.
    pub last: Day,
    /// Columns 22 to 28: the weekdays on which it applies.
    pub days: DaysRun,
    /// Column 80: the indicator of short-term planning.
    pub letter: Stp,
    ghost in_order: { first ≤ last },
}

impl Layout for Basic {
    ghost use Rattle.std.specs.Prelude.{refl};
    ghost use Rattle.cif_records.specs.Basic.{basic_table};

    ghost table = { basic_table };

    fn put_rows(&self, line: &mut LineBuilder) {
        let terms = BasicTerms {
            uid: self.uid,
            first: self.first,
            last: self.last,
            days: self.days,
            letter: self.letter,
        };
        match &self.detail {
            Some(detail) => terms.put_rows(&detail.write(), line),
            None => terms.put_rows(&Line::blank(), line),
        }
    }

    ghost whole = { λ r. refl };
}

/// Its plain line.
impl fmt::Debug for Basic {
    fn fmt<W: fmt::Write>(&self, f: &mut fmt::Formatter<W>) -> fmt::Result {
        layout::debug(&self.write(), f)
    }
}

impl Basic {
    ghost use Rattle.cif_records.specs.declared.basic.Basic.{Basic};
    ghost use Rattle.cif_records.specs.Basic.{SpellsBasic, basic_refusal, basic_rows, basic_table};

    /// The basic schedule that the line spells, or the first reason in column order why it spells
    /// none: UnknownRecord (columns 1 to 2), NotFull (column 3), BadDate, OpenEnd and DatesReversed
    /// (columns 10 to 21), BadDays (columns 22 to 28), BankHoliday (column 29), BadStp (column 80).
    pub fn read(line: &Line) -> Result<Basic, Refusal>
        ensures exact { IsJudged (basic_refusal line.now) (SpellsBasic line.now) result }
        ensures only { (r : Basic) → SpellsBasic line.now r → result ≡ Ok r }
    {
        match BasicTerms::read(line) {
            Ok(terms) => Ok(Basic {
                uid: terms.uid,
                first: terms.first,
                last: terms.last,
                days: terms.days,
                letter: terms.letter,
                detail: detail_at(line, terms.letter),
            }),
            Err(why) => Err(why),
        }
    }

    /// The plain line: spare columns are spaces, and texts stand at the left.
    pub fn write(&self) -> Line
        ensures plain { result ≡ plain_line (basic_table self.now) }
        ensures again { SpellsBasic result self.now }
    {
        layout::write(self)
    }

    /// The plain line of a permanent schedule: transaction type `N`, letter `P`, and the detail that stands
    /// in columns 30 to 78 of `detail`, as they are.
    pub fn permanent_line(uid: &Uid, detail: &Line, first: Day, last: Day, days: DaysRun) -> Line
        requires { first ≤ last }
        ensures { (d : Detail) → detail.now ≡ plain_line (detail_table d)
            → result ≡ plain_line (basic_rows uid.now first last days P (Some d)) }
    {
        let terms = BasicTerms {
            uid: *uid,
            first,
            last,
            days,
            letter: Stp::P,
        };
        terms.line(detail)
    }
}

impl BasicTerms {
    ghost use Rattle.cif_records.specs.Basic.{SpellsTerms, basic_refusal, terms_rows};

    /// The terms of the basic schedule that the line spells, or the first reason why it spells none,
    /// as `Basic::read` has it. No detail is built.
    #[tactic(auto, unfolding(crate::specs::Basic::basic_refusal))]
    pub fn read(line: &Line) -> Result<BasicTerms, Refusal>
        ensures { IsJudged (basic_refusal line.now) (SpellsTerms line.now) result }
    {
        check_letters(line, 1, b"BS", Refusal::UnknownRecord)?;
        check_letters(line, 3, b"N", Refusal::NotFull)?;
        let dates = dates_at(line, 10)?;
        let days = field_or(line, 22, Refusal::BadDays)?;
        check_letters(line, 29, b" ", Refusal::BankHoliday)?;
        let letter = field_or(line, 80, Refusal::BadStp)?;
        Ok(BasicTerms {
            uid: uid_at(line, 4),
            first: dates.first,
            last: dates.last,
            days,
            letter,
        })
    }

    /// Whether the schedule has a body: all but a cancellation have.
    pub fn has_body(&self) -> bool
        ensures { result ≡ has_body self.now.letter }
    {
        has_body(self.letter)
    }

    /// The plain line of a basic schedule with these terms: transaction type `N`, and columns 30 to 78 of
    /// `detail` as they stand there, which are spaces where it has no detail.
    pub fn line(&self, detail: &Line) -> Line
        ensures plain { (d : Option Detail) → columns 30 78 detail.now ≡ plain_line (detail_rows d)
            → result ≡ plain_line (terms_rows self.now d) }
        ensures detail { IsLine detail.now }
    {
        let mut line = LineBuilder::new();
        self.put_rows(detail, &mut line);
        line.finish()
    }

    /// Puts the plain columns of a basic schedule with these terms on an empty line, and columns 30 to 78
    /// of the line `detail` as they stand.
    // Inlined, it is known how many columns there are.
    #[inline(always)]
    fn put_rows(&self, detail: &Line, line: &mut LineBuilder)
        requires { line.old ≡ [] }
        ensures columns { (d : Option Detail) → columns 30 78 detail.now ≡ plain_line (detail_rows d)
            → line.new ≡ plain_line (terms_rows self.now d) }
        ensures width { length line.new ≡ 80 }
        ensures fits { (d : Option Detail) → AllFit (detail_rows d) → AllFit (terms_rows self.now d) }
        ensures line { IsLine detail.now }
    {
        line.put_columns(b"BS");
        line.put_columns(b"N");
        self.uid.put_on(line);
        self.first.put_on(line);
        self.last.put_on(line);
        self.days.put_on(line);
        line.put_columns(b" ");
        line.put_columns(&columns_at::<DETAIL_WIDTH>(detail, 30));
        line.put_spare::<1>();
        self.letter.put_on(line);
    }
}

/// The detail in columns 30 to 78, absent in cancellations.
fn detail_at(line: &Line, letter: Stp) -> Option<Detail>
    ensures bodied { is_some result ≡ has_body letter }
    ensures spells { AllStandIn line.now (detail_rows result) }
{
    if has_body(letter) {
        Some(Detail::read(line))
    } else {
        None
    }
}
