//! An association of two trains.
ghost use Rattle.std.specs.Prelude.{◌≡◌, ◌≤◌, [], ◌↔◌, Some, Ok, IsTrue, is_some};
ghost use Rattle.cif_columns.specs.{Field.AllFit, Field.AllStandIn, Field.plain_line, LineBuilder.put_all};
ghost use Rattle.cif_records.specs.{Bodies.has_body, Checks.IsJudged};

use crate::layout::{self, DateRange, Layout, check_letters, dates_at, field_or, has_body};
use cif_columns::{
    Day, DaysRun, Field, Line, LineBuilder, Refusal, Stp, Text, Uid, text_at, uid_at,
};
use std::fmt;

/// A record `AA` (the CIF End User Specification): on which dates an association holds, or is
/// cancelled.
#[derive(Drop, PartialEq, Eq)]
pub struct Association {
    /// Columns 4 to 15 and 38 to 46: the key.
    pub key: AssocKey,
    /// Columns 16 to 21: the first date, by year, month and day.
    pub first: Day,
    /// Columns 22 to 27: the last date, by year, month and day.
    pub last: Day,
    /// Columns 28 to 34: the weekdays on which it applies.
    pub days: DaysRun,
    /// Column 80: the indicator of short-term planning.
    pub letter: Stp,
    /// Columns 35 to 37 and 47 to 48: the body; absent exactly for a cancellation.
    pub body: Option<AssocBody>,
    ghost in_order: { first ≤ last },
    ghost bodied: { is_some body ≡ has_body letter },
}

/// On which dates an association applies, and its indicator.
#[derive(Clone, Copy)]
struct Applicability {
    dates: DateRange,
    days: DaysRun,
    letter: Stp,
}

impl Layout for Association {
    ghost use Rattle.std.specs.Prelude.{refl};
    ghost use Rattle.cif_records.specs.Association.{association_table};

    ghost table = { association_table };

    fn put_rows(&self, line: &mut LineBuilder) {
        let dates = DateRange {
            first: self.first,
            last: self.last,
        };
        self.put_rows_on(dates, line);
    }

    ghost whole = { λ r. refl };
}

/// Its plain line.
impl fmt::Debug for Association {
    fn fmt<W: fmt::Write>(&self, f: &mut fmt::Formatter<W>) -> fmt::Result {
        layout::debug(&self.write(), f)
    }
}

impl Association {
    ghost use Rattle.std.specs.Prelude.{codes};
    ghost use Rattle.cif_columns.specs.Field.{StandsIn, columns, date, indicator, weekdays};
    ghost use Rattle.cif_records.specs.{Association.association_table, Association.rows_on, declared.association.Association.Association};
    ghost use Rattle.cif_records.specs.Association.{SpellsAssociation, SpellsBody, association_refusal, association_rows};

    /// The association that the line spells, or the first reason in column order why it spells
    /// none: UnknownRecord (columns 1 to 2), NotFull (column 3), BadDate, OpenEnd and DatesReversed
    /// (columns 16 to 27), BadDays (columns 28 to 34), BadStp (column 80).
    pub fn read(line: &Line) -> Result<Association, Refusal>
        ensures exact { IsJudged (association_refusal line.now) (SpellsAssociation line.now)
            result }
        ensures only { (r : Association) → SpellsAssociation line.now r → result ≡ Ok r }
    {
        match Association::applicability_at(line) {
            Ok(checked) => Ok(Association {
                key: AssocKey::read(line),
                first: checked.dates.first,
                last: checked.dates.last,
                days: checked.days,
                letter: checked.letter,
                body: Association::body_at(line, checked.letter),
            }),
            Err(why) => Err(why),
        }
    }

    /// On which dates the association that the line spells applies, and its indicator, or the first reason in
    /// column order why it spells none.
    #[tactic(auto, unfolding(crate::specs::Association::association_refusal))]
    fn applicability_at(line: &Line) -> Result<Applicability, Refusal>
        ensures { IsJudged (association_refusal line.now)
            (λ checked. (columns 1 2 line.now ≡ codes "AA")
            × (columns 3 3 line.now ≡ codes "N")
            × StandsIn (columns 16 21 line.now) (date checked.dates.first)
            × StandsIn (columns 22 27 line.now) (date checked.dates.last)
            × StandsIn (columns 28 34 line.now) (weekdays checked.days)
            × StandsIn (columns 80 80 line.now) (indicator checked.letter)) result }
    {
        check_letters(line, 1, b"AA", Refusal::UnknownRecord)?;
        check_letters(line, 3, b"N", Refusal::NotFull)?;
        Ok(Applicability {
            dates: dates_at(line, 16)?,
            days: field_or(line, 28, Refusal::BadDays)?,
            letter: field_or(line, 80, Refusal::BadStp)?,
        })
    }

    /// The plain line: spare columns are spaces, and texts stand at the left.
    pub fn write(&self) -> Line
        ensures plain { result ≡ plain_line (association_table self.now) }
        ensures again { SpellsAssociation result self.now }
    {
        layout::write(self)
    }

    /// A law for proofs: what it says fits its columns.
    #[inline]
    pub fn fits(&self)
        ensures { AllFit (association_table self.now) }
    {
        self.key.base.fits();
        self.key.associated.fits();
        self.key.location.fits();
        self.key.base_suffix.fits();
        self.key.associated_suffix.fits();
        self.first.fits();
        self.last.fits();
        self.days.fits();
        if let Some(body) = &self.body {
            body.category.fits();
            body.date_indicator.fits();
            body.diagram.fits();
            body.kind.fits();
        }
    }

    /// The plain line of a permanent association.
    pub fn permanent_line(
        key: &AssocKey,
        body: &AssocBody,
        first: Day,
        last: Day,
        days: DaysRun,
    ) -> Line
        requires { first ≤ last }
        ensures plain { result
            ≡ plain_line (association_rows key.now first last days Stp.P (Some body.now)) }
        ensures again { AllStandIn result
            (association_rows key.now first last days Stp.P (Some body.now)) }
    {
        let mut line = LineBuilder::new();
        let dates = DateRange { first, last };
        Association::put_fields(key, dates, days, Stp::P, body, &mut line);
        line.finish()
    }

    /// Its plain line, with these dates in place of its own.
    pub fn line_on(&self, first: Day, last: Day) -> Line
        requires { first ≤ last }
        ensures plain { result ≡ plain_line (rows_on first last self.now) }
        ensures again { AllStandIn result (rows_on first last self.now) }
    {
        let mut line = LineBuilder::new();
        self.put_rows_on(DateRange { first, last }, &mut line);
        line.finish()
    }

    /// Puts its plain columns on an empty line, with these dates in place of its own.
    fn put_rows_on(&self, dates: DateRange, line: &mut LineBuilder)
        requires { line.old ≡ [] }
        ensures columns { line.new ≡ put_all [] (rows_on dates.first dates.last self.now) }
        ensures fits { AllFit (rows_on dates.first dates.last self.now) }
    {
        let blank = AssocBody::blank();
        let body = self.body.as_ref().unwrap_or(&blank);
        Association::put_fields(&self.key, dates, self.days, self.letter, body, line);
    }

    /// Puts the plain columns of an association with these fields on an empty line.
    fn put_fields(
        key: &AssocKey,
        dates: DateRange,
        days: DaysRun,
        letter: Stp,
        body: &AssocBody,
        line: &mut LineBuilder,
    )
        requires { line.old ≡ [] }
        ensures columns { line.new ≡ put_all []
            (association_rows key.now dates.first dates.last days letter (Some body.now)) }
        ensures fits { AllFit
            (association_rows key.now dates.first dates.last days letter (Some body.now)) }
    {
        line.put_columns(b"AA");
        line.put_columns(b"N");
        key.base.put_on(line);
        key.associated.put_on(line);
        dates.first.put_on(line);
        dates.last.put_on(line);
        days.put_on(line);
        body.category.put_on(line);
        body.date_indicator.put_on(line);
        key.location.put_on(line);
        key.base_suffix.put_on(line);
        key.associated_suffix.put_on(line);
        body.diagram.put_on(line);
        body.kind.put_on(line);
        line.put_spare::<31>();
        letter.put_on(line);
    }

    /// The body in columns 35 to 37 and 47 to 48 of a line with this letter, absent in cancellations.
    pub fn body_at(line: &Line, letter: Stp) -> Option<AssocBody>
        ensures bodied { is_some result ≡ has_body letter }
        ensures spells { SpellsBody line.now result }
    {
        if has_body(letter) {
            Some(AssocBody {
                category: text_at(line, 35),
                date_indicator: text_at(line, 37),
                diagram: text_at(line, 47),
                kind: text_at(line, 48),
            })
        } else {
            None
        }
    }
}

/// The key of an association: two trains, where they meet, and which of a train's calls there it
/// is. Keys are ordered by their fields as they stand here, each by its written columns (this
/// profile).
#[derive(Debug, Drop, PartialEq, Eq, PartialOrd, Ord)]
pub struct AssocKey {
    /// Columns 4 to 9: the UID of the base train.
    pub base: Uid,
    /// Columns 10 to 15: the UID of the associated train.
    pub associated: Uid,
    /// Columns 38 to 44: the TIPLOC where they meet.
    pub location: Text<7>,
    /// Column 45: the base train's call there, where it calls more than once.
    pub base_suffix: Text<1>,
    /// Column 46: the associated train's call there.
    pub associated_suffix: Text<1>,
}

impl AssocKey {
    ghost use Rattle.cif_records.specs.{AssocKey.HasTexts, AssocKey.key_cmp, AssocKey.written_key_cmp, Association.SpellsKey};
    ghost use Rattle.cif_records.specs.declared.association.AssocKey.{AssocKey};

    /// The key in columns 4 to 15 and 38 to 46, whatever the other columns are. There is always one.
    pub fn read(line: &Line) -> AssocKey
        ensures { SpellsKey line.now result }
    {
        AssocKey {
            base: uid_at(line, 4),
            associated: uid_at(line, 10),
            location: text_at(line, 38),
            base_suffix: text_at(line, 45),
            associated_suffix: text_at(line, 46),
        }
    }

    /// The same key.
    pub fn copy(&self) -> AssocKey
        ensures { result ≡ self.now }
    {
        AssocKey {
            base: self.base,
            associated: self.associated,
            location: self.location.copy(),
            base_suffix: self.base_suffix.copy(),
            associated_suffix: self.associated_suffix.copy(),
        }
    }

    /// A law for proofs: keys are equal where their fields are, and ordered by their fields, each by
    /// its bytes, and so by its written columns.
    pub fn order_of_keys()
        ensures equality { (a b : AssocKey) → IsTrue (⟦<AssocKey as PartialEq>⟧.eq a b) ↔ (a ≡ b) }
        ensures order { (a b : AssocKey) → ⟦<AssocKey as Ord>⟧.cmp a b ≡ key_cmp a b }
        ensures written { (a b : AssocKey) → HasTexts a → HasTexts b → key_cmp a b ≡ written_key_cmp a b }
    {}
}

/// The body of an association, absent in cancellations.
#[derive(Debug, Drop, PartialEq, Eq)]
pub struct AssocBody {
    /// Columns 35 to 36: the category, as `JJ` for a join.
    pub category: Text<2>,
    /// Column 37: on which day relative to the base train's the associated train runs.
    pub date_indicator: Text<1>,
    /// Column 47: the diagram type.
    pub diagram: Text<1>,
    /// Column 48: the association type.
    pub kind: Text<1>,
}

impl AssocBody {
    ghost use Rattle.cif_records.specs.{Association.blank_body, declared.association.AssocBody.AssocBody};

    /// The body that stands in blank columns.
    #[tactic(auto, unfolding(cif_columns::specs::Text::text_of))]
    fn blank() -> AssocBody
        ensures { result ≡ blank_body }
    {
        AssocBody {
            category: Text::read(b"  "),
            date_indicator: Text::read(b" "),
            diagram: Text::read(b" "),
            kind: Text::read(b" "),
        }
    }

    /// The same body.
    pub fn copy(&self) -> AssocBody
        ensures { result ≡ self.now }
    {
        AssocBody {
            category: self.category.copy(),
            date_indicator: self.date_indicator.copy(),
            diagram: self.diagram.copy(),
            kind: self.kind.copy(),
        }
    }

    /// A law for proofs: bodies are equal where their fields are.
    pub fn equality_of_bodies()
        ensures { (a b : AssocBody) → IsTrue (⟦<AssocBody as PartialEq>⟧.eq a b) ↔ (a ≡ b) }
    {}
}
