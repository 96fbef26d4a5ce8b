//! A whole extract, the schedule of a train, and its body.
ghost use Rattle.std.specs.Prelude.{◌≡◌, ◌≤◌, ◌↔◌, ◌++◌, [], IfOk, IsTrue, OnOk, drop, is_some, map, option_copied, slice_index_or};
ghost use Rattle.cif_columns.specs.Field.{plain_line};
ghost use Rattle.cif_extract.specs.Body.{IsBody, KeepMore, KeepSomeBody, body_of, body_tables, detail_of, journey_in, parts_in};
ghost use Rattle.cif_extract.specs.BodyParts.{extra_records, journey_records};
ghost use Rattle.cif_records.specs.{Bodies.has_body, Detail.detail_table, Record.record_table};

use crate::{Call, Calls};
use cif_columns::{Day, DaysRun, Line, LineSlice, Lines, Stp, Uid, columns_at};
use cif_records::{Association, BasicTerms, Detail, Extra, Header, Origin, Terminus, Tiploc};
use std::alloc::{AllocError, Global};
use std::marker::Model;

/// The records of an extract, in file order and with repeats.
#[derive(Drop)]
pub struct Extract {
    /// Its header, which has its window.
    pub header: Header,
    /// The locations.
    pub tiplocs: Vec<Tiploc>,
    /// The associations.
    pub associations: Vec<Association>,
    /// The schedules.
    pub schedules: Vec<Schedule>,
}

// What an extract says fits the columns of lines. That is known of each value where it is at hand. So the
// functions `fits` go through the values and do nothing: the compiler leaves nothing of them.
impl Extract {
    ghost use Rattle.cif_extract.specs.{ExtractParts.extract_parts, Texts.FitsColumns};

    /// A law for proofs: what an extract says fits the columns of lines. So its text spells it.
    #[inline]
    pub fn fits(&self)
        ensures { FitsColumns (extract_parts self.now) }
    {
        let associations = self.associations.as_slice();
        for association in associations {
            association.fits();
        }
        let schedules = self.schedules.as_slice();
        for schedule in schedules {
            schedule.fits();
        }
    }
}

/// A schedule (the CIF End User Specification): on which dates a body runs, or is cancelled.
#[derive(Debug, Drop)]
pub struct Schedule {
    /// The train.
    pub uid: Uid,
    /// The first date.
    pub first: Day,
    /// The last date.
    pub last: Day,
    /// The weekdays on which it applies.
    pub days: DaysRun,
    /// The indicator of short-term planning.
    pub letter: Stp,
    /// What runs; absent exactly for a cancellation.
    pub body: Option<Body>,
    ghost in_order: { first ≤ last },
    ghost bodied: { is_some body ≡ has_body letter },
}

impl Schedule {
    ghost use Rattle.std.specs.{Option.option_map, Prelude.IfSome};
    ghost use Rattle.cif_columns.specs.Field.{AllFit};
    ghost use Rattle.cif_extract.specs.{Steps.Reading.schedule_of, Texts.ScheduleFits, Texts.rows_on};
    ghost use Rattle.cif_records.specs.Detail.{detail_rows};

    /// The schedule of these terms, with this body or none.
    pub(crate) fn of(terms: BasicTerms, body: Option<Body>) -> Schedule
        requires { is_some body ≡ has_body terms.letter }
        ensures { (bodied : is_some body ≡ has_body terms.letter)
            → result ≡ schedule_of terms body bodied }
    {
        Schedule {
            uid: terms.uid,
            first: terms.first,
            last: terms.last,
            days: terms.days,
            letter: terms.letter,
            body,
        }
    }

    /// The plain line of its BS, with these dates in place of its own.
    pub fn line_on(&self, first: Day, last: Day) -> Line
        requires { first ≤ last }
        ensures { result ≡ plain_line (rows_on first last self.now) }
    {
        let terms = BasicTerms {
            uid: self.uid,
            first,
            last,
            days: self.days,
            letter: self.letter,
        };
        match &self.body {
            Some(body) => terms.line(&body.detail_line()),
            None => terms.line(&Line::blank()),
        }
    }

    /// A law for proofs: what a schedule says fits its columns.
    #[inline]
    pub fn fits(&self)
        ensures { ScheduleFits self.now }
    {
        self.uid.fits();
        self.first.fits();
        self.last.fits();
        self.days.fits();
        Schedule::body_fits(self.body.as_ref());
    }

    #[inline]
    fn body_fits(body: Option<&Body>)
        ensures detail { AllFit (detail_rows (option_map detail_of (option_copied body.entry))) }
        ensures body { IfSome (option_copied body.entry) IsBody }
    {
        if let Some(body) = body {
            body.fits();
        }
    }
}

/// The body of a schedule: columns 30 to 78 of its BS, its BX or the lack of one, and its journey
/// from LO to LT. It keeps these as plain lines, and a clause sees the lines.
#[derive(Debug, Drop)]
pub struct Body {
    // The detail in columns 30 to 78 of a line of its own, the BX if there is one, and the lines
    // from LO to LT; all but the first go out as they lie.
    lines: Lines,
}

impl Model for Body {
    ghost use Rattle.cif_extract.specs.Body.{BodyLines, KeepSomeBody};

    ghost Value = { BodyLines };

    ghost view = { λ b. b.lines };

    ghost invariant = { λ b. KeepSomeBody b.lines };
}

/// Appends the plain lines of these parts: of the detail, of the BX if there is one, and of the journey
/// from LO to LT.
fn push_parts(
    lines: &mut Lines,
    detail: &Detail,
    extra: Option<&Extra>,
    origin: &Origin,
    calls: &[Call],
    terminus: &Terminus,
) -> Result<(), AllocError>
    ensures { OnOk result (KeepMore lines.old lines.new
        (body_tables detail.now (extra_records (option_copied extra.entry))
        ++ map record_table (journey_records origin.now calls.now terminus.now))) }
{
    lines.push(&detail.write())?;
    if let Some(extra) = extra {
        lines.push(&extra.write())?;
    }
    lines.push(&origin.write())?;
    for call in calls {
        lines.push(&call.write())?;
    }
    lines.push(&terminus.write())
}

impl Body {
    ghost use Rattle.cif_extract.specs.{Body.BodyLines, Body.KeepBody, BodyParts.BodyParts};

    /// The body of these parts.
    pub fn of(
        alloc: Global,
        detail: &Detail,
        extra: Option<&Extra>,
        origin: &Origin,
        calls: &[Call],
        terminus: &Terminus,
    ) -> Result<Body, AllocError>
        ensures { IfOk result (λ body. body ≡ body_of (record {
          detail = detail.now;
          extra = option_copied extra.entry;
          origin = origin.now;
          calls = calls.now;
          terminus = terminus.now;
        })) }
    {
        let mut lines = Lines::new(alloc);
        push_parts(&mut lines, detail, extra, origin, calls, terminus)?;
        Body::of_lines(alloc, &lines)
    }

    /// The body that these lines keep.
    pub(crate) fn of_lines(alloc: Global, lines: &Lines) -> Result<Body, AllocError>
        requires { KeepSomeBody lines.now }
        ensures { IfOk result (λ body. body ≡ lines.now) }
    {
        let lines = Lines::of(alloc, &lines.as_slice())?;
        Ok(Body { lines })
    }

    /// Laws for proofs: bodies are equal where their lines are, and bodies with equal lines have equal parts. The
    /// parts that stand in lines are those that the lines keep.
    pub fn equality_of_bodies()
        ensures lines { (a b : BodyLines) → IsTrue (⟦<Body as PartialEq>⟧.eq a b) ↔ (a ≡ b) }
        ensures parts { (a b : BodyLines) → IsBody a → IsBody b → (a ≡ b) ↔ (parts_in a ≡ parts_in b) }
        ensures kept { (a : BodyLines) (p : BodyParts) → KeepBody a p → parts_in a ≡ p }
    {}

    /// A law for proofs: its lines are a body.
    #[inline]
    pub fn fits(&self)
        ensures { IsBody self.now }
    {
        self.lines.as_slice().are_lines();
    }

    /// The plain lines of the records that follow its BS.
    pub fn further_lines(&self) -> LineSlice<'_>
        ensures { result ≡ drop 1 self.now }
    {
        self.lines.as_slice().rest()
    }

    /// The line that its detail has to itself.
    pub fn detail_line(&self) -> Line
        ensures plain { result ≡ plain_line (detail_table (detail_of self.now)) }
        ensures first { result ≡ slice_index_or self.now 0 [] }
    {
        self.lines.as_slice().first()
    }

    /// Always true. To answer, the body has to come from memory. Ask this of several bodies before they are
    /// needed, and they all arrive in one wait.
    pub fn prefetch(&self) -> bool
        ensures { IsTrue result }
    {
        self.lines.as_slice().prefetch()
    }

    /// The line of its BX or its LO.
    fn second_line(&self) -> Line
        ensures second { result ≡ slice_index_or self.now 1 [] }
        ensures keep { KeepSomeBody self.now }
    {
        self.lines.as_slice().rest().first()
    }

    /// The lines from LO to LT.
    fn journey(&self) -> LineSlice<'_>
        ensures journey { result ≡ journey_in self.now }
        ensures keep { KeepSomeBody self.now }
    {
        let has_extra = columns_at(&self.second_line(), 1) == *b"BX";
        let further = self.further_lines();
        if has_extra { further.rest() } else { further }
    }

    /// The detail: columns 30 to 78 of its BS.
    pub fn detail(&self) -> Detail
        ensures { result ≡ (parts_in self.now).detail }
    {
        Detail::read(&self.detail_line())
    }

    /// Its BX.
    pub fn extra(&self) -> Option<Extra>
        ensures { result ≡ (parts_in self.now).extra }
    {
        // No LO is read as a BX.
        Extra::read(&self.second_line()).ok()
    }

    /// Where its journey begins.
    pub fn origin(&self) -> Origin
        ensures { result ≡ (parts_in self.now).origin }
    {
        Origin::read(&self.journey().first()).unwrap()
    }

    /// What is on its way, in order.
    pub fn calls(&self) -> Calls<'_>
        ensures { result ≡ (parts_in self.now).calls }
    {
        Calls::of_lines(self.journey().rest())
    }

    /// Where its journey ends.
    pub fn terminus(&self) -> Terminus
        ensures { result ≡ (parts_in self.now).terminus }
    {
        Terminus::read(&self.journey().last()).unwrap()
    }
}

impl PartialEq for Body {
    ghost use Rattle.std.specs.{Cmp.partial_equiv_from_equiv, Prelude.nat_eq};
    ghost use Rattle.std.specs.Cmp.Lexicographic.{lists_equiv, nat_list_eq_equiv, pointwise};

    ghost eq = { pointwise (pointwise nat_eq) };

    ghost laws = { partial_equiv_from_equiv (lists_equiv nat_list_eq_equiv) };

    fn eq(&self, other: &Body) -> bool {
        self.lines.as_slice().is(&other.lines.as_slice())
    }
}

impl Eq for Body {
    ghost use Rattle.std.specs.Cmp.Lexicographic.{lists_equiv, nat_list_eq_equiv};

    ghost laws = { lists_equiv nat_list_eq_equiv };
}
