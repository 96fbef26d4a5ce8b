//! The header of an extract.
ghost use Rattle.std.specs.Prelude.{◌≡◌, ◌≤◌, ◌↔◌, Some, Ok, IsTrue, codes, length};
ghost use Rattle.std.proofs.Props.{props};
ghost use Rattle.cif_columns.specs.{Day.ddmmyy_in, Field.AllStandIn, Field.columns, Field.plain_line, Line.ArePrintable};
ghost use Rattle.cif_records.specs.Checks.{IsJudged};
ghost use Rattle.cif_records.specs.HeaderColumns.{IsFull, kept, with_window as columns_with_window};

use crate::layout::{self, DateRange, Layout, check_letters, window_date_at};
use cif_columns::{Day, Line, LineBuilder, Refusal, columns_at};
use std::fmt;

/// Where the update indicator is, column 47 of the line, in what a header keeps, from column 3 on.
const INDICATOR: usize = 47 - 3;

/// Where the first date begins, at column 49 of the line, in what a header keeps.
const FIRST_DATE: usize = 49 - 3;

/// Where the last date begins, at column 55 of the line, in what a header keeps.
const LAST_DATE: usize = 55 - 3;

/// A record `HD` of a full extract (the CIF End User Specification): where the extract comes from,
/// and the window of dates that it speaks of.
#[derive(Clone, Copy, PartialEq, Eq)]
pub struct Header {
    /// Columns 3 to 60, as they stand. Column 47, the update indicator, is `F`.
    pub columns: [u8; 58],
    /// Columns 49 to 54: the user extract start date, by day, month and year.
    pub first: Day,
    /// Columns 55 to 60: the user extract end date, by day, month and year.
    pub last: Day,
    ghost wide: { length columns ≡ 58 },
    ghost printable: { ArePrintable columns },
    ghost full: { IsFull columns },
    ghost first_stands: { ddmmyy_in (kept 49 54 columns) ≡ Some first } by { Prim.hlevel props },
    ghost last_stands: { ddmmyy_in (kept 55 60 columns) ≡ Some last } by { Prim.hlevel props },
    ghost in_order: { first ≤ last },
}

impl Layout for Header {
    ghost use Rattle.std.specs.Prelude.{refl};
    ghost use Rattle.cif_records.specs.Header.{header_table};

    ghost table = { header_table };

    fn put_rows(&self, line: &mut LineBuilder) {
        line.put_columns(b"HD");
        line.put_columns(&self.columns);
        line.put_spare::<20>();
    }

    ghost whole = { λ h. refl };
}

/// Its plain line.
impl fmt::Debug for Header {
    fn fmt<W: fmt::Write>(&self, f: &mut fmt::Formatter<W>) -> fmt::Result {
        layout::debug(&self.write(), f)
    }
}

impl Header {
    ghost use Rattle.cif_records.specs.declared.header.Header.{Header};
    ghost use Rattle.cif_records.specs.Header.{SpellsHeader, header_refusal, header_refusal_by, header_rows_by, header_table};

    /// The header that the line spells, or the first reason in column order why it spells none:
    /// UnknownRecord (columns 1 to 2), NotFull (column 47), BadDate and DatesReversed (columns 49
    /// to 60).
    pub fn read(line: &Line) -> Result<Header, Refusal>
        ensures exact { IsJudged (header_refusal line.now) (SpellsHeader line.now) result }
        ensures only { (h : Header) → SpellsHeader line.now h → result ≡ Ok h }
    {
        Header::read_by(line, b"F")
    }

    /// The header that the line spells with this update indicator in place of its own, `F`, or the first reason
    /// why it spells none, as `read` has it.
    pub fn read_by(line: &Line, indicator: &[u8; 1]) -> Result<Header, Refusal>
        ensures exact { IsJudged (header_refusal_by indicator.now line.now)
            (λ h. AllStandIn line.now (header_rows_by indicator.now h)) result }
        ensures only { (h : Header) → AllStandIn line.now (header_rows_by indicator.now h) → result ≡ Ok h }
    {
        match Header::window_at(line, indicator) {
            Ok(dates) => {
                let mut columns: [u8; 58] = columns_at(line, 3);
                columns[INDICATOR] = b'F';
                Ok(Header {
                    columns,
                    first: dates.first,
                    last: dates.last,
                })
            }
            Err(why) => Err(why),
        }
    }

    /// The window of the header that the line spells, or the first reason in column order why it spells none.
    #[tactic(auto, unfolding(crate::specs::Header::header_refusal_by))]
    fn window_at(line: &Line, indicator: &[u8; 1]) -> Result<DateRange, Refusal>
        ensures { IsJudged (header_refusal_by indicator.now line.now)
            (λ dates. (columns 1 2 line.now ≡ codes "HD")
            × (columns 47 47 line.now ≡ indicator.now)
            × (ddmmyy_in (columns 49 54 line.now) ≡ Some dates.first)
            × (ddmmyy_in (columns 55 60 line.now) ≡ Some dates.last)) result }
    {
        check_letters(line, 1, b"HD", Refusal::UnknownRecord)?;
        check_letters(line, 47, indicator, Refusal::NotFull)?;
        let first = window_date_at(line, 49)?;
        let last = window_date_at(line, 55)?;
        if first <= last {
            Ok(DateRange { first, last })
        } else {
            Err(Refusal::DatesReversed)
        }
    }

    /// The plain line: columns 61 to 80 are spaces.
    pub fn write(&self) -> Line
        ensures plain { result ≡ plain_line (header_table self.now) }
        ensures again { SpellsHeader result self.now }
    {
        layout::write(self)
    }

    /// The header with this window, from `first` to `last`: columns 49 to 60 are changed, and no
    /// others.
    pub fn with_window(&self, first: Day, last: Day) -> Header
        requires { first ≤ last }
        ensures first { result.first ≡ first }
        ensures last { result.last ≡ last }
        ensures columns { result.columns ≡ columns_with_window first last self.now.columns }
    {
        let mut columns = self.columns;
        columns[FIRST_DATE..LAST_DATE].copy_from_slice(&first.to_ddmmyy());
        columns[LAST_DATE..].copy_from_slice(&last.to_ddmmyy());
        Header {
            columns,
            first,
            last,
        }
    }

    /// A law for proofs: headers are equal where their columns are.
    pub fn equality_of_headers()
        ensures { (h k : Header) → IsTrue (⟦<Header as PartialEq>⟧.eq h k) ↔ (h ≡ k) }
    {}
}
