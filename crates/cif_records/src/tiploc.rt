//! A location of the timetable.
ghost use Rattle.std.specs.Prelude.{◌≡◌, ◌↔◌, Ok, IsTrue, length};
ghost use Rattle.std.specs.{Cmp.Lexicographic.slice_cmp, Ordering.nat_cmp};
ghost use Rattle.cif_columns.specs.{Field.plain_line, Line.ArePrintable};
ghost use Rattle.cif_records.specs.Checks.{IsJudged};

use crate::layout::{self, Layout, check_letters};
use cif_columns::{Line, LineBuilder, Refusal, columns_at};
use std::fmt;

/// A record `TI` (the CIF End User Specification): a location by its TIPLOC, and its other codes.
/// Locations are ordered by these columns (this profile).
#[derive(Clone, Copy, PartialEq, Eq, PartialOrd, Ord)]
pub struct Tiploc {
    /// Columns 3 to 72, as they stand: the TIPLOC (3 to 9), capitals (10 to 11), NALCO (12 to 17),
    /// NLC check (18), TPS description (19 to 44), STANOX (45 to 49), PO MCP code (50 to 53), CRS
    /// code (54 to 56), description (57 to 72).
    pub columns: [u8; 70],
    ghost wide: { length columns ≡ 70 },
    ghost printable: { ArePrintable columns },
}

impl Layout for Tiploc {
    ghost use Rattle.std.specs.Prelude.{refl};
    ghost use Rattle.cif_records.specs.Tiploc.{tiploc_table};

    ghost table = { tiploc_table };

    fn put_rows(&self, line: &mut LineBuilder) {
        line.put_columns(b"TI");
        line.put_columns(&self.columns);
        line.put_spare::<8>();
    }

    ghost whole = { λ t. refl };
}

/// Its plain line.
impl fmt::Debug for Tiploc {
    fn fmt<W: fmt::Write>(&self, f: &mut fmt::Formatter<W>) -> fmt::Result {
        layout::debug(&self.write(), f)
    }
}

impl Tiploc {
    ghost use Rattle.cif_records.specs.{Tiploc.SpellsTiploc, Tiploc.tiploc_refusal, Tiploc.tiploc_table, declared.tiploc.Tiploc.Tiploc};

    /// The location that the line spells, or UnknownRecord (columns 1 to 2).
    #[tactic(auto, unfolding(crate::specs::Tiploc::tiploc_refusal))]
    pub fn read(line: &Line) -> Result<Tiploc, Refusal>
        ensures exact { IsJudged (tiploc_refusal line.now) (SpellsTiploc line.now) result }
        ensures only { (t : Tiploc) → SpellsTiploc line.now t → result ≡ Ok t }
    {
        match check_letters(line, 1, b"TI", Refusal::UnknownRecord) {
            Ok(()) => Ok(Tiploc {
                columns: columns_at(line, 3),
            }),
            Err(why) => Err(why),
        }
    }

    /// The plain line: columns 73 to 80 are spaces.
    pub fn write(&self) -> Line
        ensures plain { result ≡ plain_line (tiploc_table self.now) }
        ensures again { SpellsTiploc result self.now }
    {
        layout::write(self)
    }

    /// A law for proofs: locations are equal where their columns are, and ordered by them.
    pub fn order_of_tiplocs()
        ensures equality { (s t : Tiploc) → IsTrue (⟦<Tiploc as PartialEq>⟧.eq s t) ↔ (s ≡ t) }
        ensures order { (s t : Tiploc)
            → ⟦<Tiploc as Ord>⟧.cmp s t ≡ slice_cmp nat_cmp s.columns t.columns }
    {}
}
