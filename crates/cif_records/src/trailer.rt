//! The trailer.
ghost use Rattle.std.specs.Prelude.{◌≡◌};
ghost use Rattle.cif_columns.specs.Field.{AllStandIn, plain_line};
ghost use Rattle.cif_records.specs.{Checks.IsJudged, Trailer.trailer_refusal, Trailer.trailer_table};

use crate::layout::{self, Layout, check_letters};
use cif_columns::{Line, LineBuilder, Refusal};

/// A record `ZZ` (the CIF End User Specification): the last record of an extract, which says
/// nothing but that.
#[derive(Clone, Copy, Debug)]
pub struct Trailer;

impl Layout for Trailer {
    ghost use Rattle.std.specs.Prelude.{refl};

    ghost table = { λ t. trailer_table };

    fn put_rows(&self, line: &mut LineBuilder) {
        line.put_columns(b"ZZ");
        line.put_spare::<78>();
    }

    ghost whole = { λ t. refl };
}

impl Trailer {
    /// The trailer, where the line is one, or UnknownRecord (columns 1 to 2).
    #[tactic(auto, unfolding(crate::specs::Trailer::trailer_refusal))]
    pub fn read(line: &Line) -> Result<Trailer, Refusal>
        ensures { IsJudged (trailer_refusal line.now) (λ t. AllStandIn line.now trailer_table)
            result }
    {
        check_letters(line, 1, b"ZZ", Refusal::UnknownRecord)?;
        Ok(Trailer)
    }

    /// The plain line: columns 3 to 80 are spaces.
    pub fn write(self) -> Line
        ensures plain { result ≡ plain_line trailer_table }
        ensures again { AllStandIn result trailer_table }
    {
        layout::write(&self)
    }
}
