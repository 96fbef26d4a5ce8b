//! Further details of a schedule.
ghost use Rattle.std.specs.Prelude.{◌≡◌, Ok};
ghost use Rattle.cif_columns.specs.Field.{plain_line};
ghost use Rattle.cif_records.specs.Checks.{IsJudged};

use crate::layout::{self, Layout, check_letters};
use cif_columns::{Field, Line, LineBuilder, PlainTest, Refusal, Text, text_at};
use std::fmt;

/// A record `BX` (the CIF End User Specification): further details of a basic schedule.
#[derive(Drop, PartialEq, Eq)]
pub struct Extra {
    /// Columns 3 to 6: the traction class.
    pub traction: Text<4>,
    /// Columns 7 to 11: the UIC code of an international train.
    pub uic: Text<5>,
    /// Columns 12 to 13: the ATOC code of the operator.
    pub operator_code: Text<2>,
    /// Column 14: the applicable timetable code.
    pub timetable_code: Text<1>,
    /// Columns 15 to 22: reserved; a text of the body (this profile).
    pub reserved_a: Text<8>,
    /// Column 23: reserved; a text of the body (this profile).
    pub reserved_b: Text<1>,
}

/// The plain lines of `BX`, but for some with rare contents.
pub(crate) static PLAIN: PlainTest = PlainTest {
    least: *b"BX                                                                              ",
    most: *b"BX~~~~~~~~~~~~~~~~~~~~~                                                         ",
    also: *b"BX                                                                              ",
    next: *b"~~   ~    ~ ~~       ~~~~~~~~~~~~~~~~~~~~~~~~~~~~~~~~~~~~~~~~~~~~~~~~~~~~~~~~~~",
    over: *b"~~~~~~~~~~~~~~~~~~~~~~~~~~~~~~~~~~~~~~~~~~~~~~~~~~~~~~~~~~~~~~~~",
    back: *b"~~~~~~~~~~~~~~~~~~~~~~~~~~~~~~~~",
    hour: *b"~~~~~~~~~~~~~~~~~~~~~~~~~~~~~~~~",
};

impl Layout for Extra {
    ghost use Rattle.std.specs.Prelude.{refl};
    ghost use Rattle.cif_records.specs.Extra.{extra_table};

    ghost table = { extra_table };

    fn put_rows(&self, line: &mut LineBuilder) {
        line.put_columns(b"BX");
        self.traction.put_on(line);
        self.uic.put_on(line);
        self.operator_code.put_on(line);
        self.timetable_code.put_on(line);
        self.reserved_a.put_on(line);
        self.reserved_b.put_on(line);
        line.put_spare::<57>();
    }

    ghost whole = { λ r. refl };
}

/// Its plain line.
impl fmt::Debug for Extra {
    fn fmt<W: fmt::Write>(&self, f: &mut fmt::Formatter<W>) -> fmt::Result {
        layout::debug(&self.write(), f)
    }
}

impl Extra {
    ghost use Rattle.cif_records.specs.{Extra.SpellsExtra, Extra.extra_refusal, Extra.extra_table, declared.extra.Extra.Extra};

    /// The further details that the line spells, or the first reason in column order why it spells
    /// none: UnknownRecord (columns 1 to 2).
    #[tactic(auto, unfolding(crate::specs::Extra::extra_refusal))]
    pub fn read(line: &Line) -> Result<Extra, Refusal>
        ensures exact { IsJudged (extra_refusal line.now) (SpellsExtra line.now) result }
        ensures only { (r : Extra) → SpellsExtra line.now r → result ≡ Ok r }
    {
        match check_letters(line, 1, b"BX", Refusal::UnknownRecord) {
            Ok(()) => Ok(Extra {
                traction: text_at(line, 3),
                uic: text_at(line, 7),
                operator_code: text_at(line, 12),
                timetable_code: text_at(line, 14),
                reserved_a: text_at(line, 15),
                reserved_b: text_at(line, 23),
            }),
            Err(why) => Err(why),
        }
    }

    /// The plain line: spare columns are spaces, texts stand at the left.
    pub fn write(&self) -> Line
        ensures plain { result ≡ plain_line (extra_table self.now) }
        ensures again { SpellsExtra result self.now }
    {
        layout::write(self)
    }
}
