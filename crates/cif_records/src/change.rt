//! A change of a train on the way of a journey.
ghost use Rattle.std.specs.Prelude.{◌≡◌, Ok};
ghost use Rattle.cif_columns.specs.Field.{plain_line};
ghost use Rattle.cif_records.specs.Checks.{IsJudged};

use crate::layout::{self, Layout, check_letters};
use cif_columns::{Field, Line, LineBuilder, PlainTest, Refusal, Text, text_at};
use std::fmt;

/// A record `CR` (the CIF End User Specification): what is changed at the next location. That its
/// location is the next one's isn't checked.
#[derive(Drop, PartialEq, Eq)]
pub struct Change {
    /// Columns 3 to 9: the TIPLOC.
    pub location: Text<7>,
    /// Column 10: which call at the location, where there is more than one.
    pub suffix: Text<1>,
    /// Columns 11 to 12: the train category.
    pub category: Text<2>,
    /// Columns 13 to 16: the train identity.
    pub identity: Text<4>,
    /// Columns 17 to 20: the headcode.
    pub headcode: Text<4>,
    /// Column 21: the course indicator.
    pub course: Text<1>,
    /// Columns 22 to 29: the train service code.
    pub service_code: Text<8>,
    /// Column 30: the business sector.
    pub sector: Text<1>,
    /// Columns 31 to 33: the power type.
    pub power: Text<3>,
    /// Columns 34 to 37: the timing load.
    pub timing_load: Text<4>,
    /// Columns 38 to 40: the speed.
    pub speed: Text<3>,
    /// Columns 41 to 46: the operating characteristics.
    pub characteristics: Text<6>,
    /// Column 47: the train class.
    pub class: Text<1>,
    /// Column 48: the sleepers.
    pub sleepers: Text<1>,
    /// Column 49: the reservations.
    pub reservations: Text<1>,
    /// Column 50: the connection indicator.
    pub connection: Text<1>,
    /// Columns 51 to 54: the catering code.
    pub catering: Text<4>,
    /// Columns 55 to 58: the service branding.
    pub branding: Text<4>,
    /// Columns 59 to 62: the traction class.
    pub traction: Text<4>,
    /// Columns 63 to 67: the UIC code of an international train.
    pub uic: Text<5>,
    /// Columns 68 to 75: reserved; a text of the body (this profile).
    pub reserved_a: Text<8>,
}

/// The plain lines of `CR`, but for some with rare contents.
pub(crate) static PLAIN: PlainTest = PlainTest {
    least: *b"CR                                                                              ",
    most: *b"CR~~~~~~~~~~~~~~~~~~~~~~~~~~~~~~~~~~~~~~~~~~~~~~~~~~~~~~~~~~~~~~~~~~~~~~~~~     ",
    also: *b"CR                                                                              ",
    next: *b"~~      ~~ ~   ~   ~~       ~~  ~   ~  ~     ~~~~~   ~   ~   ~    ~       ~~~~~",
    over: *b"~~~~~~~~~~~~~~~~~~~~~~~~~~~~~~~~~~~~~~~~~~~~~~~~~~~~~~~~~~~~~~~~",
    back: *b"~~~~~~~~~~~~~~~~~~~~~~~~~~~~~~~~",
    hour: *b"~~~~~~~~~~~~~~~~~~~~~~~~~~~~~~~~",
};

impl Layout for Change {
    ghost use Rattle.std.specs.Prelude.{refl};
    ghost use Rattle.cif_records.specs.Change.{change_table};

    ghost table = { change_table };

    fn put_rows(&self, line: &mut LineBuilder) {
        line.put_columns(b"CR");
        self.location.put_on(line);
        self.suffix.put_on(line);
        self.category.put_on(line);
        self.identity.put_on(line);
        self.headcode.put_on(line);
        self.course.put_on(line);
        self.service_code.put_on(line);
        self.sector.put_on(line);
        self.power.put_on(line);
        self.timing_load.put_on(line);
        self.speed.put_on(line);
        self.characteristics.put_on(line);
        self.class.put_on(line);
        self.sleepers.put_on(line);
        self.reservations.put_on(line);
        self.connection.put_on(line);
        self.catering.put_on(line);
        self.branding.put_on(line);
        self.traction.put_on(line);
        self.uic.put_on(line);
        self.reserved_a.put_on(line);
        line.put_spare::<5>();
    }

    ghost whole = { λ r. refl };
}

/// Its plain line.
impl fmt::Debug for Change {
    fn fmt<W: fmt::Write>(&self, f: &mut fmt::Formatter<W>) -> fmt::Result {
        layout::debug(&self.write(), f)
    }
}

impl Change {
    ghost use Rattle.cif_records.specs.{Change.SpellsChange, Change.change_refusal, Change.change_table, declared.change.Change.Change};

    /// The change that the line spells, or the first reason in column order why it spells
    /// none: UnknownRecord (columns 1 to 2).
    #[tactic(auto, unfolding(crate::specs::Change::change_refusal))]
    pub fn read(line: &Line) -> Result<Change, Refusal>
        ensures exact { IsJudged (change_refusal line.now) (SpellsChange line.now) result }
        ensures only { (r : Change) → SpellsChange line.now r → result ≡ Ok r }
    {
        match check_letters(line, 1, b"CR", Refusal::UnknownRecord) {
            Ok(()) => Ok(Change {
                location: text_at(line, 3),
                suffix: text_at(line, 10),
                category: text_at(line, 11),
                identity: text_at(line, 13),
                headcode: text_at(line, 17),
                course: text_at(line, 21),
                service_code: text_at(line, 22),
                sector: text_at(line, 30),
                power: text_at(line, 31),
                timing_load: text_at(line, 34),
                speed: text_at(line, 38),
                characteristics: text_at(line, 41),
                class: text_at(line, 47),
                sleepers: text_at(line, 48),
                reservations: text_at(line, 49),
                connection: text_at(line, 50),
                catering: text_at(line, 51),
                branding: text_at(line, 55),
                traction: text_at(line, 59),
                uic: text_at(line, 63),
                reserved_a: text_at(line, 68),
            }),
            Err(why) => Err(why),
        }
    }

    /// The plain line: spare columns are spaces, texts stand at the left.
    pub fn write(&self) -> Line
        ensures plain { result ≡ plain_line (change_table self.now) }
        ensures again { SpellsChange result self.now }
    {
        layout::write(self)
    }
}
