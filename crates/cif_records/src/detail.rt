//! What a schedule says of its train.
ghost use Rattle.std.specs.Prelude.{◌≡◌, Some};
ghost use Rattle.cif_columns.specs.{Field.AllStandIn, Field.plain_line, Line.IsLine};
ghost use Rattle.cif_records.specs.Detail.{alone_in, detail_in, detail_rows, detail_table};

use crate::layout::{self, Layout};
use cif_columns::{Field, Line, LineBuilder, PlainTest, Text, columns_at, text_at};
use std::fmt;

/// How many columns of a basic schedule are of its detail: 30 to 78.
pub(crate) const DETAIL_WIDTH: usize = 49;

/// The fields of a basic schedule that say what runs; a cancellation has none.
#[derive(Drop, PartialEq, Eq)]
pub struct Detail {
    /// Column 30: the train status.
    pub status: Text<1>,
    /// Columns 31 to 32: the train category.
    pub category: Text<2>,
    /// Columns 33 to 36: the train identity.
    pub identity: Text<4>,
    /// Columns 37 to 40: the headcode.
    pub headcode: Text<4>,
    /// Column 41: the course indicator.
    pub course: Text<1>,
    /// Columns 42 to 49: the train service code.
    pub service_code: Text<8>,
    /// Column 50: the business sector.
    pub sector: Text<1>,
    /// Columns 51 to 53: the power type.
    pub power: Text<3>,
    /// Columns 54 to 57: the timing load.
    pub timing_load: Text<4>,
    /// Columns 58 to 60: the speed.
    pub speed: Text<3>,
    /// Columns 61 to 66: the operating characteristics.
    pub characteristics: Text<6>,
    /// Column 67: the train class.
    pub class: Text<1>,
    /// Column 68: the sleepers.
    pub sleepers: Text<1>,
    /// Column 69: the reservations.
    pub reservations: Text<1>,
    /// Column 70: the connection indicator.
    pub connection: Text<1>,
    /// Columns 71 to 74: the catering code.
    pub catering: Text<4>,
    /// Columns 75 to 78: the service branding.
    pub branding: Text<4>,
}

/// The lines that details have to themselves, but for some with rare contents.
static PLAIN: PlainTest = PlainTest {
    least: *b"                                                                                ",
    most: *b"                             ~~~~~~~~~~~~~~~~~~~~~~~~~~~~~~~~~~~~~~~~~~~~~~~~~  ",
    also: *b"                                                                                ",
    next: *b"~~~~~~~~~~~~~~~~~~~~~~~~~~~~~~ ~   ~   ~~       ~~  ~   ~  ~     ~~~~~   ~   ~~",
    over: *b"~~~~~~~~~~~~~~~~~~~~~~~~~~~~~~~~~~~~~~~~~~~~~~~~~~~~~~~~~~~~~~~~",
    back: *b"~~~~~~~~~~~~~~~~~~~~~~~~~~~~~~~~",
    hour: *b"~~~~~~~~~~~~~~~~~~~~~~~~~~~~~~~~",
};

impl Layout for Detail {
    ghost use Rattle.std.specs.Prelude.{refl};
    ghost use Rattle.cif_records.specs.Detail.{detail_table};

    ghost table = { detail_table };

    fn put_rows(&self, line: &mut LineBuilder) {
        line.put_spare::<29>();
        self.status.put_on(line);
        self.category.put_on(line);
        self.identity.put_on(line);
        self.headcode.put_on(line);
        self.course.put_on(line);
        self.service_code.put_on(line);
        self.sector.put_on(line);
        self.power.put_on(line);
        self.timing_load.put_on(line);
        self.speed.put_on(line);
        self.characteristics.put_on(line);
        self.class.put_on(line);
        self.sleepers.put_on(line);
        self.reservations.put_on(line);
        self.connection.put_on(line);
        self.catering.put_on(line);
        self.branding.put_on(line);
        line.put_spare::<2>();
    }

    ghost whole = { λ d. refl };
}

impl Detail {
    /// The detail in columns 30 to 78, whatever the other columns are. There is always one.
    pub fn read(line: &Line) -> Detail
        ensures stands { AllStandIn line.now (detail_rows (Some result)) }
        ensures exact { result ≡ detail_in line.now }
    {
        Detail {
            status: text_at(line, 30),
            category: text_at(line, 31),
            identity: text_at(line, 33),
            headcode: text_at(line, 37),
            course: text_at(line, 41),
            service_code: text_at(line, 42),
            sector: text_at(line, 50),
            power: text_at(line, 51),
            timing_load: text_at(line, 54),
            speed: text_at(line, 58),
            characteristics: text_at(line, 61),
            class: text_at(line, 67),
            sleepers: text_at(line, 68),
            reservations: text_at(line, 69),
            connection: text_at(line, 70),
            catering: text_at(line, 71),
            branding: text_at(line, 75),
        }
    }

    /// A line of its own: columns 30 to 78 with their texts at the left, and spaces elsewhere.
    pub fn write(&self) -> Line
        ensures plain { result ≡ plain_line (detail_table self.now) }
        ensures again { AllStandIn result (detail_table self.now) }
    {
        layout::write(self)
    }

    /// The line of its own of the detail in columns 30 to 78, whatever the other columns are: what
    /// `read` and then `write` give. Of most plain columns no detail is built.
    pub fn line_of(line: &Line) -> Line
        ensures plain { result ≡ plain_line (detail_table (detail_in line.now)) }
        ensures again { AllStandIn result (detail_table (detail_in line.now)) }
    {
        let alone = columns_alone(line);
        if PLAIN.passes(&alone) {
            return alone;
        }
        Detail::plain_line_of(line)
    }

    /// The line of its own of a detail that is built.
    // Few details come here: the others needn't clear the room for one.
    #[inline(never)]
    fn plain_line_of(line: &Line) -> Line
        ensures plain { result ≡ plain_line (detail_table (detail_in line.now)) }
        ensures again { AllStandIn result (detail_table (detail_in line.now)) }
    {
        Detail::read(line).write()
    }
}

/// The line of its own.
impl fmt::Debug for Detail {
    fn fmt<W: fmt::Write>(&self, f: &mut fmt::Formatter<W>) -> fmt::Result {
        layout::debug(&self.write(), f)
    }
}

/// Columns 30 to 78 of the line, and spaces elsewhere.
fn columns_alone(line: &Line) -> Line
    ensures columns { result ≡ alone_in line.now }
    ensures line { IsLine line.now }
{
    let mut alone = LineBuilder::new();
    alone.put_spare::<29>();
    alone.put_columns(&columns_at::<DETAIL_WIDTH>(line, 30));
    alone.put_spare::<2>();
    alone.finish()
}
