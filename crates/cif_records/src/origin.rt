//! The first location of a journey.
ghost use Rattle.std.specs.Prelude.{◌≡◌, Ok};
ghost use Rattle.cif_columns.specs.Field.{plain_line};
ghost use Rattle.cif_records.specs.Checks.{IsJudged};

use crate::layout::{self, EndTimes, Layout, end_times};
use cif_columns::{
    Activities, Field, Line, LineBuilder, PlainTest, PublicTime, Refusal, Text, WorkTime,
    activities_at, text_at,
};
use std::fmt;

/// A record `LO` (the CIF End User Specification): where a journey begins.
#[derive(Drop, PartialEq, Eq)]
pub struct Origin {
    /// Columns 3 to 9: the TIPLOC.
    pub location: Text<7>,
    /// Column 10: which call at the location, where there is more than one.
    pub suffix: Text<1>,
    /// Columns 11 to 15: the scheduled departure.
    pub departure: WorkTime,
    /// Columns 16 to 19: the public departure.
    pub public_departure: PublicTime,
    /// Columns 20 to 22: the platform.
    pub platform: Text<3>,
    /// Columns 23 to 25: the line that is taken.
    pub line: Text<3>,
    /// Columns 26 to 27: the engineering allowance.
    pub engineering: Text<2>,
    /// Columns 28 to 29: the pathing allowance.
    pub pathing: Text<2>,
    /// Columns 30 to 41: the activity codes.
    pub activities: Activities,
    /// Columns 42 to 43: the performance allowance.
    pub performance: Text<2>,
}

/// The plain lines of `LO`, but for some with rare contents.
pub(crate) static PLAIN: PlainTest = PlainTest {
    least: *b"LO        0000H0000                                                             ",
    most: *b"LO~~~~~~~~2959H2959~~~~~~~~~~~~~~~~~~~~~~~~                                     ",
    also: *b"LO                                                                              ",
    next: *b"~~      ~~    ~   ~  ~  ~ ~ ~ ~ ~ ~ ~ ~ ~ ~~~~~~~~~~~~~~~~~~~~~~~~~~~~~~~~~~~~~",
    over: *b"~~~~~~~~~~~~~~~~~~~~~~~~~~~~~ ~ ~ ~ ~ ~~~~~~~~~~~~~~~~~~~~~~~~~~",
    back: *b"~~~~~~~~~~   ~~   ~~~~~~~~~~~~~~",
    hour: *b"~~~~~~~~~~2~~~~2~~~~~~~~~~~~~~~~",
};

impl Layout for Origin {
    ghost use Rattle.std.specs.Prelude.{refl};
    ghost use Rattle.cif_records.specs.Origin.{origin_table};

    ghost table = { origin_table };

    fn put_rows(&self, line: &mut LineBuilder) {
        line.put_columns(b"LO");
        self.location.put_on(line);
        self.suffix.put_on(line);
        self.departure.put_on(line);
        self.public_departure.put_on(line);
        self.platform.put_on(line);
        self.line.put_on(line);
        self.engineering.put_on(line);
        self.pathing.put_on(line);
        self.activities.put_on(line);
        self.performance.put_on(line);
        line.put_spare::<37>();
    }

    ghost whole = { λ r. refl };
}

/// Its plain line.
impl fmt::Debug for Origin {
    fn fmt<W: fmt::Write>(&self, f: &mut fmt::Formatter<W>) -> fmt::Result {
        layout::debug(&self.write(), f)
    }
}

impl Origin {
    ghost use Rattle.cif_records.specs.{Origin.SpellsOrigin, Origin.origin_refusal, Origin.origin_table, declared.origin.Origin.Origin};

    /// The first location that the line spells, or the first reason in column order why it spells
    /// none: UnknownRecord (columns 1 to 2), BadTime (columns 11 to 19).
    #[tactic(auto, unfolding(crate::specs::Origin::origin_refusal))]
    pub fn read(line: &Line) -> Result<Origin, Refusal>
        ensures exact { IsJudged (origin_refusal line.now) (SpellsOrigin line.now) result }
        ensures only { (r : Origin) → SpellsOrigin line.now r → result ≡ Ok r }
    {
        match end_times(line, b"LO") {
            Ok(times) => Ok(Origin {
                location: text_at(line, 3),
                suffix: text_at(line, 10),
                departure: times.working,
                public_departure: times.public,
                platform: text_at(line, 20),
                line: text_at(line, 23),
                engineering: text_at(line, 26),
                pathing: text_at(line, 28),
                activities: activities_at(line, 30),
                performance: text_at(line, 42),
            }),
            Err(why) => Err(why),
        }
    }

    /// The plain line: spare columns are spaces, texts stand at the left, and activity codes are
    /// packed to the left.
    pub fn write(&self) -> Line
        ensures plain { result ≡ plain_line (origin_table self.now) }
        ensures again { SpellsOrigin result self.now }
    {
        layout::write(self)
    }
}
