//! The last location of a journey.
ghost use Rattle.std.specs.Prelude.{◌≡◌, Ok};
ghost use Rattle.cif_columns.specs.Field.{plain_line};
ghost use Rattle.cif_records.specs.Checks.{IsJudged};

use crate::layout::{self, EndTimes, Layout, end_times};
use cif_columns::{
    Activities, Field, Line, LineBuilder, PlainTest, PublicTime, Refusal, Text, WorkTime,
    activities_at, text_at,
};
use std::fmt;

/// A record `LT` (the CIF End User Specification): where a journey ends.
#[derive(Drop, PartialEq, Eq)]
pub struct Terminus {
    /// Columns 3 to 9: the TIPLOC.
    pub location: Text<7>,
    /// Column 10: which call at the location, where there is more than one.
    pub suffix: Text<1>,
    /// Columns 11 to 15: the scheduled arrival.
    pub arrival: WorkTime,
    /// Columns 16 to 19: the public arrival.
    pub public_arrival: PublicTime,
    /// Columns 20 to 22: the platform.
    pub platform: Text<3>,
    /// Columns 23 to 25: the line that is taken on arrival.
    pub path: Text<3>,
    /// Columns 26 to 37: the activity codes.
    pub activities: Activities,
}

/// The plain lines of `LT`, but for some with rare contents.
pub(crate) static PLAIN: PlainTest = PlainTest {
    least: *b"LT        0000H0000                                                             ",
    most: *b"LT~~~~~~~~2959H2959~~~~~~~~~~~~~~~~~~                                           ",
    also: *b"LT                                                                              ",
    next: *b"~~      ~~    ~   ~  ~  ~ ~ ~ ~ ~ ~ ~~~~~~~~~~~~~~~~~~~~~~~~~~~~~~~~~~~~~~~~~~~",
    over: *b"~~~~~~~~~~~~~~~~~~~~~~~~~ ~ ~ ~ ~ ~~~~~~~~~~~~~~~~~~~~~~~~~~~~~~",
    back: *b"~~~~~~~~~~   ~~   ~~~~~~~~~~~~~~",
    hour: *b"~~~~~~~~~~2~~~~2~~~~~~~~~~~~~~~~",
};

impl Layout for Terminus {
    ghost use Rattle.std.specs.Prelude.{refl};
    ghost use Rattle.cif_records.specs.Terminus.{terminus_table};

    ghost table = { terminus_table };

    fn put_rows(&self, line: &mut LineBuilder) {
        line.put_columns(b"LT");
        self.location.put_on(line);
        self.suffix.put_on(line);
        self.arrival.put_on(line);
        self.public_arrival.put_on(line);
        self.platform.put_on(line);
        self.path.put_on(line);
        self.activities.put_on(line);
        line.put_spare::<43>();
    }

    ghost whole = { λ r. refl };
}

/// Its plain line.
impl fmt::Debug for Terminus {
    fn fmt<W: fmt::Write>(&self, f: &mut fmt::Formatter<W>) -> fmt::Result {
        layout::debug(&self.write(), f)
    }
}

impl Terminus {
    ghost use Rattle.cif_records.specs.declared.terminus.Terminus.{Terminus};
    ghost use Rattle.cif_records.specs.Terminus.{SpellsTerminus, terminus_refusal, terminus_table};

    /// The last location that the line spells, or the first reason in column order why it spells
    /// none: UnknownRecord (columns 1 to 2), BadTime (columns 11 to 19).
    #[tactic(auto, unfolding(crate::specs::Terminus::terminus_refusal))]
    pub fn read(line: &Line) -> Result<Terminus, Refusal>
        ensures exact { IsJudged (terminus_refusal line.now) (SpellsTerminus line.now) result }
        ensures only { (r : Terminus) → SpellsTerminus line.now r → result ≡ Ok r }
    {
        match end_times(line, b"LT") {
            Ok(times) => Ok(Terminus {
                location: text_at(line, 3),
                suffix: text_at(line, 10),
                arrival: times.working,
                public_arrival: times.public,
                platform: text_at(line, 20),
                path: text_at(line, 23),
                activities: activities_at(line, 26),
            }),
            Err(why) => Err(why),
        }
    }

    /// The plain line: spare columns are spaces, texts stand at the left, and activity codes are
    /// packed to the left.
    pub fn write(&self) -> Line
        ensures plain { result ≡ plain_line (terminus_table self.now) }
        ensures again { SpellsTerminus result self.now }
    {
        layout::write(self)
    }
}
