//! A location on the way of a journey.
ghost use Rattle.std.specs.Prelude.{◌≡◌, IsTrue, Ok};
ghost use Rattle.cif_columns.specs.{Field.plain_line, Line.IsLine};
ghost use Rattle.cif_records.specs.Checks.{IsJudged};

use crate::layout::{self, Layout, check_letters, field_or};
use cif_columns::{
    Activities, Field, LINE_WIDTH, Line, LineBuilder, PlainTest, PublicTime, Refusal, Text,
    WorkTime, activities_at, text_at,
};
use std::fmt;

/// A record `LI` (the CIF End User Specification): where a journey stops or passes. Which of its
/// working times are there isn't checked.
#[derive(Drop, PartialEq, Eq)]
pub struct Stop {
    /// Columns 3 to 9: the TIPLOC.
    pub location: Text<7>,
    /// Column 10: which call at the location, where there is more than one.
    pub suffix: Text<1>,
    /// Columns 11 to 15: the scheduled arrival.
    pub arrival: WorkTime,
    /// Columns 16 to 20: the scheduled departure.
    pub departure: WorkTime,
    /// Columns 21 to 25: the scheduled time of passing.
    pub pass: WorkTime,
    /// Columns 26 to 29: the public arrival.
    pub public_arrival: PublicTime,
    /// Columns 30 to 33: the public departure.
    pub public_departure: PublicTime,
    /// Columns 34 to 36: the platform.
    pub platform: Text<3>,
    /// Columns 37 to 39: the line that is taken on departure.
    pub line: Text<3>,
    /// Columns 40 to 42: the line that is taken on arrival.
    pub path: Text<3>,
    /// Columns 43 to 54: the activity codes.
    pub activities: Activities,
    /// Columns 55 to 56: the engineering allowance.
    pub engineering: Text<2>,
    /// Columns 57 to 58: the pathing allowance.
    pub pathing: Text<2>,
    /// Columns 59 to 60: the performance allowance.
    pub performance: Text<2>,
}

/// The times of a location on the way.
#[derive(Clone, Copy)]
struct StopTimes {
    arrival: WorkTime,
    departure: WorkTime,
    pass: WorkTime,
    public_arrival: PublicTime,
    public_departure: PublicTime,
}

/// The plain lines of `LI`, but for some with rare contents.
pub(crate) static PLAIN: PlainTest = PlainTest {
    least: *b"LI        0000H0000H0000H00000000                                               ",
    most: *b"LI~~~~~~~~2959H2959H2959H29592959~~~~~~~~~~~~~~~~~~~~~~~~~~~                    ",
    also: *b"LI                                                                              ",
    next: *b"~~      ~~    ~    ~    ~   ~   ~  ~  ~  ~ ~ ~ ~ ~ ~ ~ ~ ~ ~~~~~~~~~~~~~~~~~~~~",
    over: *b"~~~~~~~~~~~~~~~~~~~~~~~~~~~~~~~~~~~~~~~~~~ ~ ~ ~ ~ ~~~~~~~~~~~~~",
    back: *b"~~~~~~~~~~   ~~   ~~   ~~   ~   ",
    hour: *b"~~~~~~~~~~2~~~~2~~~~2~~~~2~~~2~~",
};

impl Layout for Stop {
    ghost use Rattle.std.specs.Prelude.{refl};
    ghost use Rattle.cif_records.specs.Stop.{stop_table};

    ghost table = { stop_table };

    fn put_rows(&self, line: &mut LineBuilder) {
        line.put_columns(b"LI");
        self.location.put_on(line);
        self.suffix.put_on(line);
        self.arrival.put_on(line);
        self.departure.put_on(line);
        self.pass.put_on(line);
        self.public_arrival.put_on(line);
        self.public_departure.put_on(line);
        self.platform.put_on(line);
        self.line.put_on(line);
        self.path.put_on(line);
        self.activities.put_on(line);
        self.engineering.put_on(line);
        self.pathing.put_on(line);
        self.performance.put_on(line);
        line.put_spare::<20>();
    }

    ghost whole = { λ r. refl };
}

/// Its plain line.
impl fmt::Debug for Stop {
    fn fmt<W: fmt::Write>(&self, f: &mut fmt::Formatter<W>) -> fmt::Result {
        layout::debug(&self.write(), f)
    }
}

impl Stop {
    ghost use Rattle.std.specs.Prelude.{codes};
    ghost use Rattle.cif_columns.specs.Field.{StandsIn, columns, public_time, working_time};
    ghost use Rattle.cif_records.specs.{Stop.SpellsStop, Stop.stop_refusal, Stop.stop_table, declared.stop.Stop.Stop};

    /// The location on the way that the line spells, or the first reason in column order why it
    /// spells none: UnknownRecord (columns 1 to 2), BadTime (columns 11 to 33).
    pub fn read(line: &Line) -> Result<Stop, Refusal>
        ensures exact { IsJudged (stop_refusal line.now) (SpellsStop line.now) result }
        ensures only { (r : Stop) → SpellsStop line.now r → result ≡ Ok r }
    {
        match Stop::times_at(line) {
            Ok(times) => Ok(Stop {
                location: text_at(line, 3),
                suffix: text_at(line, 10),
                arrival: times.arrival,
                departure: times.departure,
                pass: times.pass,
                public_arrival: times.public_arrival,
                public_departure: times.public_departure,
                platform: text_at(line, 34),
                line: text_at(line, 37),
                path: text_at(line, 40),
                activities: activities_at(line, 43),
                engineering: text_at(line, 55),
                pathing: text_at(line, 57),
                performance: text_at(line, 59),
            }),
            Err(why) => Err(why),
        }
    }

    /// The times of the location on the way that the line spells, or the first reason in column order why it
    /// spells none.
    #[tactic(auto, unfolding(crate::specs::Stop::stop_refusal))]
    fn times_at(line: &Line) -> Result<StopTimes, Refusal>
        ensures { IsJudged (stop_refusal line.now)
            (λ times. (columns 1 2 line.now ≡ codes "LI")
            × StandsIn (columns 11 15 line.now) (working_time times.arrival)
            × StandsIn (columns 16 20 line.now) (working_time times.departure)
            × StandsIn (columns 21 25 line.now) (working_time times.pass)
            × StandsIn (columns 26 29 line.now) (public_time times.public_arrival)
            × StandsIn (columns 30 33 line.now) (public_time times.public_departure)) result }
    {
        check_letters(line, 1, b"LI", Refusal::UnknownRecord)?;
        Ok(StopTimes {
            arrival: field_or(line, 11, Refusal::BadTime)?,
            departure: field_or(line, 16, Refusal::BadTime)?,
            pass: field_or(line, 21, Refusal::BadTime)?,
            public_arrival: field_or(line, 26, Refusal::BadTime)?,
            public_departure: field_or(line, 30, Refusal::BadTime)?,
        })
    }

    /// Whether these columns are the plain line of a location on the way, as far as one pass over them
    /// shows. A `false` costs time alone.
    #[inline(always)]
    pub fn are_plain(columns: &[u8; LINE_WIDTH]) -> bool
        ensures line { IsTrue result → IsLine columns.now }
        ensures plain { IsTrue result → (r : Stop) × SpellsStop columns.now r
            × (plain_line (stop_table r) ≡ columns.now) }
    {
        // Of other kinds this spares the test.
        if columns[0] != b'L' || columns[1] != b'I' {
            return false;
        }
        PLAIN.passes_columns(columns)
    }

    /// The plain line: spare columns are spaces, texts stand at the left, and activity codes are
    /// packed to the left.
    pub fn write(&self) -> Line
        ensures plain { result ≡ plain_line (stop_table self.now) }
        ensures again { SpellsStop result self.now }
    {
        layout::write(self)
    }
}
