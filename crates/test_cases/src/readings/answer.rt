//! What readings come to.
use cif_columns::Refusal;
use cif_extract::{Extract, Fault};
use std::fmt;

/// What a reading came to.
#[derive(Clone, Copy, PartialEq, Eq)]
pub(crate) enum Outcome {
    /// An extract with so many locations, associations and schedules.
    Read(usize, usize, usize),
    /// The line of this number is refused.
    Refused(u64, Refusal),
    /// A fault with this number, of no line.
    Fault(u8),
}

impl Outcome {
    pub(crate) fn of(read: &Result<Extract, Fault>) -> Outcome {
        match read {
            Ok(extract) => Outcome::Read(
                extract.tiplocs.len(),
                extract.associations.len(),
                extract.schedules.len(),
            ),
            Err(Fault::Refused { line, why }) => Outcome::Refused(*line, *why),
            Err(fault) => Outcome::Fault(fault.number()),
        }
    }
}

impl fmt::Display for Outcome {
    fn fmt<W: fmt::Write>(&self, f: &mut fmt::Formatter<W>) -> fmt::Result {
        match self {
            Outcome::Read(tiplocs, associations, schedules) => {
                write!(f, "read {tiplocs} TI, {associations} AA, {schedules} BS")
            }
            Outcome::Refused(line, why) => {
                write!(f, "line {line}: {why:?}, number {}", why.number())
            }
            Outcome::Fault(18) => write!(f, "ReadFault, number 18"),
            Outcome::Fault(number) => write!(f, "fault of number {number}"),
        }
    }
}

/// What two readings of the same bytes came to, and whether the first one's source has failed.
#[derive(Clone, Copy, PartialEq, Eq)]
pub(crate) struct Answer {
    pub(crate) outcome: Outcome,
    pub(crate) again: Outcome,
    pub(crate) failed: bool,
}

impl fmt::Display for Answer {
    fn fmt<W: fmt::Write>(&self, f: &mut fmt::Formatter<W>) -> fmt::Result {
        write!(f, "{}", self.outcome)?;
        if self.again != self.outcome {
            write!(f, "; in other pieces {}", self.again)?;
        }
        if self.failed {
            write!(f, "; the source has failed")?;
        }
        Ok(())
    }
}
