//! The statuses that the program exits with, and how a command ends.
ghost use Rattle.std.specs.Prelude.{◌≡◌};
ghost use Rattle.cif_commands.specs.Status.{ReportsFault, end_status, listed_status, outcome_of, status_of};

use cif_canon::{Comparison, report};
use cif_columns::{Sink, WriteDevice};
use cif_extract::Fault;

/// The answer was given; of `compare` and `diff`, that the extracts say the same; of `clashes`, that
/// there is none.
pub const DONE: u8 = 0;

/// The extracts that were compared don't say the same; of `clashes`, that there are some.
pub const DIFFERENT: u8 = 1;

/// The command line is wrong.
pub const USAGE_ERROR: u8 = 2;

/// An input is refused, or a date that was asked for; of `check --all`, that lines have reasons.
pub const REFUSED: u8 = 3;

/// A file, a standard stream or a request for memory failed.
pub const FAILED: u8 = 4;

/// The status of a fault: 3 where the input is refused, 4 where a device failed or memory was
/// refused.
pub fn status(fault: &Fault) -> u8
    ensures { result ≡ status_of fault.now }
{
    match fault {
        Fault::Refused { line: _, why: _ }
        | Fault::Ambiguous(_)
        | Fault::WindowsDiffer
        | Fault::OutsideWindow
        | Fault::WindowReversed => REFUSED,
        Fault::Read | Fault::Write | Fault::Memory => FAILED,
    }
}

/// The status of a comparison: 0 where the extracts say the same, else 1.
pub fn outcome(comparison: &Comparison) -> u8
    ensures { result ≡ outcome_of comparison.now }
{
    match comparison {
        Comparison::Same => DONE,
        Comparison::Tiploc(_) | Comparison::Association(_, _) | Comparison::Train(_, _) =>
            DIFFERENT,
    }
}

/// The status of a list: 0 where nothing is listed, else 1.
pub fn listed(is_empty: bool) -> u8
    ensures { result ≡ listed_status is_empty }
{
    if is_empty { DONE } else { DIFFERENT }
}

/// How a command ended.
#[derive(Drop)]
pub struct Ended<A, K> {
    /// Its answer, or why it has none.
    pub answer: A,
    /// The status that the program exits with.
    pub status: u8,
    /// What it has read.
    pub kept: K,
}

/// The status that an answer ends with. A fault's line goes to `errors`; that it can't be written
/// changes no status.
pub fn end<W: WriteDevice>(answer: &Result<u8, Fault>, errors: &mut Sink<W>) -> u8
    ensures status { result ≡ end_status answer.now }
    ensures line { ReportsFault W.contents W.write_errors answer.now errors.old errors.new }
{
    match answer {
        Ok(status) => *status,
        Err(fault) => {
            let _ = report(fault, errors);
            status(fault)
        }
    }
}
