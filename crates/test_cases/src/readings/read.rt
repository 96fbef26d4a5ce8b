//! Readings over slices and trial readers.
ghost use Rattle.std.specs.Prelude.{◌<◌};

use crate::readings::answer::{Answer, Outcome};
use cif_columns::{End, Source, TrialReader};
use cif_extract::{Extract, Fault, read_extract};
use std::alloc::Global;

/// What the bytes are read as.
pub(crate) fn read_slice(alloc: Global, bytes: &[u8], max_lines: u16) -> Result<Extract, Fault> {
    read_extract(alloc, &mut Source::new(bytes), u64::from(max_lines))
}

/// What the bytes are read as, one byte a read.
pub(crate) fn read_byte_by_byte(
    alloc: Global,
    bytes: &[u8],
    max_lines: u16,
) -> Result<Extract, Fault> {
    let mut source = Source::new(TrialReader::new(bytes, 1, End::Stop));
    read_extract(alloc, &mut source, u64::from(max_lines))
}

/// What the bytes come to.
pub(crate) fn answer_of(alloc: Global, bytes: &[u8], max_lines: u16) -> Answer {
    Answer {
        outcome: Outcome::of(&read_slice(alloc, bytes, max_lines)),
        again: Outcome::of(&read_byte_by_byte(alloc, bytes, max_lines)),
        failed: false,
    }
}

/// What the bytes come to where the reader fails after them.
pub(crate) fn answer_of_failing(alloc: Global, bytes: &[u8], max_lines: u16) -> Answer {
    let (outcome, failed) = read_before_failure(alloc, bytes, 1, max_lines);
    let (again, _) = read_before_failure(alloc, bytes, 100, max_lines);
    Answer {
        outcome,
        again,
        failed,
    }
}

/// What the bytes come to in pieces of at most `step`, where the reader fails after them, and
/// whether the source has failed.
fn read_before_failure(alloc: Global, bytes: &[u8], step: usize, max_lines: u16) -> (Outcome, bool)
    requires { 0 < step }
{
    let mut source = Source::new(TrialReader::new(bytes, step, End::Fail));
    let read = read_extract(alloc, &mut source, u64::from(max_lines));
    (Outcome::of(&read), source.failed())
}
