//! Trial writers by themselves.
use crate::case::{Case, LINE_BYTES};
use crate::output::Output;
use cif_columns::TrialWriter;
use std::io;

/// The most bytes that a trial writer takes.
const ROOM: usize = 2048;

/// The writer that the case asks for.
pub(crate) fn writer_of(case: &Case) -> TrialWriter {
    let takes = usize::from(case.number("takes", 2048)).min(ROOM);
    TrialWriter::new(takes, case.value("then") == Some("zero"))
}

/// Appends what a trial writer answers to each line of the input, and then to a flush.
pub(crate) fn push_writes(out: &mut Output, case: &Case) {
    let mut writer = writer_of(case);
    for line in case.input.as_slice().chunks(LINE_BYTES) {
        match io::Write::write(&mut writer, line) {
            Ok(count) => writeln!(out, "{count} bytes"),
            Err(_) => writeln!(out, "an error"),
        }
    }
    match io::Write::flush(&mut writer) {
        Ok(()) => writeln!(out, "flushed"),
        Err(_) => writeln!(out, "an error at the flush"),
    }
    let len = writer.bytes().len();
    writeln!(out, "{len} bytes by {} calls", writer.calls())
}
