//! Writers that take all bytes, or too few.
ghost use Rattle.std.specs.Prelude.{◌≤◌};

use crate::devices::written::Written;
use crate::output::Output;
use cif_columns::{Sink, TrialWriter, WriteFault};

/// The most bytes that a trial writer takes.
const ROOM: usize = 2048;

/// Appends how often a writer that takes all bytes of the text is called, and whether each that takes too few
/// keeps those that fit, is called for these and once more, and is let be then.
pub(crate) fn push_trials<T: Written>(out: &mut Output, name: &str, written: &T, text: &[u8]) {
    let len = text.len();
    match calls_for_all(written, text) {
        Some((writes, flushes)) => {
            writeln!(
                out,
                "{name}: {len} bytes, calls to write {writes}, to flush {flushes}"
            );
        }
        None => return writeln!(out, "{name}: otherwise where all bytes fit"),
    }
    match first_touched(written, text) {
        Some((takes, zero)) => writeln!(out, "{name}: otherwise where {takes} bytes fit ({zero})"),
        None => writeln!(out, "{name}: {WriteFault} where fewer than {len} bytes fit"),
    }
}

/// The first of the writers that take too few bytes which isn't let be: how many it takes, and
/// whether it answers 0 then.
fn first_touched<T: Written>(written: &T, text: &[u8]) -> Option<(usize, bool)> {
    for takes in 0..text.len().min(ROOM) {
        for zero in [false, true] {
            if !is_let_be(written, text, takes, zero) {
                return Some((takes, zero));
            }
        }
    }
    None
}

/// How often a writer that takes all bytes of the text, and no more, is called to write them, and
/// then to flush; nothing where it is blamed or hasn't got them.
fn calls_for_all<T: Written>(written: &T, text: &[u8]) -> Option<(u64, u64)> {
    let mut sink = Sink::new(TrialWriter::new(text.len().min(ROOM), false));
    let is_written = written.write(&mut sink).is_ok();
    let writes = sink.writer().calls();
    let is_flushed = sink.flush().is_ok();
    let calls = sink.writer().calls();
    if is_written && is_flushed && !sink.failed() && sink.writer().bytes() == text {
        Some((writes, calls.saturating_sub(writes)))
    } else {
        None
    }
}

/// Whether a writer that takes so few bytes of the text, and then answers 0 if `zero` and else
/// fails, is blamed, has kept them, was called for them and once more, and isn't touched again.
fn is_let_be<T: Written>(written: &T, text: &[u8], takes: usize, zero: bool) -> bool
    requires { takes ≤ ROOM }
{
    let Some(prefix) = text.get(..takes) else {
        return false;
    };
    let mut sink = Sink::new(TrialWriter::new(takes, zero));
    let has_failed = written.write(&mut sink) == Err(WriteFault) && sink.failed();
    let calls = sink.writer().calls();
    let once_more = calls == written.writes_of(prefix).saturating_add(1);
    let fails_again = written.write(&mut sink) == Err(WriteFault)
        && sink.flush() == Err(WriteFault);
    let is_prefix = sink.writer().bytes() == prefix;
    has_failed && once_more && fails_again && is_prefix && sink.writer().calls() == calls
}
