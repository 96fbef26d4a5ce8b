//! Reads lines and bytes of readers and writes records and bytes to writers: of devices that cut,
//! end, fail or never end.
//!
//! CALL is one of these, of which the first five are about a reader that has the input. It gives at
//! most N bytes a read, by the word `by=N` (1 if left out), and ends after them; or it fails then,
//! by the word `end=fail`, or goes on with its bytes from K for ever, by the word `from=K`.
//!
//! - `lines max=N`: asks for line after line, of which at most N may come (1000 if left out). The
//!   answer is what each call gave, and how often the reader had been read by then. After what is
//!   no line it is asked for once more.
//! - `count max=N`: asks for lines until there is none. The answer is their number or the fault,
//!   and how often the reader was read.
//! - `extract max=N`: reads the input as an extract. The answer is what that came to, how often the
//!   reader was read, and whether it has failed.
//! - `devices max=N`: counts the lines of a slice, of a reader behind a buffer and of a borrowed
//!   reader.
//! - `reads`: reads up to 100 bytes at a time, until there are none or the reader fails, and once
//!   more. The answer is what each read gave, how often the reader was read, and whether it failed.
//! - `records first=YYMMDD last=YYMMDD days=NNNNNNN`: the input is an extract. Its header, its
//!   locations, its associations and schedules that have bodies (these on the dates that are asked
//!   for) and its trailer go to one sink. The answer is what the sink has got.
//! - `bytes`: the input goes to a sink.
//! - `writes takes=N`: gives each line of the input, by one write, to a trial writer itself, which
//!   takes N bytes and then fails, or answers 0 by the word `then=zero`; and then flushes it. The
//!   answer is what each of these gave, what the writer has, and how often it was called.
//! - `normalise form=1 max=N`: gives what a reader as above has to `normalise`, for a trial writer
//!   as above that takes N bytes by the word `takes=N` (2,048 if left out). The form is 2 if left
//!   out. The answer is what the writer has, the line of the counts or of the fault, and how often
//!   the writer was called.
//! - `canon form=1`: the answer is the line of the counts of the extract that the input is, or that
//!   of the fault, and its canonical text.
//!
//! What `records` and `bytes` write, and the text of `canon`, is then written to trial writers. One
//! takes all bytes, and then it is flushed; the answer says how often it was called for each. The
//! others take fewer bytes, every number of them, and then fail or answer 0. Such a sink has to fail,
//! to have the bytes that fit, by one write a line and one for all lines of a schedule (of `bytes` by
//! one), and then the one that failed, and not to be touched again. The answer says so, or where first
//! it isn't so.

mod canonical;
mod line_count;
mod reading;
mod trials;
mod writers;
mod writing;
mod written;

use crate::case::Case;
use crate::output::Output;
use canonical::{push_canon, push_normalise};
use reading::push_read;
use std::alloc::Global;
use writers::push_writes;
use writing::{push_bytes, push_records};

/// Appends what the case's call answers, if it is one of these.
pub(crate) fn push_answer(alloc: Global, out: &mut Output, case: &Case) -> bool {
    match case.call {
        "records" => push_records(alloc, out, case),
        "bytes" => push_bytes(alloc, out, case.input.as_slice()),
        "writes" => push_writes(out, case),
        "normalise" => push_normalise(alloc, out, case),
        "canon" => push_canon(alloc, out, case),
        "lines" | "count" | "devices" | "extract" | "reads" => push_read(alloc, out, case),
        _ => return false,
    }
    true
}
