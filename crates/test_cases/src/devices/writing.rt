//! What is written.
use crate::case::{Case, text_of};
use crate::devices::trials::push_trials;
use crate::devices::written::{Bytes, Dated, Dates, Written};
use crate::output::Output;
use cif_columns::{DaysRun, Sink};
use std::alloc::Global;

/// Appends what goes out of the records of an extract on the dates that the case asks for.
pub(crate) fn push_records(alloc: Global, out: &mut Output, case: &Case) {
    match (case.extract(alloc), dates_of(case)) {
        (Ok(extract), Some(dates)) => {
            let dated = Dated {
                extract: &extract,
                dates: &dates,
            };
            push_written(alloc, out, "Records", &dated)
        }
        _ => writeln!(out, "no extract or no dates"),
    }
}

/// The dates that the case asks for.
fn dates_of(case: &Case) -> Option<Dates> {
    let first = case.day("first")?;
    let last = case.day("last")?;
    let days = DaysRun::read(case.value("days")?.as_bytes().as_array()?)?;
    if first <= last {
        Some(Dates { first, last, days })
    } else {
        None
    }
}

/// Appends what goes out of these bytes.
pub(crate) fn push_bytes(alloc: Global, out: &mut Output, bytes: &[u8]) {
    push_written(alloc, out, "Bytes", &Bytes(bytes))
}

/// Appends what goes to a writer that takes all of it, and what trial writers take.
pub(crate) fn push_written<T: Written>(alloc: Global, out: &mut Output, name: &str, written: &T) {
    let mut sink = Sink::new(Vec::new(alloc));
    if written.write(&mut sink).is_err() {
        return out.fail();
    }
    let text = sink.writer().as_slice();
    out.push_str(text_of(text));
    push_trials(out, name, written, text)
}
