//! Says what runs on which dates by the records of extracts.
//!
//! The lines of a case are those of an extract. Its schedules are taken as those of one train, or
//! by the word `of=AA` its associations as those of one key. The one CALL is
//! `calendar from=YYMMDD to=YYMMDD members=N,N`: the window is the header's, or begins or ends with
//! these dates; the records are all, or those at these positions. The answer is the window, the dates
//! with their sources, the pieces with the sources of their weekdays from Monday on, and the runs in
//! each form with their sources; or the date on which the extract is ambiguous.
//!
//! A source is named by the first position of a record with the same body, as several records may
//! have it; where there is none, by a hyphen.

pub(crate) mod dates;
pub(crate) mod positions;
mod report;

use crate::case::Case;
use crate::output::Output;
use cif_extract::Extract;
use dates::push_calendar;
use std::alloc::Global;

/// Appends what the case's call answers, if it is one of these.
pub(crate) fn push_answer(alloc: Global, out: &mut Output, case: &Case) -> bool {
    if case.call != "calendar" {
        return false;
    }
    match case.extract(alloc) {
        Ok(extract) => push_call(alloc, out, case, &extract),
        Err(_) => writeln!(out, "no extract"),
    }
    true
}

/// Appends what the case's call answers of the extract.
fn push_call(alloc: Global, out: &mut Output, case: &Case, extract: &Extract) {
    let first = case.day("from").unwrap_or(extract.header.first);
    let last = case.day("to").unwrap_or(extract.header.last);
    if case.value("of") == Some("AA") {
        push_calendar(
            alloc,
            out,
            case,
            extract.associations.as_slice(),
            first,
            last,
        )
    } else {
        push_calendar(alloc, out, case, extract.schedules.as_slice(), first, last)
    }
}
