//! What is said of a job of extracts that was done, after the line of its fault.
use crate::files::{ProcessFiles, ProcessOutput};
use crate::line_advice::Reader;
use crate::message::Message;
use crate::read_input::ReadInput;
use cif_columns::Uid;
use cif_commands::{DoneJob, Job, Kept, Output, Verbosity};
use cif_extract::{Clash, Extract, Fault};
use cif_rows::Format;
use cif_views::{Board, Locations, Place, are_at, tiploc_of};
use std::alloc::Global;
use std::io;
use std::io::Stdout;

const CLASHES: &str =
    "cif clashes lists all clashes; cif prepare --drop-clashes leaves them out on their dates";

/// What is said of a job that was done: more of its answer, or what helps with its fault.
pub(crate) fn job_advice(
    rt: HostRuntime,
    done: &DoneJob<'_, '_, ProcessFiles, ProcessOutput>,
    answer: &Result<u8, Fault>,
    kept: &mut Kept,
) -> Vec<u8> {
    let mut message = Message::new(rt.alloc());
    let job = JobAdvice {
        verbosity: done.verbosity,
        job: done.job,
        output: done.output.get_ref(),
        left: ReadInput {
            rt,
            input: done.left,
        },
        right: ReadInput {
            rt,
            input: done.right,
        },
    };
    match answer {
        Ok(_) => job.add_answer(kept, &mut message),
        Err(fault) => job.add_advice(fault, kept, &mut message),
    }
    message.into_text()
}

/// A job that was done, with its inputs and its output.
#[derive(Clone, Copy)]
struct JobAdvice<'a, 'b> {
    verbosity: Verbosity,
    job: &'a Job,
    output: &'a Output<Stdout>,
    left: ReadInput<'a, 'b>,
    right: ReadInput<'a, 'b>,
}

impl JobAdvice<'_, '_> {
    /// Adds what is said of the answer.
    fn add_answer(&self, kept: &Kept, message: &mut Message) {
        if let Some(reasons) = &kept.reasons {
            self.left.add_name(message);
            self.left.add_reasons(reasons, message);
            return;
        }
        if self.verbosity == Verbosity::All {
            self.add_windows(message);
        }
        if let Some(extract) = &kept.left {
            match self.job {
                Job::Train(job) if !has_row(self.output, job.listing.format) => {
                    add_records_of(extract, &job.uid, message);
                }
                Job::Explain(job) if !has_row(self.output, job.format) => {
                    add_records_of(extract, &job.uid, message);
                }
                Job::Calendar(job) if !has_schedule(extract, &job.uid) => {
                    add_records_of(extract, &job.uid, message);
                }
                Job::Board(job) if !has_row(self.output, job.format) => {
                    add_unknown_places(extract, &job.board, message);
                }
                _ => {}
            }
        }
    }

    /// Adds the windows of the inputs that begin with a header.
    fn add_windows(&self, message: &mut Message) {
        for input in [self.left, self.right] {
            if let Some(header) = input.header() {
                input.add_window(&header, message);
            }
        }
    }

    /// Adds what helps with a fault.
    fn add_advice(&self, fault: &Fault, kept: &mut Kept, message: &mut Message) {
        let last = if self.right.input.is_touched() {
            self.right
        } else {
            self.left
        };
        match fault {
            Fault::OutsideWindow | Fault::WindowsDiffer => {
                self.add_windows(message);
                if self.are_apart() {
                    message.line("they have no date in common");
                } else if let Fault::WindowsDiffer = fault {
                    message.line("--common compares the dates that both have");
                }
            }
            Fault::WindowReversed => message.line("the date of --from is after the date of --to"),
            Fault::Refused { line, why } => last.add_refusal(
                *line,
                *why,
                Reader::Extracts,
                message,
            ),
            Fault::Read => last.add_read_failure(message),
            Fault::Write => add_write_failure(self.output, message),
            Fault::Ambiguous(clash) => {
                // The left one is looked at first, as `compare` and `differences` do.
                if !self.left.add_records(clash, &mut kept.left, message) {
                    self.right.add_records(clash, &mut kept.right, message);
                }
                message.line(CLASHES);
            }
            Fault::Memory => {}
        }
    }

    /// Whether both inputs begin with a header, and their windows have no date in common.
    fn are_apart(&self) -> bool {
        match (self.left.header(), self.right.header()) {
            (Some(left), Some(right)) => left.last < right.first || right.last < left.first,
            _ => false,
        }
    }
}

/// Whether there is a schedule with this UID.
fn has_schedule(extract: &Extract, uid: &Uid) -> bool {
    let mut schedules = extract.schedules.as_slice().iter();
    schedules.any(|one| one.uid == *uid)
}

/// Adds whether there are records with this UID.
fn add_records_of(extract: &Extract, uid: &Uid, message: &mut Message) {
    let mut associations = extract.associations.as_slice().iter();
    let has_association = associations.any(|one| one.key.base == *uid
        || one.key.associated == *uid);
    message.line(if has_association || has_schedule(extract, uid) {
        "there are records with this UID"
    } else {
        "no record has this UID"
    });
}

/// Adds the places of a board that the extract has nothing of.
fn add_unknown_places(extract: &Extract, board: &Board, message: &mut Message) {
    add_unless_known(extract, &board.place, message);
    if let Some(place) = &board.calling_at {
        add_unless_known(extract, place, message);
    }
}

/// Adds that no location has the code, if no TI and no line of a train has the place.
fn add_unless_known(extract: &Extract, place: &Place, message: &mut Message) {
    let Ok(locations) = Locations::of(message.alloc, extract.tiplocs.as_slice(), place) else {
        return;
    };
    let mut tiplocs = extract.tiplocs.as_slice().iter();
    let mut schedules = extract.schedules.as_slice().iter();
    let is_known = tiplocs.any(|one| locations.has(&tiploc_of(one)))
        || schedules.any(|one| match &one.body {
            Some(body) => are_at(body.further_lines(), &locations),
            None => false,
        });
    if !is_known {
        let code = str::from_utf8(&place.tiploc).unwrap_or("").trim_end();
        message.line(format_args!("no location has the code {code}"));
    }
}

/// Whether there is a line in the output that isn't the heading of a table.
fn has_row(output: &Output<Stdout>, format: Format) -> bool {
    match format {
        Format::Text | Format::Json => output.lines > 0,
        Format::Tsv => output.lines > 1,
    }
}

/// Adds that the output wasn't written, and why if the system says so.
pub(crate) fn add_write_failure(output: &Output<Stdout>, message: &mut Message) {
    match reason_of(message.alloc, output.failure) {
        Some(reason) => message.line(format_args!("in standard output: {reason}")),
        None => message.line("in standard output"),
    }
}

/// The system's text for the error of this number, if it gave one.
pub(crate) fn reason_of(alloc: Global, failure: Option<i32>) -> Option<String> {
    io::Error::from_raw_os_error(failure?).to_string(alloc).ok()
}
