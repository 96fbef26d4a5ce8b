//! What `--verbose` says of `prepare` and of `update`, and of their faults.
use crate::files::{ProcessFiles, ProcessOutput};
use crate::input_advice::{FULL_FIRST, other_format};
use crate::job_advice::add_write_failure;
use crate::line_advice::Reader;
use crate::message::{Message, shown};
use crate::read_input::ReadInput;
use cif_columns::{LINE_WIDTH, Source};
use cif_commands::{DonePrepare, DoneUpdates, Input, Output, Verbosity};
use cif_extract::Fault;
use cif_feed::{
    DoneUpdate, Dropped, FeedFault, KeptPrepare, KeptUpdate, ReadFeed, current_reference,
    last_reference,
};
use std::io::Stdout;

const LENIENT: &str = "--lenient goes on after such a line";

const HOLIDAYS_OF_JSON: &str =
    "examples/README.md has a recipe that makes holidays of the government's list";

/// What FULL has to be.
const FROM_UPDATE: &str = "FULL has to be what was published, or what cif update wrote";

const IN_THEIR_ORDER: &str = "updates stand in their order, the oldest first";

// ---- prepare

/// What is said of a job of `prepare` that was done: more of its answer, or what helps with its fault.
pub(crate) fn prepare_advice(
    rt: HostRuntime,
    done: &DonePrepare<'_, '_, '_, ProcessFiles, ProcessOutput>,
    answer: &Result<Dropped, FeedFault>,
    kept: &KeptPrepare,
) -> Vec<u8> {
    let mut message = Message::new(rt.alloc());
    let extract = ReadInput {
        rt,
        input: done.extract,
    };
    match answer {
        Ok(_) if done.verbosity == Verbosity::Help => {}
        Ok(dropped) => {
            add_prepared(extract, done.job.drop_clashes, dropped, kept, &mut message);
        }
        Err(fault) => add_unprepared(done, extract, fault, &mut message),
    }
    message.into_text()
}

/// Adds what was read of the extract, and how many of its records were cut: by holidays, and by clashes, if these
/// were dropped.
fn add_prepared(
    input: ReadInput<'_, '_>,
    drop_clashes: bool,
    dropped: &Dropped,
    kept: &KeptPrepare,
    message: &mut Message,
) {
    if let Some(extract) = &kept.extract
        && let Some(holidays) = &kept.holidays
    {
        let read = ReadFeed::of(extract);
        input.add_window(&read.header, message);
        let cut = extract.count_cut(holidays);
        if drop_clashes {
            let clashing = dropped.records;
            message.line(format_args!(
                "{input}: {read}, records cut by holidays: {cut}, records cut by clashes: {clashing}"
            ));
        } else {
            message.line(format_args!("{input}: {read}, records cut by holidays: {cut}"));
        }
    }
}

/// Adds why there is no prepared extract, of the input that was read last.
fn add_unprepared(
    done: &DonePrepare<'_, '_, '_, ProcessFiles, ProcessOutput>,
    extract: ReadInput<'_, '_>,
    fault: &FeedFault,
    message: &mut Message,
) {
    let reader = Reader::Feeds {
        has_holidays: done.holidays.is_some(),
    };
    let last = match done.holidays {
        Some(holidays) if !extract.input.is_touched() => ReadInput {
            rt: extract.rt,
            input: holidays.reader(),
        },
        _ => extract,
    };
    last.add_feed_fault(fault, reader, done.output.get_ref(), message);
}

// ---- update

/// What is said of a job of `update` that was done: more of its answer, or what helps with its fault.
pub(crate) fn update_advice(
    rt: HostRuntime,
    done: &DoneUpdates<'_, '_, ProcessFiles, ProcessOutput>,
    answer: &Result<(), FeedFault>,
    kept: &KeptUpdate,
) -> Vec<u8> {
    let mut message = Message::new(rt.alloc());
    let job = UpdateAdvice {
        rt,
        output: done.output.get_ref(),
        full: done.full,
        updates: done.updates,
    };
    match answer {
        Ok(()) if done.verbosity == Verbosity::Help => {}
        Ok(()) => job.add_updated(kept, &mut message),
        Err(fault) => job.add_undone(fault, kept, &mut message),
    }
    message.into_text()
}

/// A job of `update` that was done, with its inputs and its output.
#[derive(Clone, Copy)]
struct UpdateAdvice<'a, 'b> {
    rt: HostRuntime,
    output: &'a Output<Stdout>,
    full: &'a Input<'b, ProcessFiles>,
    updates: &'a [Source<Input<'b, ProcessFiles>>],
}

impl<'a, 'b> UpdateAdvice<'a, 'b> {
    /// What advice speaks of.
    fn read(&self, input: &'a Input<'b, ProcessFiles>) -> ReadInput<'a, 'b> {
        ReadInput { rt: self.rt, input }
    }

    /// Adds what was read of the full extract, and what each update did.
    fn add_updated(&self, kept: &KeptUpdate, message: &mut Message) {
        if let Some(read) = &kept.full {
            let full = self.read(self.full);
            full.add_window(&read.header, message);
            message.line(format_args!("{full}: {read}"));
            if kept.looks_prepared() {
                message.line(format_args!("{full}: {FROM_UPDATE}"));
            }
            for (update, done) in self.updates.iter().zip(&kept.done) {
                self.read(update.reader()).add_done(done, message);
            }
        }
    }

    /// Adds why an update isn't done, or why an input isn't read.
    fn add_undone(&self, fault: &FeedFault, kept: &KeptUpdate, message: &mut Message) {
        let input = self.last_touched();
        match fault {
            FeedFault::OutOfSequence { line } => {
                input.add_references(*line, kept, message);
                if self.updates.len() > 1 {
                    message.line(IN_THEIR_ORDER);
                }
            }
            FeedFault::NotThere { line } | FeedFault::AlreadyThere { line } => {
                // An update that was read has left its header in the extract.
                let follows = match &kept.extract {
                    Some(extract) => last_reference(&extract.header) != *b"       ",
                    None => false,
                };
                input.add_unfit(*line, follows, message);
            }
            _ => {
                let reader = Reader::Feeds { has_holidays: true };
                input.add_feed_fault(fault, reader, self.output, message);
            }
        }
    }

    /// The input that was read last: the full extract, or an update.
    fn last_touched(&self) -> ReadInput<'a, 'b> {
        let mut last = self.full;
        for update in self.updates {
            if update.reader().is_touched() {
                last = update.reader();
            }
        }
        self.read(last)
    }
}

// ---- an input

impl ReadInput<'_, '_> {
    /// Adds what helps with a fault of a published extract or of an update, which this input gave, or the
    /// output.
    fn add_feed_fault(
        &self,
        fault: &FeedFault,
        reader: Reader,
        output: &Output<Stdout>,
        message: &mut Message,
    ) {
        match fault {
            FeedFault::Extract(Fault::Refused { line, why }) => {
                self.add_refusal(*line, *why, reader, message);
            }
            FeedFault::Extract(Fault::Read) => self.add_read_failure(message),
            FeedFault::Extract(Fault::Write) => add_write_failure(output, message),
            FeedFault::Extract(_) => {}
            FeedFault::NotUpdate { line } => {
                self.add_column(*line, 47, "must be U, of an update", message);
                message.line(FULL_FIRST);
            }
            FeedFault::BadTransaction { line } => {
                self.add_column(*line, 3, "must be N, R or D", message);
            }
            FeedFault::BadHoliday { line } => self.add_holiday_line(*line, message),
            // What doesn't fit is said with the extract, by `add_unfit` and `add_references`.
            FeedFault::NotThere { line: _ }
            | FeedFault::AlreadyThere { line: _ }
            | FeedFault::OutOfSequence { line: _ } => {}
        }
    }

    /// Adds what an update did, which this input gave, and which of its lines were waived.
    fn add_done(&self, done: &DoneUpdate, message: &mut Message) {
        let outcome = &done.outcome;
        let counts = &outcome.counts;
        let read = ReadFeed {
            header: done.header,
            passed: outcome.passed,
            counts: *counts,
        };
        self.add_window(&read.header, message);
        message.line(format_args!(
            "{self}: {read}, lines new: {}, revised: {}, deleted: {}, waived: {}",
            counts.put,
            counts.revised,
            counts.taken_out,
            outcome.waived.len()
        ));
        for line in &outcome.waived {
            message.line(format_args!("{self}: waived: {}", line.fault().text()));
        }
    }

    /// Adds the line of an update's header that doesn't follow the extract that those before it have left, and their
    /// references.
    fn add_references(&self, number: u64, kept: &KeptUpdate, message: &mut Message) {
        let before = match kept.done.last() {
            Some(done) => Some(&done.header),
            None => kept.full.as_ref().map(|full| &full.header),
        };
        // An update that was read has left its header in the extract.
        if let Some(before) = before
            && let Some(extract) = &kept.extract
        {
            self.add_shown(number, message);
            let last = shown::<LINE_WIDTH>(&last_reference(&extract.header));
            let current = shown::<LINE_WIDTH>(&current_reference(before));
            message.line(format_args!(
                "its last reference is [{last}], and the extract's current reference is [{current}]"
            ));
            message.line("an update was left out or done twice, or is of another feed");
            message.line(LENIENT);
        }
    }

    /// Adds what helps with a line of an update whose record isn't there, or is there already. By the references in their
    /// headers the update may follow the extract.
    fn add_unfit(&self, number: u64, follows: bool, message: &mut Message) {
        self.add_shown(number, message);
        message.line(if follows {
            "FULL isn't what was published, or what cif update wrote"
        } else {
            "an update was left out or done twice, or FULL isn't what was published or what cif update wrote"
        });
        message.line(LENIENT);
    }

    /// Adds the line of this number, of which this column is refused, and what must stand there.
    fn add_column(&self, number: u64, column: usize, what: &str, message: &mut Message) {
        if self.add_shown(number, message).is_some() {
            message.add_columns(column, column, what);
        }
    }

    /// Adds what is wrong with this line of holidays.
    fn add_holiday_line(&self, number: u64, message: &mut Message) {
        self.add_name(message);
        if let Some(format) = other_format(self.input.start.as_slice()) {
            let format = format.split(": take").next().unwrap_or(format);
            message.line(format_args!("the holidays look like {format}"));
            if format == "JSON" {
                message.line(HOLIDAYS_OF_JSON);
            }
            return;
        }
        if let Some(line) = self.line_again(number) {
            if line.add_holiday_word(message) {
                let has_separator = |byte: &u8| matches!(byte, b',' | b'\t');
                if line.bytes.as_slice().iter().any(has_separator) {
                    message.line("words are separated by spaces, not by commas or tabs");
                }
                return;
            }
            message.add_bytes(line.bytes.as_slice());
        }
        message.line(
            "a line has a code, X, E or G, and dates, YYMMDD or YYYY-MM-DD, in at most 1,000 bytes; # begins a remark",
        );
    }
}
