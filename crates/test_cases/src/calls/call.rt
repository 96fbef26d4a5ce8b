//! The calls of the libraries.
use crate::calls::calendars::{write_calendar, write_runs};
use crate::calls::checksum::Checksum;
use crate::calls::records::write_records;
use cif_canon::{
    Asked, canon, check, compare, day_view, normalise, train_view, write_comparison, write_counts,
};
use cif_columns::{Day, MAX_LINES, Sink, Source, Uid, WriteFault};
use cif_extract::{Extract, Fault, read_extract};
use cif_weeks::Form;
use std::alloc::Global;
use std::io::Stdout;

/// A call, with what is handed in.
#[derive(Clone, Copy)]
pub(crate) enum Call<'a> {
    ReadExtract(&'a [u8]),
    Normalise(&'a [u8]),
    Check(&'a [u8]),
    Canon(&'a Extract),
    Compare(&'a Extract, &'a Extract),
    DayView(&'a Extract, Day),
    TrainView(&'a Extract, Uid),
    Calendar(&'a Extract),
    Runs(&'a Extract),
}

/// The window of the header.
const NOTHING_ASKED: Asked = Asked {
    from: None,
    to: None,
};

impl Call<'_> {
    /// Makes the call, and writes what it returns behind what it writes itself.
    pub(crate) fn make(&self, alloc: Global, sink: &mut Sink<Stdout>) -> Result<(), Fault> {
        match self {
            Call::ReadExtract(bytes) => write_extract(alloc, *bytes, sink),
            Call::Normalise(bytes) => write_normalised(alloc, *bytes, sink),
            Call::Check(bytes) => write_checked(alloc, *bytes, sink),
            Call::Canon(extract) => write_canon(alloc, *extract, sink),
            Call::Compare(left, right) => write_compared(alloc, *left, *right, sink),
            Call::DayView(extract, day) => day_view(alloc, *extract, *day, sink),
            Call::TrainView(extract, uid) => train_view(alloc, *extract, uid, sink, Form::Two),
            Call::Calendar(extract) => write_calendar(alloc, *extract, sink),
            Call::Runs(extract) => write_runs(alloc, *extract, sink),
        }
    }

    /// A sum of what is handed in.
    pub(crate) fn checksum(&self) -> Result<Checksum, WriteFault> {
        let mut sink = Sink::new(Checksum::new());
        match self {
            Call::ReadExtract(bytes) | Call::Normalise(bytes) | Call::Check(bytes) => {
                sink.write_all(*bytes)?
            }
            Call::Compare(left, right) => {
                write_records(*left, &mut sink)?;
                write_records(*right, &mut sink)?;
            }
            Call::Canon(extract)
            | Call::DayView(extract, _)
            | Call::TrainView(extract, _)
            | Call::Calendar(extract)
            | Call::Runs(extract) => write_records(*extract, &mut sink)?,
        }
        Ok(*sink.writer())
    }
}

fn write_extract(alloc: Global, bytes: &[u8], sink: &mut Sink<Stdout>) -> Result<(), Fault> {
    let extract = read_extract(alloc, &mut Source::new(bytes), MAX_LINES)?;
    write_records(&extract, sink)?;
    Ok(())
}

fn write_normalised(alloc: Global, bytes: &[u8], sink: &mut Sink<Stdout>) -> Result<(), Fault> {
    let mut source = Source::new(bytes);
    let counts = normalise(
        alloc,
        &mut source,
        sink,
        MAX_LINES,
        &NOTHING_ASKED,
        Form::Two,
    )?;
    write_counts(&counts, sink)?;
    Ok(())
}

fn write_checked(alloc: Global, bytes: &[u8], sink: &mut Sink<Stdout>) -> Result<(), Fault> {
    let mut source = Source::new(bytes);
    let counts = check(alloc, &mut source, MAX_LINES, &NOTHING_ASKED, Form::Two)?;
    write_counts(&counts, sink)?;
    Ok(())
}

fn write_canon(alloc: Global, extract: &Extract, sink: &mut Sink<Stdout>) -> Result<(), Fault> {
    let canon = canon(alloc, extract, Form::Two)?;
    canon.write(sink)?;
    write_counts(&canon.counts(), sink)?;
    Ok(())
}

fn write_compared(
    alloc: Global,
    left: &Extract,
    right: &Extract,
    sink: &mut Sink<Stdout>,
) -> Result<(), Fault> {
    write_comparison(&compare(alloc, left, right)?, sink)?;
    Ok(())
}
