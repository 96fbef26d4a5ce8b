//! Canonical extracts, and the lines that answer.
use crate::case::{Case, text_of};
use crate::devices::reading::reader_of;
use crate::devices::writers::writer_of;
use crate::devices::writing::push_written;
use crate::devices::written::{Written, writes_of_lines};
use crate::output::Output;
use cif_canon::{Asked, Canon, Counts, canon, normalise, report, write_counts};
use cif_columns::{Sink, Source, WriteDevice, WriteFault};
use cif_extract::{Extract, Fault};
use cif_weeks::Form;
use std::alloc::Global;

/// Appends what a trial writer has of the canonical extract of what a reader gives, and the line
/// that answers.
pub(crate) fn push_normalise(alloc: Global, out: &mut Output, case: &Case) {
    let Some(reader) = reader_of(case) else {
        return writeln!(out, "no such reader");
    };
    let mut source = Source::new(reader);
    let mut sink = Sink::new(writer_of(case));
    let max_lines = u64::from(case.number("max", 1000));
    let asked = Asked {
        from: None,
        to: None,
    };
    let answer = normalise(
        alloc,
        &mut source,
        &mut sink,
        max_lines,
        &asked,
        form_of(case),
    );
    out.push_str(text_of(sink.writer().bytes()));
    push_line(alloc, out, &answer);
    writeln!(out, "writes {}", sink.writer().calls())
}

/// Appends the canonical form of the extract that the input is, and its counts.
pub(crate) fn push_canon(alloc: Global, out: &mut Output, case: &Case) {
    match case.extract(alloc) {
        Ok(extract) => push_canon_of(alloc, out, &extract, form_of(case)),
        Err(_) => writeln!(out, "no extract"),
    }
}

fn push_canon_of(alloc: Global, out: &mut Output, extract: &Extract, form: Form) {
    match canon(alloc, extract, form) {
        Ok(canon) => {
            push_line(alloc, out, &Ok(canon.counts()));
            push_written(alloc, out, "Canon", &Canonical(canon))
        }
        Err(fault) => push_line(alloc, out, &Err(fault)),
    }
}

/// Appends the line that answers: that of the counts, or that of the fault.
fn push_line(alloc: Global, out: &mut Output, answer: &Result<Counts, Fault>) {
    let mut sink = Sink::new(Vec::new(alloc));
    let outcome = match answer {
        Ok(counts) => write_counts(counts, &mut sink),
        Err(fault) => report(fault, &mut sink),
    };
    match outcome {
        Ok(()) => out.push_str(text_of(sink.writer().as_slice())),
        Err(_) => out.fail(),
    }
}

/// The form that the case asks for.
fn form_of(case: &Case) -> Form {
    match case.value("form") {
        Some("1") => Form::One,
        Some("3") => Form::Three,
        _ => Form::Two,
    }
}

/// A canonical extract, line by line.
#[derive(Drop)]
struct Canonical<'a>(Canon<'a>);

impl Written for Canonical<'_> {
    fn write<W: WriteDevice>(&self, sink: &mut Sink<W>) -> Result<(), WriteFault> {
        match self.0.write(sink) {
            Ok(()) => Ok(()),
            Err(_) => Err(WriteFault),
        }
    }

    fn writes_of(&self, prefix: &[u8]) -> u64 {
        writes_of_lines(prefix)
    }
}
