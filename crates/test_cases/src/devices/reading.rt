//! What is read.
use super::line_count::count_lines;
use crate::case::{Case, text_of};
use crate::output::Output;
use crate::readings::answer::Outcome;
use cif_columns::{End, LineFault, LineReader, Source, TrialReader};
use cif_extract::read_extract;
use std::alloc::Global;
use std::io::BufReader;

/// Appends what the case's call reads.
pub(crate) fn push_read(alloc: Global, out: &mut Output, case: &Case) {
    let max_lines = case.number("max", 1000);
    match reader_of(case) {
        Some(reader) => push_call(alloc, out, case, &mut Source::new(reader), max_lines),
        None => writeln!(out, "no such reader"),
    }
}

/// Appends what the case's call reads of this source.
fn push_call(
    alloc: Global,
    out: &mut Output,
    case: &Case,
    source: &mut Source<TrialReader>,
    max_lines: u16,
) {
    match case.call {
        "lines" => push_lines(out, source, max_lines),
        "count" => {
            push_count(out, count_lines(source, u64::from(max_lines)));
            writeln!(out, "reads {}", source.reader().calls());
        }
        "devices" => push_devices(alloc, out, case.input.as_slice(), max_lines),
        "extract" => push_extract(alloc, out, source, max_lines),
        _ => push_reads(out, source),
    }
}

/// The reader that the case asks for.
pub(crate) fn reader_of<'a>(case: &'a Case) -> Option<TrialReader<'a>> {
    let bytes = case.input.as_slice();
    let step = usize::from(case.number("by", 1));
    if step == 0 {
        return None;
    }
    if case.value("end") == Some("fail") {
        return Some(TrialReader::new(bytes, step, End::Fail));
    }
    if case.value("from") == None {
        return Some(TrialReader::new(bytes, step, End::Stop));
    }
    let from = usize::from(case.number("from", 0));
    if from < bytes.len() {
        Some(TrialReader::new(bytes, step, End::Again(from)))
    } else {
        None
    }
}

/// Appends what each call for a line gives.
fn push_lines(out: &mut Output, source: &mut Source<TrialReader>, max_lines: u16) {
    let mut lines = LineReader::new(u64::from(max_lines));
    let mut has_ended = false;
    for _ in 0..=max_lines.saturating_add(1) {
        let answer = lines.next(source);
        let reads = source.reader().calls();
        match answer {
            Ok(Some(line)) => {
                writeln!(out, "after {reads} reads {}", text_of(line.bytes()));
                continue;
            }
            Ok(None) => writeln!(out, "after {reads} reads the end"),
            Err(fault) => {
                write!(out, "after {reads} reads ");
                push_fault(out, fault);
            }
        }
        if has_ended {
            break;
        }
        has_ended = true;
    }
    writeln!(out, "lines {}", lines.line_number())
}

fn push_fault(out: &mut Output, fault: LineFault) {
    match fault {
        LineFault::Refused { line: _, why } => writeln!(out, "{fault}, number {}", why.number()),
        LineFault::Read => writeln!(out, "{fault}"),
    }
}

/// Appends how many lines there are, or why there is no further one.
fn push_count(out: &mut Output, count: Result<u64, LineFault>) {
    match count {
        Ok(count) => writeln!(out, "lines {count}"),
        Err(fault) => push_fault(out, fault),
    }
}

/// Appends what the source is read as, how often it is read, and whether it has failed.
fn push_extract(alloc: Global, out: &mut Output, source: &mut Source<TrialReader>, max_lines: u16) {
    let outcome = Outcome::of(&read_extract(alloc, source, u64::from(max_lines)));
    let reads = source.reader().calls();
    writeln!(
        out,
        "{outcome}, after {reads} reads, failed {}",
        source.failed()
    )
}

/// Appends how many lines these bytes are, over several devices.
fn push_devices(alloc: Global, out: &mut Output, bytes: &[u8], max_lines: u16) {
    let max_lines = u64::from(max_lines);
    push_count(out, count_lines(&mut Source::new(bytes), max_lines));
    let Ok(reader) = BufReader::with_capacity(alloc, 16, bytes) else {
        return out.fail();
    };
    push_count(out, count_lines(&mut Source::new(reader), max_lines));
    let mut reader = TrialReader::new(bytes, 9, End::Stop);
    push_count(out, count_lines(&mut Source::new(&mut reader), max_lines));
}

/// Appends what each read gives.
fn push_reads(out: &mut Output, source: &mut Source<TrialReader>) {
    let mut buf = [0; 100];
    let mut has_ended = false;
    for _ in 0..u16::MAX {
        match source.read(&mut buf) {
            Ok(0) => writeln!(out, "the end"),
            Ok(count) => {
                writeln!(out, "{count} bytes");
                continue;
            }
            Err(fault) => writeln!(out, "{fault}"),
        }
        if has_ended {
            break;
        }
        has_ended = true;
    }
    let reads = source.reader().calls();
    writeln!(out, "reads {reads}, failed {}", source.failed())
}
