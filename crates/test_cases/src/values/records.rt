//! Lines of records.
use crate::case::text_of;
use crate::output::Output;
use crate::values::fields::list_record;
use cif_columns::{Line, Refusal};
use cif_records::{kind_of, plain_line_of, read_record, write_record};

/// Appends the line, or why there is none.
fn push_judged(out: &mut Output, judged: Result<Line, Refusal>) {
    match judged {
        Ok(line) => writeln!(out, "{}", text_of(line.bytes())),
        Err(why) => writeln!(out, "{why:?}, number {}", why.number()),
    }
}

/// The plain line of the record that the line spells, or why it spells none.
pub(crate) fn plain_line(line: &Line) -> Result<Line, Refusal> {
    match kind_of(line) {
        Some(kind) => plain_line_of(kind, line),
        None => Err(Refusal::UnknownRecord),
    }
}

/// The line of the record that the line is read as, or why it is none.
pub(crate) fn written_line(line: &Line) -> Result<Line, Refusal> {
    match read_record(line) {
        Ok(record) => Ok(write_record(&record)),
        Err(why) => Err(why),
    }
}

/// Appends the plain line of the record that the line spells.
pub(crate) fn push_plain(out: &mut Output, line: &Line) {
    let written = written_line(line);
    let plain = plain_line(line);
    if written != plain {
        writeln!(out, "the record's line and the plain line differ:");
        push_judged(out, written);
    }
    push_judged(out, plain)
}

/// Appends the fields of the record that the line spells.
pub(crate) fn push_fields(out: &mut Output, line: &Line) {
    match read_record(line) {
        Ok(record) => list_record(out, &record),
        Err(why) => push_judged(out, Err(why)),
    }
}
