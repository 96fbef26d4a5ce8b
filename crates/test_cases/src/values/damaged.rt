//! Lines that are damaged in each way, and the two ways to their plain lines.
use crate::case::text_of;
use crate::output::Output;
use crate::values::records::{plain_line, written_line};
use cif_columns::Line;
use cif_records::{is_plain_line, kind_of};

/// Appends whether the line is known for a plain one in one pass, and how many damaged lines have the
/// same plain line both ways, or the first that has not.
pub(crate) fn push_damaged(out: &mut Output, line: &Line) {
    let mut lines = 0u32;
    for column in 0..80usize {
        for byte in b' '..=b'~' {
            let mut columns = *line.bytes();
            columns[column] = byte;
            if let Some(damaged) = Line::of(columns) {
                if !has_one_plain_line(&damaged) {
                    return writeln!(out, "not this: {}", text_of(damaged.bytes()));
                }
                lines = lines.saturating_add(1);
            }
        }
    }
    let way = if is_known(line) {
        "in one pass"
    } else {
        "as a record"
    };
    writeln!(out, "{way}; {lines} damaged lines, both ways alike")
}

/// Whether one pass says that the line is plain.
fn is_known(line: &Line) -> bool {
    match kind_of(line) {
        Some(kind) => is_plain_line(kind, line),
        None => false,
    }
}

/// Whether the line's plain line is that of the record that it is read as, or both are refused alike.
fn has_one_plain_line(line: &Line) -> bool {
    plain_line(line) == written_line(line)
}
