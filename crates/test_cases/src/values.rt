//! Reads values and records from columns.
//!
//! Each line of the input is a question by itself, and has a line of the answer (several for
//! `fields`). CALL says what its columns are read as:
//!
//! - `text` (of 3 or 4 columns), `uid`, `activities`, `work-time`, `public-time`, `days`, `letter`:
//!   the value. The answer is the columns that it is written in, `none` where there is no such
//!   value, and what else it tells: the first and the last of the weekdays and all of them, 0 for
//!   Monday, and the letters that come after a letter.
//! - `yymmdd`, `ddmmyy`: a day by its columns. The answer is all that it tells.
//! - `plain`: the plain line of the record that a line spells.
//! - `damaged`: whether a line is known for a plain one in one pass, and whether the line, with
//!   each of its columns changed to each byte of lines in turn, has the same plain line by
//!   `plain_line_of` as by reading a record and writing it.
//! - `fields`: the fields of that record, each by its columns.
//!
//! A line that is refused is answered by the reason and its number.

mod columns;
mod damaged;
mod days;
mod fields;
mod records;

use crate::case::{Case, is_line_feed};
use crate::output::Output;
use cif_columns::Line;
use columns::{
    push_activities, push_days, push_letter, push_public_time, push_text, push_uid, push_work_time,
};
use damaged::push_damaged;
use days::{push_ddmmyy, push_yymmdd};
use records::{push_fields, push_plain};

/// Appends what each line of the case is answered by.
pub(crate) fn push_answers(out: &mut Output, case: &Case) {
    for line in case.input.as_slice().split_inclusive(is_line_feed) {
        let columns = line.strip_suffix(b"\n").unwrap_or(line);
        match columns.as_array::<80>() {
            Some(columns) => push_of_line(out, case, columns),
            None => push_of_columns(out, case, columns),
        }
    }
}

/// Appends what these columns, which are no whole line, are answered by.
fn push_of_columns(out: &mut Output, case: &Case, columns: &[u8]) {
    match case.call {
        "text" => push_text(out, columns),
        "uid" => push_uid(out, columns),
        "activities" => push_activities(out, columns),
        "work-time" => push_work_time(out, columns),
        "public-time" => push_public_time(out, columns),
        "days" => push_days(out, columns),
        "letter" => push_letter(out, columns),
        "yymmdd" => push_yymmdd(out, columns),
        "ddmmyy" => push_ddmmyy(out, columns),
        _ => writeln!(out, "no such call"),
    }
}

/// Appends what these eighty columns are answered by.
fn push_of_line(out: &mut Output, case: &Case, columns: &[u8; 80]) {
    let Some(line) = Line::of(*columns) else {
        return writeln!(out, "no line");
    };
    match case.call {
        "plain" => push_plain(out, &line),
        "damaged" => push_damaged(out, &line),
        "fields" => push_fields(out, &line),
        _ => writeln!(out, "no such call"),
    }
}
