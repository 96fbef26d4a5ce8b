//! Values but days.
ghost use Rattle.std.specs.Prelude.{◌≤◌};

use crate::case::text_of;
use crate::output::Output;
use cif_columns::{DaysRun, Line, PublicTime, Stp, Text, WorkTime, activities_at, text_at, uid_at};

/// Appends the columns that a value is written in.
fn push_written(out: &mut Output, columns: &[u8]) {
    write!(out, "|{}|", text_of(columns))
}

/// Appends a line with them.
fn push_value(out: &mut Output, columns: &[u8]) {
    writeln!(out, "|{}|", text_of(columns));
}

/// Appends a line that says that there is no such value.
fn push_none(out: &mut Output) {
    writeln!(out, "none");
}

/// The line that begins with these columns.
fn line_with(columns: &[u8]) -> Option<Line> {
    if columns.len() > 80 {
        return None;
    }
    let mut line = [b' '; 80];
    line[..columns.len()].copy_from_slice(columns);
    Line::of(line)
}

pub(crate) fn push_text(out: &mut Output, columns: &[u8]) {
    let Some(line) = line_with(columns) else {
        return push_none(out);
    };
    match columns.len() {
        3 => push_text_of::<3>(out, &line),
        4 => push_text_of::<4>(out, &line),
        _ => writeln!(out, "no such text"),
    }
}

/// Appends the text in the first `N` columns.
fn push_text_of<const N: usize>(out: &mut Output, line: &Line)
    requires { N ≤ 80 }
{
    let text: Text<N> = text_at(line, 1);
    push_value(out, &text.write());
}

pub(crate) fn push_uid(out: &mut Output, columns: &[u8]) {
    let Some(line) = line_with(columns) else {
        return push_none(out);
    };
    let uid = uid_at(&line, 1);
    push_value(out, &uid.write());
}

pub(crate) fn push_activities(out: &mut Output, columns: &[u8]) {
    let Some(line) = line_with(columns) else {
        return push_none(out);
    };
    let codes = activities_at(&line, 1);
    push_value(out, &codes.write());
}

pub(crate) fn push_work_time(out: &mut Output, columns: &[u8]) {
    let Some(time) = columns.as_array().and_then(WorkTime::read) else {
        return push_none(out);
    };
    push_value(out, &time.write());
}

pub(crate) fn push_public_time(out: &mut Output, columns: &[u8]) {
    let Some(time) = columns.as_array().and_then(PublicTime::read) else {
        return push_none(out);
    };
    push_value(out, &time.write());
}

pub(crate) fn push_days(out: &mut Output, columns: &[u8]) {
    match columns.as_array().and_then(DaysRun::read) {
        Some(days) => push_days_run(out, days),
        None => push_none(out),
    }
}

fn push_days_run(out: &mut Output, days: DaysRun) {
    let written = days.write();
    push_written(out, &written);
    match (days.first(), days.last()) {
        (Some(first), Some(last)) => write!(out, " from {first} to {last}:"),
        _ => write!(out, " no weekday"),
    }
    for weekday in 0..7u8 {
        if days.has(weekday) {
            write!(out, " {weekday}");
        }
    }
    writeln!(out)
}

pub(crate) fn push_letter(out: &mut Output, columns: &[u8]) {
    let letter = match columns {
        [column] => Stp::read(*column),
        _ => None,
    };
    let Some(letter) = letter else {
        return push_none(out);
    };
    let written = letter.write();
    push_written(out, &[written]);
    for other in [Stp::C, Stp::N, Stp::O, Stp::P] {
        if letter < other {
            write!(out, " before {other:?}");
        }
    }
    writeln!(out)
}
