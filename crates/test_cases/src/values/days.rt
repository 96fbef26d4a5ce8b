//! Days.
use crate::case::text_of;
use crate::output::Output;
use cif_columns::Day;

/// Appends all that the day in six columns `yymmdd` tells.
pub(crate) fn push_yymmdd(out: &mut Output, columns: &[u8]) {
    push_day(out, columns.as_array().and_then(Day::from_yymmdd))
}

/// The same of six columns `ddmmyy`.
pub(crate) fn push_ddmmyy(out: &mut Output, columns: &[u8]) {
    push_day(out, columns.as_array().and_then(Day::from_ddmmyy))
}

fn push_day(out: &mut Output, day: Option<Day>) {
    let Some(day) = day else {
        return writeln!(out, "none");
    };
    let yymmdd = day.to_yymmdd();
    let ddmmyy = day.to_ddmmyy();
    write!(out, "|{}| |{}|", text_of(&yymmdd), text_of(&ddmmyy));
    write!(out, " number {} weekday {}", day.number(), day.weekday());
    write!(out, " week {} between ", day.week());
    push_name(out, day.previous());
    write!(out, " and ");
    push_name(out, day.next());
    writeln!(out)
}

/// Appends the columns `yymmdd` of a day, or that there is none.
fn push_name(out: &mut Output, day: Option<Day>) {
    match day {
        Some(day) => write!(out, "{}", text_of(&day.to_yymmdd())),
        None => write!(out, "none"),
    }
}
