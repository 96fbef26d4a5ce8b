//! Which columns of a line a refusal is about, and what must stand there.
use cif_columns::{Day, PublicTime, Refusal, WorkTime, is_printable};
use cif_feed::HolidayCode;

const YYMMDD: &str = "must be a valid date as six digits, YYMMDD";

/// What a word must be that stands for a date.
pub(crate) const DATE_WORD: &str = "must be a valid date, YYMMDD or YYYY-MM-DD";

/// For which columns a reason can refuse a line: the reason, with which letters the line begins, and the first and the
/// last column, counted from 1.
static TABLE: [(Refusal, &str, usize, usize); 30] = [
    (Refusal::UnknownRecord, "", 1, 2),
    (Refusal::OutOfOrder, "", 1, 2),
    (Refusal::NotFull, "HD", 47, 47),
    (Refusal::NotFull, "AA", 3, 3),
    (Refusal::NotFull, "BS", 3, 3),
    (Refusal::NotFull, "T", 1, 2),
    (Refusal::BadDate, "HD", 49, 54),
    (Refusal::BadDate, "HD", 55, 60),
    (Refusal::BadDate, "AA", 16, 21),
    (Refusal::BadDate, "AA", 22, 27),
    (Refusal::BadDate, "BS", 10, 15),
    (Refusal::BadDate, "BS", 16, 21),
    (Refusal::OpenEnd, "AA", 22, 27),
    (Refusal::OpenEnd, "BS", 16, 21),
    (Refusal::DatesReversed, "HD", 49, 60),
    (Refusal::DatesReversed, "AA", 16, 27),
    (Refusal::DatesReversed, "BS", 10, 21),
    (Refusal::BadDays, "AA", 28, 34),
    (Refusal::BadDays, "BS", 22, 28),
    (Refusal::BankHoliday, "BS", 29, 29),
    (Refusal::BadStp, "", 80, 80),
    (Refusal::BadTime, "LO", 11, 15),
    (Refusal::BadTime, "LO", 16, 19),
    (Refusal::BadTime, "LI", 11, 15),
    (Refusal::BadTime, "LI", 16, 20),
    (Refusal::BadTime, "LI", 21, 25),
    (Refusal::BadTime, "LI", 26, 29),
    (Refusal::BadTime, "LI", 30, 33),
    (Refusal::BadTime, "LT", 11, 15),
    (Refusal::BadTime, "LT", 16, 19),
];

/// The first and the last column for which the line is refused, and what must stand there.
pub(crate) fn columns_refused(line: &[u8], why: Refusal) -> Option<(usize, usize, &'static str)> {
    if why == Refusal::BadByte {
        let before = line.iter().position(|byte| !is_printable(*byte))?;
        let column = before.saturating_add(1);
        return Some((column, column, "a byte is 0x20 to 0x7E"));
    }
    for (reason, kind, first, last) in &TABLE {
        if *reason == why && line.starts_with(kind.as_bytes()) {
            let columns = line.get(first.saturating_sub(1)..*last)?;
            if is_refused(kind, why, columns) {
                return Some((*first, *last, must_stand(kind, why, columns.len())));
            }
        }
    }
    None
}

/// Whether these columns of a line that begins so are refused.
fn is_refused(kind: &str, why: Refusal, columns: &[u8]) -> bool {
    match why {
        Refusal::BadDate => match <[u8; 6]>::try_from(columns) {
            Ok(date) if kind == "HD" => Day::from_ddmmyy(&date).is_none(),
            Ok(date) => Day::from_yymmdd(&date).is_none(),
            Err(_) => false,
        },
        Refusal::BadTime => match (<[u8; 5]>::try_from(columns), <[u8; 4]>::try_from(columns)) {
            (Ok(time), _) => WorkTime::read(&time).is_none(),
            (_, Ok(time)) => PublicTime::read(&time).is_none(),
            _ => false,
        },
        _ => true,
    }
}

/// What must stand in so many columns of a line that begins so, which is refused for this reason.
fn must_stand(kind: &str, why: Refusal, width: usize) -> &'static str {
    match (why, kind) {
        (Refusal::UnknownRecord, _) => "no kind of record has this identity",
        (Refusal::OutOfOrder, _) => "a record of this kind can't stand here",
        (Refusal::NotFull, "HD") => "must be F, of a full extract",
        (Refusal::NotFull, "T") => "this is an update extract, not a full one",
        (Refusal::NotFull, _) => "must be N, of a full extract",
        (Refusal::BadDate, "HD") => "must be a valid date as six digits, DDMMYY",
        (Refusal::BadDate, _) => YYMMDD,
        (Refusal::OpenEnd, _) => "999999 is an open end, not a date",
        (Refusal::DatesReversed, _) => "the first date is after the last",
        (Refusal::BadDays, _) => "a day is 0 or 1",
        (Refusal::BankHoliday, _) => "bank holiday running must be a space",
        (Refusal::BadStp, _) => "the STP indicator is P, N, O or C",
        (Refusal::BadTime, _) if width == 5 => "a working time is HHMM, then a space or H",
        (Refusal::BadTime, _) => "a public time is HHMM",
        _ => "",
    }
}

/// The first and the last column of the first word of a line of holidays, shown up to its remark, that is
/// neither its code nor a date, and what must stand there.
pub(crate) fn holiday_refused(line: &str) -> Option<(usize, usize, &'static str)> {
    let mut before: usize = 0;
    let mut is_first = true;
    for word in line.split(' ') {
        let last = before.saturating_add(word.len());
        if !word.is_empty() {
            let first = before.saturating_add(1);
            let is_code =
                matches!(word.as_bytes(), [letter] if HolidayCode::read(*letter).is_some());
            if is_first && !is_code {
                return Some((first, last, "a code is X, E or G"));
            }
            if !is_first && Day::from_word(word.as_bytes()).is_none() {
                return Some((first, last, DATE_WORD));
            }
            is_first = false;
        }
        before = last.saturating_add(1);
    }
    None
}
