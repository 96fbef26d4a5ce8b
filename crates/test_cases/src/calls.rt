//! Makes one call of the libraries on the extract of the standard input, and where memory is refused to
//! the call makes it again: `test_cases CALL [WORD..]`. `tests/memory/run_calls` refuses it memory.
//!
//! CALL is one of these, in form 2 where there is a form. The answer is what the call writes, and what
//! it returns:
//!
//! - `read_extract`: the plain lines of what was read.
//! - `normalise`, `check`: the line of the counts.
//! - `canon`: the canonical text, and the line of the counts.
//! - `compare`: the line that says so. The second extract stands behind a line `==`.
//! - `day_view YYMMDD`, `train_view UID`: nothing more.
//! - `calendar`: the dates of the pieces, each with the positions of the winners from Monday on, or
//!   the date on which it is ambiguous. All schedules are taken as those of one train.
//! - `runs`: the dates and days of the runs of that calendar.
//!
//! Any other fault is answered by its line. Behind the answer stands `as before` where a checksum of
//! what was handed in is that of before the call, and else `changed`. What can't be done before the
//! call ends the program, with no output.
mod answer;
mod calendars;
mod call;
mod checksum;
mod records;

use crate::case::day_in;
use answer::answer;
use call::Call;
use cif_columns::{MAX_LINES, Sink, Source, Uid, are_printable};
use cif_extract::{Extract, Fault, read_extract};
use std::alloc::Global;
use std::io::Stdout;

/// Makes the call that the words ask for, and writes what it answers.
pub(crate) fn answer_words(
    alloc: Global,
    words: &[String],
    text: &str,
    sink: &mut Sink<Stdout>,
) -> Result<(), Fault> {
    match call_of_source(word_at(words, 1), text.as_bytes()) {
        Some(call) => answer(alloc, &call, sink)?,
        None => answer_extracts(alloc, words, text, sink)?,
    }
    Ok(())
}

/// Reads the extracts of the text, and makes the call that the words ask for of them.
fn answer_extracts(
    alloc: Global,
    words: &[String],
    text: &str,
    sink: &mut Sink<Stdout>,
) -> Result<(), Fault> {
    let (left, right) = text.split_once("==\n").unwrap_or((text, text));
    let left = extract_of(alloc, left)?;
    let right = extract_of(alloc, right)?;
    match call_of_extracts(words, &left, &right) {
        Some(call) => answer(alloc, &call, sink)?,
        None => sink.write_all(b"no such call\n")?,
    }
    Ok(())
}

fn extract_of(alloc: Global, text: &str) -> Result<Extract, Fault> {
    read_extract(alloc, &mut Source::new(text.as_bytes()), MAX_LINES)
}

/// The call with this name, if it reads a source.
fn call_of_source<'a>(name: &str, bytes: &'a [u8]) -> Option<Call<'a>> {
    match name {
        "read_extract" => Some(Call::ReadExtract(bytes)),
        "normalise" => Some(Call::Normalise(bytes)),
        "check" => Some(Call::Check(bytes)),
        _ => None,
    }
}

/// The call that the words ask for, if it takes extracts.
fn call_of_extracts<'a>(
    words: &[String],
    left: &'a Extract,
    right: &'a Extract,
) -> Option<Call<'a>> {
    let word = word_at(words, 2);
    match word_at(words, 1) {
        "canon" => Some(Call::Canon(left)),
        "compare" => Some(Call::Compare(left, right)),
        "day_view" => Some(Call::DayView(left, day_in(word)?)),
        "train_view" => Some(Call::TrainView(left, uid_of(word)?)),
        "calendar" => Some(Call::Calendar(left)),
        "runs" => Some(Call::Runs(left)),
        _ => None,
    }
}

/// The word at this place, or one of no byte.
fn word_at(words: &[String], place: usize) -> &str {
    match words.get(place) {
        Some(word) => word.as_str(),
        None => "",
    }
}

fn uid_of(word: &str) -> Option<Uid> {
    let columns = word.as_bytes().as_array()?;
    if are_printable(columns) {
        Some(Uid::read(columns))
    } else {
        None
    }
}
