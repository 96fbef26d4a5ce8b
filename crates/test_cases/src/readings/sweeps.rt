//! Readings of an input that is changed in each place in turn.
use crate::case::LINE_BYTES;
use crate::output::Output;
use crate::readings::answer::Answer;
use crate::readings::read::{answer_of, answer_of_failing};
use std::alloc::{AllocError, Global};

/// Neighbouring places with one answer.
#[derive(Clone, Copy)]
struct Stretch {
    first: usize,
    last: usize,
    answer: Answer,
}

/// Appends what is answered at these places.
fn push_stretch(out: &mut Output, label: &str, stretch: &Stretch) {
    let first = stretch.first;
    let last = stretch.last;
    let answer = stretch.answer;
    if first == last {
        writeln!(out, "{label} {first}: {answer}")
    } else {
        writeln!(out, "{label} {first} to {last}: {answer}")
    }
}

/// The stretch with one place more; where the answer is another, the stretch is appended and a new
/// one begins.
fn gone_on(
    out: &mut Output,
    label: &str,
    stretch: Option<Stretch>,
    place: usize,
    answer: Answer,
) -> Option<Stretch> {
    let first = match stretch {
        Some(stretch) if stretch.answer == answer => stretch.first,
        Some(stretch) => {
            push_stretch(out, label, &stretch);
            place
        }
        None => place,
    };
    Some(Stretch {
        first,
        last: place,
        answer,
    })
}

/// Appends what each prefix of the bytes comes to.
pub(crate) fn push_cuts(alloc: Global, out: &mut Output, bytes: &[u8], max_lines: u16) {
    let mut stretch = None;
    for len in 0..=bytes.len() {
        let answer = answer_of(alloc, &bytes[..len], max_lines);
        stretch = gone_on(out, "cut after", stretch, len, answer);
    }
    push_last(out, "cut after", stretch)
}

/// Appends what each prefix of the bytes comes to where the reader fails after it.
pub(crate) fn push_failing_cuts(alloc: Global, out: &mut Output, bytes: &[u8], max_lines: u16) {
    let mut stretch = None;
    for len in 0..=bytes.len() {
        let answer = answer_of_failing(alloc, &bytes[..len], max_lines);
        stretch = gone_on(out, "failing after", stretch, len, answer);
    }
    push_last(out, "failing after", stretch)
}

/// Appends what the bytes come to with each number of lines that may come, up to this one.
pub(crate) fn push_limits(alloc: Global, out: &mut Output, bytes: &[u8], max_lines: u16) {
    let mut stretch = None;
    for max in 0..=max_lines {
        let answer = answer_of(alloc, bytes, max);
        stretch = gone_on(out, "at most", stretch, usize::from(max), answer);
    }
    push_last(out, "at most", stretch)
}

/// Appends what the bytes come to with this one in place of each in turn, line by line.
pub(crate) fn push_replaced(
    alloc: Global,
    out: &mut Output,
    bytes: &[u8],
    byte: u8,
    max_lines: u16,
) {
    let mut line = 0u32;
    for (start, _) in bytes.iter().enumerate().step_by(LINE_BYTES) {
        line = line.saturating_add(1);
        let Ok(label) = format!(in alloc; "line {line}, column") else {
            return out.fail();
        };
        push_replaced_in(alloc, out, label.as_str(), bytes, start, byte, max_lines);
    }
}

/// Appends what they come to with this one in place of each of the line that starts here.
fn push_replaced_in(
    alloc: Global,
    out: &mut Output,
    label: &str,
    bytes: &[u8],
    start: usize,
    byte: u8,
    max_lines: u16,
) {
    let mut stretch = None;
    for column in 1..=LINE_BYTES {
        let place = start.saturating_add(column - 1);
        if place < bytes.len() {
            let Ok(answer) = answer_with(alloc, bytes, place, byte, max_lines) else {
                return out.fail();
            };
            stretch = gone_on(out, label, stretch, column, answer);
        }
    }
    push_last(out, label, stretch)
}

/// What the bytes come to with this one in this place.
fn answer_with(
    alloc: Global,
    bytes: &[u8],
    place: usize,
    byte: u8,
    max_lines: u16,
) -> Result<Answer, AllocError> {
    let mut changed = bytes.to_vec(alloc)?;
    if let Some(old) = changed.get_mut(place) {
        *old = byte;
    }
    Ok(answer_of(alloc, changed.as_slice(), max_lines))
}

/// Appends the stretch that has no further neighbour.
fn push_last(out: &mut Output, label: &str, stretch: Option<Stretch>) {
    if let Some(stretch) = stretch {
        push_stretch(out, label, &stretch);
    }
}
