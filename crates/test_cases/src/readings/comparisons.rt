//! Readings beside a plain look at the whole contents.
use crate::case::push_bytes;
use crate::output::Output;
use crate::readings::damage::damaged;
use crate::readings::numbers::Numbers;
use crate::readings::plain_reading::{contents_of, first_refusal, has_records_of};
use crate::readings::read::{answer_of, read_slice};
use cif_extract::Fault;
use std::alloc::{AllocError, Global};

/// What a reading and a look at the contents came to.
#[derive(Clone, Copy)]
struct Comparison {
    is_same: bool,
    /// The number of the refusal, 0 if there is none.
    number: u8,
}

/// Whether the bytes are read as their contents say, and what they say.
fn compare(alloc: Global, bytes: &[u8], max_lines: u16) -> Result<Comparison, AllocError> {
    let contents = contents_of(alloc, bytes)?;
    let given = read_slice(alloc, bytes, max_lines);
    Ok(match first_refusal(&contents, max_lines) {
        Some((line, why)) => Comparison {
            is_same: given.err() == Some(Fault::Refused { line, why }),
            number: why.number(),
        },
        None => Comparison {
            is_same: match given {
                Ok(extract) => has_records_of(&extract, &contents),
                Err(_) => false,
            },
            number: 0,
        },
    })
}

/// Appends what the bytes are read as, and where their contents say something else, that they do.
pub(crate) fn push_reading(alloc: Global, out: &mut Output, bytes: &[u8], max_lines: u16) {
    let Ok(compared) = compare(alloc, bytes, max_lines) else {
        return out.fail();
    };
    writeln!(out, "{}", answer_of(alloc, bytes, max_lines));
    if !compared.is_same {
        writeln!(out, "its contents say something else")
    }
}

/// Appends how so many damaged extracts are read, up to the first that is not read as its contents
/// say.
pub(crate) fn push_damage(
    alloc: Global,
    out: &mut Output,
    bytes: &[u8],
    others: &[u8],
    count: u16,
) {
    let mut numbers = Numbers::new();
    let mut met = [false; 15];
    for _ in 0..count {
        let Ok(input) = damaged(alloc, bytes, others, &mut numbers) else {
            return out.fail();
        };
        let max_lines = match numbers.below(16) {
            0 => 9,
            1 => 11,
            _ => 100,
        };
        let Ok(compared) = compare(alloc, input.as_slice(), max_lines) else {
            return out.fail();
        };
        if !compared.is_same {
            return push_difference(out, input.as_slice(), max_lines);
        }
        if let Some(is_met) = met.get_mut(usize::from(compared.number)) {
            *is_met = true;
        }
    }
    writeln!(out, "{count} inputs, each read as its contents say");
    push_met(out, &met)
}

/// Appends the numbers that were met.
fn push_met(out: &mut Output, met: &[bool; 15]) {
    write!(out, "met");
    for (number, is_met) in met.iter().enumerate() {
        if *is_met {
            write!(out, " {number}");
        }
    }
    writeln!(out)
}

/// Appends an input that isn't read as its contents say.
fn push_difference(out: &mut Output, input: &[u8], max_lines: u16) {
    write!(
        out,
        "of at most {max_lines} lines not read as its contents say: "
    );
    push_bytes(out, input);
    writeln!(out)
}
