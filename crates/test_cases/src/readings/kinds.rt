//! Which records may follow which.
use crate::case::{LINE_BYTES, text_of};
use crate::output::Output;
use crate::readings::answer::{Answer, Outcome};
use crate::readings::read::answer_of;
use cif_columns::Refusal;
use std::alloc::{AllocError, Global};

/// Appends, for each prefix of whole lines of the bytes, which of the other lines may follow it, and
/// what the prefix and that line come to.
pub(crate) fn push_kinds(alloc: Global, out: &mut Output, bytes: &[u8], others: &[u8]) {
    for count in 0..=bytes.len() / LINE_BYTES {
        let prefix = &bytes[..count * LINE_BYTES];
        let mut none = true;
        for other in others.chunks(LINE_BYTES) {
            if push_kind(alloc, out, prefix, count, other) {
                none = false;
            }
        }
        if none {
            writeln!(out, "after {count}: no line");
        }
    }
}

/// Appends what the prefix, which has so many lines, and the other line come to, where that isn't out
/// of order; gives whether it may stand there.
fn push_kind(alloc: Global, out: &mut Output, prefix: &[u8], count: usize, other: &[u8]) -> bool {
    let identity = text_of(other.get(..2).unwrap_or(b""));
    let (Ok(answer), Ok(spoilt)) = (
        answer_behind(alloc, prefix, other, false),
        answer_behind(alloc, prefix, other, true),
    ) else {
        out.fail();
        return false;
    };
    let out_of_order = Outcome::Refused((count as u64).saturating_add(1), Refusal::OutOfOrder);
    if answer.outcome != out_of_order || answer.again != out_of_order {
        writeln!(out, "after {count}: {identity}, {answer}");
        return true;
    }
    if spoilt != answer {
        writeln!(
            out,
            "after {count}: {identity} with other columns, {spoilt}"
        );
    }
    false
}

/// What the prefix and this line behind it come to.
fn answer_behind(
    alloc: Global,
    prefix: &[u8],
    other: &[u8],
    is_spoilt: bool,
) -> Result<Answer, AllocError> {
    let mut bytes = prefix.to_vec(alloc)?;
    for (at, byte) in other.iter().enumerate() {
        let is_changed = is_spoilt && 2 <= at && at < 80;
        bytes.push(if is_changed { b'?' } else { *byte })?;
    }
    Ok(answer_of(alloc, bytes.as_slice(), 100))
}
