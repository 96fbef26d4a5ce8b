//! Extracts with damages.
use crate::case::LINE_BYTES;
use crate::readings::numbers::Numbers;
use std::alloc::{AllocError, Global};

/// Bytes that replace others.
const OTHER_BYTES: &[u8; 16] = b"\n\r\t\x7f\xff  0129CNPXZ";

/// The lines of these bytes with up to three damages among their lines, and up to two among their
/// bytes.
pub(crate) fn damaged(
    alloc: Global,
    whole: &[u8],
    others: &[u8],
    numbers: &mut Numbers,
) -> Result<Vec<u8>, AllocError> {
    let mut lines: Vec<&[u8]> = whole.chunks(LINE_BYTES).collect(alloc)?;
    let others: Vec<&[u8]> = others.chunks(LINE_BYTES).collect(alloc)?;
    for _ in 0..numbers.below(4) {
        damage_lines(&mut lines, others.as_slice(), numbers)?;
    }
    damaged_bytes(alloc, lines.as_slice(), numbers)
}

/// The bytes of these lines with up to two damages.
fn damaged_bytes(
    alloc: Global,
    lines: &[&[u8]],
    numbers: &mut Numbers,
) -> Result<Vec<u8>, AllocError> {
    let mut bytes = Vec::new(alloc);
    for line in lines {
        bytes.extend_from_slice(line)?;
    }
    for _ in 0..numbers.below(3) {
        damage_bytes(&mut bytes, numbers)?;
    }
    Ok(bytes)
}

/// Swaps two lines, or drops, repeats, replaces or adds one.
fn damage_lines<'a>(
    lines: &mut Vec<&'a [u8]>,
    others: &[&'a [u8]],
    numbers: &mut Numbers,
) -> Result<(), AllocError> {
    let at = numbers.below(lines.len());
    let to = numbers.below(lines.len());
    let other = others.get(numbers.below(others.len()));
    if at >= lines.len() || to >= lines.len() {
        return Ok(());
    }
    match (numbers.below(6), other) {
        (0, _) => lines.swap(at, to),
        (1, _) => {
            lines.remove(at);
        }
        (2, _) => {
            let line = lines[at];
            lines.insert(to, line)?;
        }
        (3, Some(other)) => lines[at] = *other,
        (_, Some(other)) => lines.insert(at, *other)?,
        (_, None) => {}
    }
    Ok(())
}

/// Swaps two bytes, or drops, repeats or replaces one.
fn damage_bytes(bytes: &mut Vec<u8>, numbers: &mut Numbers) -> Result<(), AllocError> {
    let at = numbers.below(bytes.len());
    let to = numbers.below(bytes.len());
    let other = OTHER_BYTES.get(numbers.below(OTHER_BYTES.len()));
    if at >= bytes.len() || to >= bytes.len() {
        return Ok(());
    }
    match (numbers.below(6), other) {
        (0, _) => bytes.swap(at, to),
        (1, _) => {
            bytes.remove(at);
        }
        (2, _) => {
            let byte = bytes[at];
            bytes.insert(at, byte)?;
        }
        (_, Some(other)) => bytes[at] = *other,
        (_, None) => {}
    }
    Ok(())
}
