//! The window that is asked for, and extracts, one or two, that are narrowed to it.
ghost use Rattle.std.specs.Prelude.{◌≡◌, IfErr, IfOk};
ghost use Rattle.cif_columns.specs.declared.line_reader.TheConstants.{MAX_LINES};
ghost use Rattle.cif_extract.specs.{ExtractParts.extract_parts, ReadCall.IsResultOfBoth, ReadFault.reading_extract};
ghost use Rattle.cif_extract.specs.declared.fault.Fault.TheVariants.{OutsideWindow};
ghost use Rattle.cif_weeks.specs.Window.{IsWithin};
ghost use Rattle.cif_canon.specs.{Asked.IsNarrowed, Asked.IsNarrowingFault, Asked.header_window, Pair.IsNarrowedPair, Pair.asked_of_both};

use cif_columns::{Day, MAX_LINES, ReadDevice, Source};
use cif_extract::{Extract, Fault, read_extract};
use cif_records::Header;
use std::alloc::Global;

/// The part of an extract's window that is asked for, both dates included. A date that is absent is
/// that of the header.
#[derive(Clone, Copy)]
pub struct Asked {
    /// The first date.
    pub from: Option<Day>,
    /// The last date.
    pub to: Option<Day>,
}

/// Narrows the extract to the window that is asked for: columns 49 to 60 of its header, and nothing
/// else.
///
/// OutsideWindow comes where a date that is given isn't in the header's window, and else
/// WindowReversed where the first date that is asked for is after the last. The extract is then as
/// it was.
pub fn narrow(extract: &mut Extract, asked: &Asked) -> Result<(), Fault>
    ensures ok { IfOk result (λ _.
        IsNarrowed asked.now (extract_parts extract.old) (extract_parts extract.new)) }
    ensures fault { IfErr result (IsNarrowingFault asked.now extract.old.header) }
    ensures unchanged { IfErr result (λ _. extract.new ≡ extract.old) }
{
    let first = asked.from.unwrap_or(extract.header.first);
    let last = asked.to.unwrap_or(extract.header.last);
    check_within(&extract.header, first)?;
    check_within(&extract.header, last)?;
    if first > last {
        return Err(Fault::WindowReversed);
    }
    extract.header = extract.header.with_window(first, last);
    Ok(())
}

/// Whether the date is in the header's window: OutsideWindow comes where it isn't.
pub fn check_within(header: &Header, day: Day) -> Result<(), Fault>
    ensures ok { IfOk result (λ _. IsWithin (header_window header.now) day) }
    ensures fault { IfErr result (λ fault. (fault ≡ OutsideWindow)
        × ¬ IsWithin (header_window header.now) day) }
{
    if header.first <= day && day <= header.last {
        Ok(())
    } else {
        Err(Fault::OutsideWindow)
    }
}

/// The extracts of two sources, narrowed to the window that is asked for. If it is `common`, a date
/// that isn't given is that of the window common to both: the later of their first dates, or the
/// earlier of their last dates.
///
/// A fault comes from reading the left extract, then from reading the right one, then from narrowing
/// them in this order. The right source isn't touched before the left one is read to its end and no
/// line of it is refused.
pub fn read_pair<R: ReadDevice>(
    alloc: Global,
    left: &mut Source<R>,
    right: &mut Source<R>,
    asked: &Asked,
    common: bool,
) -> Result<(Extract, Extract), Fault>
    ensures { IsResultOfBoth R.remaining R.read_errors (reading_extract MAX_LINES)
        (IsNarrowedPair asked.now common) left.old left.new right.old right.new result }
{
    let left = read_extract(alloc, left, MAX_LINES)?;
    let right = read_extract(alloc, right, MAX_LINES)?;
    narrow_both(left, right, asked, common)
}

/// Narrows two extracts to what is asked for of both.
fn narrow_both(
    mut left: Extract,
    mut right: Extract,
    asked: &Asked,
    common: bool,
) -> Result<(Extract, Extract), Fault>
    ensures { IsNarrowedPair asked.now common left right result }
{
    let asked = asked_of_both(asked, common, &left, &right);
    narrow(&mut left, &asked)?;
    narrow(&mut right, &asked)?;
    Ok((left, right))
}

/// What is asked for of two extracts.
fn asked_of_both(asked: &Asked, common: bool, left: &Extract, right: &Extract) -> Asked
    ensures { result ≡ asked_of_both common asked.now
        (extract_parts left.now) (extract_parts right.now) }
{
    if common {
        Asked {
            from: Some(
                asked
                    .from
                    .unwrap_or(left.header.first.max(right.header.first)),
            ),
            to: Some(asked.to.unwrap_or(left.header.last.min(right.header.last))),
        }
    } else {
        *asked
    }
}
