//! How two extracts compare: the first difference, and the line that names it.
ghost use Rattle.std.specs.Prelude.{◌≡◌, ◌<◌, IfErr, IfOk, length};
ghost use Rattle.cif_calendar.specs.{ByKey.HasKey, ByKey.IsFirstOrNone, Keys.keyed};
ghost use Rattle.cif_columns.specs.Sink.{Writes};
ghost use Rattle.cif_extract.specs.ExtractParts.{extract_parts};
ghost use Rattle.cif_canon.specs.Comparison.{AreCompared, IsCompareFault, IsComparison, IsFirstDifference, comparison_line};
ghost use Rattle.cif_canon.specs.{Asked.header_window, Differences.at_side, Steps.Differences.AreClearIfSame, Steps.OnlySides.AreSame};
ghost use Rattle.cif_weeks.specs.Window.{window_days};

use crate::differing::{
    Extent, check_comparable, check_one_window, different_records, fault_of_both,
};
use crate::listed_differences::{Side, Sided};
use crate::tiplocs::different_tiplocs;
use arrayvec::ArrayString;
use cif_calendar::{CalendarFault, Entry, RankedEntry, Window};
use cif_columns::{Day, Sink, Uid, WriteDevice, WriteFault, as_text};
use cif_extract::{Clash, Extract, Fault};
use cif_records::{AssocKey, Tiploc};
use cif_weeks::Run;
use std::alloc::Global;
use std::fmt;

/// The bytes of the longest line: that of a location.
const LONGEST_COMPARISON: usize = 89;

/// How two extracts compare in their window: whether they agree, and else the first difference.
#[derive(Drop)]
pub enum Comparison {
    /// They have the same locations, and on each date the same associations hold and the same trains
    /// run, with the same bodies.
    Same,
    /// The least location that only one of them has.
    Tiploc(Tiploc),
    /// The locations agree. The least key of an association, and its first date, of which they say
    /// different things.
    Association(AssocKey, Day),
    /// The locations and the associations agree. The least train, and its first date, of which they
    /// say different things.
    Train(Uid, Day),
}

/// Its line, without the line feed.
impl fmt::Debug for Comparison {
    fn fmt<W: fmt::Write>(&self, f: &mut fmt::Formatter<W>) -> fmt::Result {
        f.write_str(line_of(self).as_str().trim_end())
    }
}

/// Appends the line that says how two extracts compare, with its line feed.
pub fn write_comparison<W: WriteDevice>(
    comparison: &Comparison,
    sink: &mut Sink<W>,
) -> Result<(), WriteFault>
    ensures { Writes W.contents W.write_errors (comparison_line comparison.now)
        sink.old sink.new result }
{
    sink.write_all(line_of(comparison).as_str().as_bytes())
}

/// The line that says how two extracts compare.
#[tactic(auto, unfolding(crate::specs::Comparison::comparison_line))]
fn line_of(comparison: &Comparison) -> ArrayString<LONGEST_COMPARISON>
    ensures { result.bytes ≡ comparison_line comparison.now }
{
    let mut line = ArrayString::new();
    match comparison {
        Comparison::Same => line.push_str("same"),
        Comparison::Tiploc(tiploc) => {
            line.push_str("differs: tiploc [");
            line.push_str(as_text(&tiploc.columns));
            line.push_str("]");
        }
        Comparison::Association(key, day) => {
            line.push_str("differs: ");
            line.push_str(Clash::Association(key.copy(), *day).text().as_str());
        }
        Comparison::Train(uid, day) => {
            line.push_str("differs: ");
            line.push_str(Clash::Train(*uid, *day).text().as_str());
        }
    }
    line.push_str("\n");
    line
}

/// Compares what two extracts with one window say: their locations, then their associations, then
/// their trains, by key and then date. The other columns of their headers don't count.
///
/// WindowsDiffer comes where their windows do, then Ambiguous with the left extract's first clash,
/// then with the right one's; Memory where memory ran out.
pub fn compare(alloc: Global, left: &Extract, right: &Extract) -> Result<Comparison, Fault>
    ensures ok { IfOk result
        (AreCompared (extract_parts left.now) (extract_parts right.now)) }
    ensures fault { IfErr result
        (IsCompareFault (extract_parts left.now) (extract_parts right.now)) }
{
    check_one_window(left, right)?;
    match first_found(alloc, left, right) {
        // All keys were compared, and so none has a clash.
        Ok(Comparison::Same) => Ok(Comparison::Same),
        Ok(comparison) => {
            check_comparable(alloc, left, right)?;
            Ok(comparison)
        }
        Err(_) => Err(fault_of_both(alloc, left, right)),
    }
}

/// How two extracts with one window compare. Those that are the same have no clash.
fn first_found<'x>(
    alloc: Global,
    left: &'x Extract,
    right: &'x Extract,
) -> Result<Comparison, CalendarFault>
    requires { header_window left.now.header ≡ header_window right.now.header }
    ensures found { IfOk result (IsComparison (extract_parts left.now) (extract_parts right.now)) }
    ensures clear { IfOk result (AreClearIfSame (extract_parts left.now) (extract_parts right.now)) }
{
    {
        let tiplocs = different_tiplocs(alloc, left.tiplocs.as_slice(), right.tiplocs.as_slice())?;
        if let Some(first) = tiplocs.as_slice().first() {
            return Ok(Comparison::Tiploc(first.it));
        }
    }
    let window = Window::of(&left.header);
    match first_difference(
        alloc,
        left.associations.as_slice(),
        right.associations.as_slice(),
        &window,
    ) {
        Err(error) => return Err(error),
        Ok(Some((association, day))) => {
            return Ok(Comparison::Association(association.key.copy(), day));
        }
        Ok(None) => {}
    }
    match first_difference(
        alloc,
        left.schedules.as_slice(),
        right.schedules.as_slice(),
        &window,
    ) {
        Err(error) => Err(error),
        Ok(Some((schedule, day))) => Ok(Comparison::Train(schedule.uid, day)),
        Ok(None) => Ok(Comparison::Same),
    }
}

/// The first key, and its first date of the window, of which the two lists say different things: an
/// entry with the key, and the date. Where there is none, neither list has a clash in the window.
fn first_difference<'a, E: RankedEntry>(
    alloc: Global,
    left: &'a [E],
    right: &'a [E],
    window: &Window,
) -> Result<Option<(&'a E, Day)>, CalendarFault>
    ensures { IfOk result (IsFirstOrNone
        (AreSame (window_days window.now)
        (keyed E.key E.terms left.now) (keyed E.key E.terms right.now))
        (λ it. IsFirstDifference E.Key.cmp (keyed E.key E.terms left.now) (keyed E.key E.terms right.now)
        window.now.first window.now.last (E.key it.0.now) it.1)) }
{
    let runs = different_records(alloc, left, right, window, Extent::FirstKey)?;
    match runs.as_slice().first() {
        None => Ok(None),
        Some(first) => Ok(Some((entry_of(left, right, first), first.it.first))),
    }
}

/// The entry of a run, which is one of its side.
fn entry_of<'a, E: Entry>(left: &'a [E], right: &'a [E], run: &Sided<Run>) -> &'a E
    requires { run.now.it.source < length (at_side left.now right.now run.now.side) }
    ensures { HasKey (at_side (keyed E.key E.terms left.now) (keyed E.key E.terms right.now) run.now.side)
        run.now.it.source (E.key result.now) }
{
    &run.side.of(left, right)[run.it.source]
}
