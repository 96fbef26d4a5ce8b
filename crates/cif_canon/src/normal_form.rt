//! The canonical form of an input, or why there is none, and the line that says why.
ghost use Rattle.std.specs.Prelude.{◌≤◌, ◌≡◌, ℕ, List, IfErr, IfOk, IfSome};
ghost use Rattle.cif_columns.specs.{Sink.Writes, Source.reader_of, declared.line_reader.TheConstants.MAX_LINES};
ghost use Rattle.cif_extract.specs.{ExtractParts.extract_parts, ReadCall.IsResultOf};
ghost use Rattle.cif_canon.specs.{Canon.IsCanonOf, Fault.IsCanonFault, Fault.reading_narrowed, Report.fault_line};
ghost use Rattle.cif_canon.specs.Normalised.{FaultWrites, HasCanon, Normalises, reading_canon, checking, normalising};

use crate::extract_runs::extract_runs;
use crate::tiplocs::distinct_tiplocs;
use crate::{Asked, Canon, Counts, narrow};
use arrayvec::ArrayString;
use cif_columns::{ReadDevice, Sink, Source, WriteDevice, WriteFault};
use cif_extract::{Extract, Fault, read_extract};
use cif_weeks::Form;
use std::alloc::Global;

/// Reads an extract, of which at most `max_lines` lines may come, and appends its canonical text in
/// this form, for the window that is asked for. The answer is how many records that text has.
///
/// The faults come in this order: Refused and Read, OutsideWindow, WindowReversed, Ambiguous with the
/// first clash, and then Write; Memory where memory ran out. Nothing is written before the
/// whole input is accepted.
pub fn normalise<R: ReadDevice, W: WriteDevice>(
    alloc: Global,
    source: &mut Source<R>,
    sink: &mut Sink<W>,
    max_lines: u64,
    asked: &Asked,
    form: Form,
) -> Result<Counts, Fault>
    requires within { max_lines ≤ MAX_LINES }
    ensures normal { (text : List ℕ)
        × FaultWrites W.contents W.write_errors text sink.old sink.new result
        × IfSome (R.remaining (reader_of source.old)) (λ bytes.
        Normalises form asked.now max_lines bytes text result) }
    ensures reads { IsResultOf R.remaining R.read_errors
        (normalising form asked.now max_lines) source.old source.new result }
{
    let mut kept = None;
    let canon = read_canon(alloc, source, max_lines, asked, form, &mut kept)?;
    canon.write(sink)?;
    Ok(canon.counts())
}

/// Says how many records `normalise` would write of an extract, or why it would write none; it
/// answers as `normalise` does, but never Write.
pub fn check<R: ReadDevice>(
    alloc: Global,
    source: &mut Source<R>,
    max_lines: u64,
    asked: &Asked,
    form: Form,
) -> Result<Counts, Fault>
    requires within { max_lines ≤ MAX_LINES }
    ensures { IsResultOf R.remaining R.read_errors (checking form asked.now max_lines)
        source.old source.new result }
{
    let mut kept = None;
    let counts = read_canon(alloc, source, max_lines, asked, form, &mut kept)?.counts();
    Ok(counts)
}

/// The canonical form of what is read, for the window that is asked for. The extract is left in `kept`: to
/// free each of its bodies takes time, which a program that ends right after this can spare.
pub fn read_canon<'a, R: ReadDevice>(
    alloc: Global,
    source: &mut Source<R>,
    max_lines: u64,
    asked: &Asked,
    form: Form,
    kept: &'a mut Option<Extract>,
) -> Result<Canon<'a>, Fault>
    requires within { max_lines ≤ MAX_LINES }
    ensures { IsResultOf R.remaining R.read_errors (reading_canon form asked.now max_lines)
        source.old source.new result }
{
    let extract = read_extract(alloc, source, max_lines)?;
    narrowed_canon(alloc, extract, asked, form, kept)
}

/// The canonical form of the extract, narrowed to the window that is asked for. A fault is that of
/// `narrow`, or else that of `canon`. The extract is left in `kept`.
pub fn narrowed_canon<'a>(
    alloc: Global,
    mut extract: Extract,
    asked: &Asked,
    form: Form,
    kept: &'a mut Option<Extract>,
) -> Result<Canon<'a>, Fault>
    ensures { HasCanon form asked.now (extract_parts extract) result }
{
    narrow(&mut extract, asked)?;
    let extract = kept.insert(extract);
    canon(alloc, extract, form)
}

/// The extract that the source's lines spell, narrowed to the window that is asked for. A fault is
/// that of `read_extract`, or else that of `narrow`.
pub fn read_narrowed<R: ReadDevice>(
    alloc: Global,
    source: &mut Source<R>,
    max_lines: u64,
    asked: &Asked,
) -> Result<Extract, Fault>
    requires within { max_lines ≤ MAX_LINES }
    ensures { IsResultOf R.remaining R.read_errors (reading_narrowed max_lines asked.now)
        source.old source.new result }
{
    let mut extract = read_extract(alloc, source, max_lines)?;
    narrow(&mut extract, asked)?;
    Ok(extract)
}

/// The canonical form of the extract, or why it has none: Ambiguous with its first clash, associations
/// before trains, by key and then date; Memory where memory ran out.
pub fn canon<'a>(alloc: Global, extract: &'a Extract, form: Form) -> Result<Canon<'a>, Fault>
    ensures ok { IfOk result (IsCanonOf form (extract_parts extract.now)) }
    ensures fault { IfErr result (IsCanonFault (extract_parts extract.now)) }
{
    let tiplocs = distinct_tiplocs(alloc, extract.tiplocs.as_slice())?;
    let runs = extract_runs(alloc, extract, form)?;
    extract.fits();
    Ok(Canon {
        extract,
        tiplocs,
        associations: runs.associations,
        schedules: runs.schedules,
    })
}

/// The bytes of the longest line: that of associations that clash.
const LONGEST_FAULT_LINE: usize = 70;

/// Appends the line that names the fault: `cif: `, what it is, and a line feed.
pub fn report<W: WriteDevice>(fault: &Fault, sink: &mut Sink<W>) -> Result<(), WriteFault>
    ensures { Writes W.contents W.write_errors (fault_line fault.now) sink.old sink.new result }
{
    sink.write_all(line_of(fault).as_str().as_bytes())
}

/// The line that names the fault.
#[tactic(auto, unfolding(crate::specs::Report::fault_line))]
fn line_of(fault: &Fault) -> ArrayString<LONGEST_FAULT_LINE>
    ensures { result.bytes ≡ fault_line fault.now }
{
    let mut line = ArrayString::new();
    line.push_str("cif: ");
    line.push_str(fault.text().as_str());
    line.push_str("\n");
    line
}
