//! Counting all lines of a source.
ghost use Rattle.std.specs.Prelude.{◌≡◌, ◌≤◌, ℕ, List, length, false, true, IfSome, IfOk, IfErr};
ghost use Rattle.cif_columns.specs.GivenLines.{AreAllLines, AreLinesToFault};
ghost use Rattle.cif_columns.specs.LineReader.{LineReads};
ghost use Rattle.cif_columns.specs.Source.{reader_of, source_ended, source_failed, unread_of};
ghost use Rattle.cif_columns.specs.declared.line_reader.TheConstants.{MAX_LINES};

use cif_columns::{LineFault, LineReader, ReadDevice, Source};

/// How many lines the source has, of which at most `max_lines` may come, or why it has no further
/// line.
pub(crate) fn count_lines<R: ReadDevice>(
    source: &mut Source<R>,
    max_lines: u64,
) -> Result<u64, LineFault>
    requires { max_lines ≤ MAX_LINES }
    ensures all { IfSome (R.remaining (reader_of source.old)) (λ bytes. IfOk result (λ count.
        (lines : List (List ℕ)) × (count ≡ length lines) × AreAllLines max_lines bytes lines)) }
    ensures fault { IfSome (R.remaining (reader_of source.old)) (λ bytes. IfErr result (λ fault.
        (lines : List (List ℕ))
        × AreLinesToFault max_lines bytes (unread_of R.remaining source.new) lines fault)) }
    ensures endless { IfOk result (λ _.
        (source_failed source.old ≡ false) × (source_ended source.new ≡ true)) }
    ensures device { LineReads R.read_errors source.old source.new result }
{
    let mut lines = LineReader::new(max_lines);
    loop {
        match lines.next(source) {
            Ok(Some(_)) => {}
            Ok(None) => return Ok(lines.line_number()),
            Err(fault) => return Err(fault),
        }
    }
}
