//! The text of an extract, record by record.
ghost use Rattle.std.specs.Prelude.{◌≡◌, ◌∷◌, Some, false, option_copied};
ghost use Rattle.std.specs.List.{flat_map};
ghost use Rattle.cif_columns.specs.{Contents.lines_text, Sink.Writes, Sink.sink_failed};
ghost use Rattle.cif_extract.specs.Texts.{further_lines};
ghost use Rattle.cif_feed.specs.Steps.Written.{records_text};

use cif_columns::{Line, LineTexts, Sink, WriteDevice, WriteFault};
use cif_extract::{Body, write_head, write_tiploc, write_trailer};
use cif_records::{Header, Tiploc};

/// A record that can be written.
pub(crate) trait Written {
    ghost use Rattle.std.specs.Prelude.{ℕ, List};

    // Its lines, each with a line feed.
    ghost text: { Self → List ℕ };

    /// Appends its text. `texts` is a buffer for its lines.
    fn write<W: WriteDevice>(
        &self,
        texts: &mut LineTexts,
        sink: &mut Sink<W>,
    ) -> Result<(), WriteFault>
        ensures { Writes W.contents W.write_errors (text self.now) sink.old sink.new result };
}

impl Written for Tiploc {
    ghost use Rattle.cif_feed.specs.Steps.Written.{tiploc_text};

    ghost text = { tiploc_text };

    fn write<W: WriteDevice>(
        &self,
        _texts: &mut LineTexts,
        sink: &mut Sink<W>,
    ) -> Result<(), WriteFault> {
        write_tiploc(self, sink)
    }
}

/// Appends the texts of a header, of locations, of associations and schedules, and of the trailer.
// Inlined, it would keep the buffer, 5 KiB, on the stack while the extract is read.
#[inline(never)]
pub(crate) fn write_records<A: Written, S: Written, W: WriteDevice>(
    header: &Header,
    tiplocs: &[Tiploc],
    associations: &[A],
    schedules: &[S],
    sink: &mut Sink<W>,
) -> Result<(), WriteFault>
    ensures { Writes W.contents W.write_errors
        (records_text header.now tiplocs.now (flat_map A.text associations.now) (flat_map S.text schedules.now))
        sink.old sink.new result }
{
    let mut texts = LineTexts::new();
    write_head(header, sink)?;
    write_all(tiplocs, &mut texts, sink)?;
    write_all(associations, &mut texts, sink)?;
    write_all(schedules, &mut texts, sink)?;
    write_trailer(sink)
}

/// Appends the texts of these records.
fn write_all<T: Written, W: WriteDevice>(
    items: &[T],
    texts: &mut LineTexts,
    sink: &mut Sink<W>,
) -> Result<(), WriteFault>
    requires { sink_failed sink.old ≡ false }
    ensures { Writes W.contents W.write_errors (flat_map T.text items.now) sink.old sink.new result }
{
    for item in items {
        item.write(texts, sink)?;
    }
    Ok(())
}

/// Appends this line, as the BS of a schedule, and the plain lines of its body, if it has one, each with a line
/// feed.
pub(crate) fn write_schedule<W: WriteDevice>(
    basic: &Line,
    body: Option<&Body>,
    texts: &mut LineTexts,
    sink: &mut Sink<W>,
) -> Result<(), WriteFault>
    ensures { Writes W.contents W.write_errors
        (lines_text (basic.now ∷ further_lines (option_copied body.entry))) sink.old sink.new result }
{
    match body {
        Some(body) => write_with_body(basic, body, texts, sink),
        None => sink.write_line(basic),
    }
}

/// Appends this line, as the BS of a schedule, and the plain lines of its body, each with a line feed.
fn write_with_body<W: WriteDevice>(
    basic: &Line,
    body: &Body,
    texts: &mut LineTexts,
    sink: &mut Sink<W>,
) -> Result<(), WriteFault>
    ensures { Writes W.contents W.write_errors
        (lines_text (basic.now ∷ further_lines (Some body.now))) sink.old sink.new result }
{
    let rest = texts.take(body.further_lines());
    texts.set_first(basic);
    sink.write_all(texts.text())?;
    sink.write_lines(&rest)
}
