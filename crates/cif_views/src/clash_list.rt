//! All clashes of an extract, and their lines.
ghost use Rattle.std.specs.Prelude.{◌≡◌, ◌↔◌, [], IfErr, IsTrue};
ghost use Rattle.cif_columns.specs.Sink.{Writes};
ghost use Rattle.cif_extract.specs.declared.fault.Fault.TheVariants.{Write};
ghost use Rattle.cif_views.specs.Clashes.{association_values, clash_line, clash_names, clash_row, clash_table, clashes_text, train_values};
ghost use Rattle.cif_rows.specs.{Adds.Adds, Appended.IsAppended, Row.all_named, Row.row_text, Steps.fields_text};

use crate::line_fields::push_nothing;
use arrayvec::ArrayString;
use cif_canon::writing::{answer, append};
use cif_columns::{Day, Sink, Uid, WriteDevice};
use cif_extract::{Clash, Fault};
use cif_records::AssocKey;
use cif_rows::{Format, Json, Padded, Padding, RowFormat, Rows, Shape, Tsv};
use std::marker::Model;

/// The fields of a clash.
const CLASH_NAMES: [&str; 8] = [
    "kind",
    "uid",
    "base_uid",
    "associated_uid",
    "location",
    "base_suffix",
    "associated_suffix",
    "date",
];

/// The bytes of the longest line: that of associations.
const LONGEST_CLASH_LINE: usize = 54;

/// The clashes of an extract in its window: a clause sees them as a list, in which associations come
/// before trains, and both rise by key.
#[derive(Drop)]
pub struct Clashes {
    found: Vec<Clash>,
}

impl Model for Clashes {
    ghost use Rattle.std.specs.Prelude.{List};
    ghost use Rattle.cif_extract.specs.declared.fault.Clash.{Clash};

    ghost Value = { List Clash };

    ghost view = { λ c. c.found.items };
}

impl Clashes {
    /// The clashes of this list.
    pub(crate) fn of(found: Vec<Clash>) -> Clashes
        ensures { result ≡ found.items }
    {
        Clashes { found }
    }

    /// Whether there is none.
    pub fn is_empty(&self) -> bool
        ensures { IsTrue result ↔ (self.now ≡ []) }
    {
        self.found.is_empty()
    }

    /// Appends a line for each clash, as `train [C00123] on 260106`. It takes no memory.
    pub fn write<W: WriteDevice>(&self, sink: &mut Sink<W>) -> Result<(), Fault>
        ensures writes { Writes W.contents W.write_errors (clashes_text self.now) sink.old sink.new result }
        ensures fault { IfErr result (λ fault. fault ≡ Write) }
    {
        write_clashes(self.found.as_slice(), sink);
        answer(sink)
    }

    /// Appends the clashes as a table in this format, a row for each. It takes no memory.
    pub fn write_table<W: WriteDevice>(
        &self,
        format: Format,
        sink: &mut Sink<W>,
    ) -> Result<(), Fault>
        ensures writes { Writes W.contents W.write_errors (clash_table format self.now) sink.old sink.new result }
        ensures fault { IfErr result (λ fault. fault ≡ Write) }
    {
        let found = self.found.as_slice();
        match format {
            Format::Text => write_rows::<Padded, W>(found, sink),
            Format::Tsv => write_rows::<Tsv, W>(found, sink),
            Format::Json => write_rows::<Json, W>(found, sink),
        }
        answer(sink)
    }
}

/// Appends the lines of the clashes.
fn write_clashes<W: WriteDevice>(clashes: &[Clash], sink: &mut Sink<W>)
    ensures { IsAppended W.contents W.write_errors (clashes_text clashes.now) sink.old sink.new }
{
    for clash in clashes {
        append(line_of(clash).as_str(), sink);
    }
}

/// The line of a clash.
#[tactic(auto, unfolding(crate::specs::Clashes::clash_line))]
fn line_of(clash: &Clash) -> ArrayString<LONGEST_CLASH_LINE>
    ensures { result.bytes ≡ clash_line clash.now }
{
    let mut line = ArrayString::new();
    line.push_str(clash.text().as_str());
    line.push_str("\n");
    line
}

/// Appends the names of the fields and the rows of the clashes.
fn write_rows<F: RowFormat, W: WriteDevice>(clashes: &[Clash], sink: &mut Sink<W>)
    ensures { IsAppended W.contents W.write_errors (clash_table F.FORMAT clashes.now) sink.old sink.new }
{
    let mut rows = Rows::<F>::new();
    rows.push_names(sink, &CLASH_NAMES);
    rows.end_names();
    for clash in clashes {
        push_clash(&mut rows, clash, sink);
    }
    rows.finish(sink);
}

/// Adds the row of a clash.
fn push_clash<F: RowFormat, W: WriteDevice>(rows: &mut Rows<F>, clash: &Clash, sink: &mut Sink<W>)
    ensures { Adds W.contents W.write_errors (row_text F.FORMAT (clash_row clash.now)) sink.old sink.new rows.old rows.new }
{
    rows.begin_row(sink);
    match clash {
        Clash::Association(key, day) => push_association(rows, key, *day, sink),
        Clash::Train(uid, day) => push_train(rows, uid, *day, sink),
    }
    rows.end_row(sink);
}

/// Adds the fields of a clash of associations.
fn push_association<F: RowFormat, W: WriteDevice>(
    rows: &mut Rows<F>,
    key: &AssocKey,
    day: Day,
    sink: &mut Sink<W>,
)
    ensures { Adds W.contents W.write_errors (fields_text F.FORMAT (all_named clash_names (association_values key.now day)))
        sink.old sink.new rows.old rows.new }
{
    rows.push(sink, "kind", Padding::Apart, Shape::Trimmed, b"AA");
    push_nothing(rows, "uid", sink);
    rows.push(
        sink,
        "base_uid",
        Padding::Apart,
        Shape::Whole,
        &key.base.write(),
    );
    rows.push(
        sink,
        "associated_uid",
        Padding::Apart,
        Shape::Whole,
        &key.associated.write(),
    );
    rows.push(
        sink,
        "location",
        Padding::Apart,
        Shape::Trimmed,
        &key.location.write(),
    );
    rows.push(
        sink,
        "base_suffix",
        Padding::Apart,
        Shape::Trimmed,
        &key.base_suffix.write(),
    );
    rows.push(
        sink,
        "associated_suffix",
        Padding::Apart,
        Shape::Trimmed,
        &key.associated_suffix.write(),
    );
    rows.push(sink, "date", Padding::Apart, Shape::Date, &day.to_yymmdd());
}

/// Adds the fields of a clash of trains.
fn push_train<F: RowFormat, W: WriteDevice>(
    rows: &mut Rows<F>,
    uid: &Uid,
    day: Day,
    sink: &mut Sink<W>,
)
    ensures { Adds W.contents W.write_errors (fields_text F.FORMAT (all_named clash_names (train_values uid.now day)))
        sink.old sink.new rows.old rows.new }
{
    rows.push(sink, "kind", Padding::Apart, Shape::Trimmed, b"BS");
    rows.push(sink, "uid", Padding::Apart, Shape::Whole, &uid.write());
    push_nothing(rows, "base_uid", sink);
    push_nothing(rows, "associated_uid", sink);
    push_nothing(rows, "location", sink);
    push_nothing(rows, "base_suffix", sink);
    push_nothing(rows, "associated_suffix", sink);
    rows.push(sink, "date", Padding::Apart, Shape::Date, &day.to_yymmdd());
}
