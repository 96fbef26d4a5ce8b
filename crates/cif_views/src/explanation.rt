//! Why a train runs on a day or doesn't: a line for each record, with its mark.
ghost use Rattle.std.specs.Prelude.{◌≡◌, ◌∷◌, [], ℕ, List, IfErr, codes, map};
ghost use Rattle.cif_calendar.specs.Terms.{Terms};
ghost use Rattle.cif_extract.specs.ExtractParts.{extract_parts};
ghost use Rattle.cif_canon.specs.Normalised.{FaultWrites, IfWritten};
ghost use Rattle.cif_rows.specs.{Adds.Adds, Appended.IsAppended, Row.row_text, Row.text, Steps.fields_text};
ghost use Rattle.cif_rows.specs.declared.format.Format.TheVariants.{Text};
ghost use Rattle.cif_views.specs.Explanation.{IsExplanation, IsExplanationFault, explanation_heading, mark_columns, said_of_association};
ghost use Rattle.cif_views.specs.Explanation.{said_of_train, start_fields};
ghost use Rattle.cif_views.specs.Steps.Explanation.{AreMarkedOn, IsRisingBy, placed_of};

use crate::marks::{Applying, ExplainedEntry, Mark, mark_at, records_on};
use cif_calendar::Entry;
use cif_canon::check_within;
use cif_canon::rows::{
    ASSOCIATION_NAMES, JOURNEY_NAMES, TRAIN_NAMES, push_association, push_train,
};
use cif_canon::writing::answer;
use cif_columns::{Day, Sink, Uid, WriteDevice};
use cif_extract::{Extract, Fault, Schedule};
use cif_records::Association;
use cif_rows::{Format, Json, Padded, Padding, RowFormat, Rows, Shape, Tsv};
use std::alloc::Global;

/// The names of the fields of a record that applies, up to its days.
const EXPLAINED_NAMES: [&str; 7] = [
    "date",
    "mark",
    "kind",
    "stp_indicator",
    "first_date",
    "last_date",
    "days_run",
];

/// Appends why the train runs on the day, or doesn't: a line for each record that applies, with its
/// mark. First come its associations, of which it is the base or the associated train, by key, and then
/// its schedules; those of one key are in the order of their letters C, N, O, P, and of one letter in
/// that of the extract.
///
/// OutsideWindow comes where the day isn't in the extract's window, and then Memory, and Write. A
/// clash is no fault. All memory is allocated before anything is written.
pub fn explain_view<W: WriteDevice>(
    alloc: Global,
    extract: &Extract,
    uid: &Uid,
    day: Day,
    sink: &mut Sink<W>,
) -> Result<(), Fault>
    ensures view { (text : List ℕ)
        × FaultWrites W.contents W.write_errors text sink.old sink.new result
        × IfWritten result (IsExplanation Text (extract_parts extract.now) uid.now day text) }
    ensures fault { IfErr result (IsExplanationFault (extract_parts extract.now) day) }
{
    explain_listing(alloc, extract, uid, day, sink, Format::Text)
}

/// Appends why the train runs on the day, or doesn't, as `explain_view` does, in this format. A table
/// begins with the names of its fields.
pub fn explain_listing<W: WriteDevice>(
    alloc: Global,
    extract: &Extract,
    uid: &Uid,
    day: Day,
    sink: &mut Sink<W>,
    format: Format,
) -> Result<(), Fault>
    ensures view { (text : List ℕ)
        × FaultWrites W.contents W.write_errors text sink.old sink.new result
        × IfWritten result (IsExplanation format (extract_parts extract.now) uid.now day text) }
    ensures fault { IfErr result (IsExplanationFault (extract_parts extract.now) day) }
{
    match format {
        Format::Text => list_explained::<Padded, W>(alloc, extract, uid, day, sink),
        Format::Tsv => list_explained::<Tsv, W>(alloc, extract, uid, day, sink),
        Format::Json => list_explained::<Json, W>(alloc, extract, uid, day, sink),
    }
}

/// Appends why the train runs on the day, or doesn't.
fn list_explained<F: RowFormat, W: WriteDevice>(
    alloc: Global,
    extract: &Extract,
    uid: &Uid,
    day: Day,
    sink: &mut Sink<W>,
) -> Result<(), Fault>
    ensures view { (text : List ℕ)
        × FaultWrites W.contents W.write_errors text sink.old sink.new result
        × IfWritten result (IsExplanation F.FORMAT (extract_parts extract.now) uid.now day text) }
    ensures fault { IfErr result (IsExplanationFault (extract_parts extract.now) day) }
{
    check_within(&extract.header, day)?;
    let associations = records_on(alloc, extract.associations.as_slice(), uid, day)?;
    let trains = records_on(alloc, extract.schedules.as_slice(), uid, day)?;
    write_names::<F, W>(sink);
    write_explained::<F, Association, W>(day, associations.as_slice(), sink);
    write_explained::<F, Schedule, W>(day, trains.as_slice(), sink);
    answer(sink)
}

/// Appends the names of the fields, if they stand before the rows.
fn write_names<F: RowFormat, W: WriteDevice>(sink: &mut Sink<W>)
    ensures { IsAppended W.contents W.write_errors (explanation_heading F.FORMAT) sink.old sink.new }
{
    let mut rows = Rows::<F>::new();
    rows.push_names(sink, &EXPLAINED_NAMES);
    rows.push_names(sink, &TRAIN_NAMES);
    rows.push_names(sink, &ASSOCIATION_NAMES);
    rows.end_names();
    rows.finish(sink);
}

/// Appends the rows of the records that apply, with their marks.
fn write_explained<F: RowFormat, E: ExplainedEntry, W: WriteDevice>(
    day: Day,
    applying: &[Applying<'_, E>],
    sink: &mut Sink<W>,
)
    requires rising { IsRisingBy E.Key.cmp (map (placed_of E.key E.terms) applying.now) }
    ensures { AreMarkedOn W.contents W.write_errors (λ e. row_text F.FORMAT (E.fields day e))
        (map (placed_of E.key E.terms) applying.now) (map (placed_of E.key E.terms) applying.now)
        sink.old sink.new }
{
    let mut mark = Mark::Wins;
    for (i, one) in applying.iter().enumerate() {
        mark = mark_at(applying, i, mark);
        write_one::<F, E, W>(one.entry, day, mark, sink);
    }
}

/// Appends the row of a record that applies, with this mark.
fn write_one<F: RowFormat, E: ExplainedEntry, W: WriteDevice>(
    entry: &E,
    day: Day,
    mark: Mark,
    sink: &mut Sink<W>,
)
    ensures { (place : ℕ) → IsAppended W.contents W.write_errors (row_text F.FORMAT (E.fields day (record {
      place = place;
      key = E.key entry.now;
      terms = E.terms entry.now;
      mark = mark;
    }))) sink.old sink.new }
{
    let mut rows = Rows::<F>::new();
    rows.begin_row(sink);
    entry.push_row(&mut rows, day, mark, sink);
    rows.end_row(sink);
    rows.finish(sink);
}

/// The six columns of a mark.
fn columns_of(mark: Mark) -> [u8; 6]
    ensures { result ≡ mark_columns mark }
{
    match mark {
        Mark::Wins => *b"wins  ",
        Mark::Clash => *b"clash ",
        Mark::Hidden => *b"hidden",
    }
}

/// Adds what rows begin with: the date, the mark and the kind, and the record's letter, dates and mask.
fn push_start<F: RowFormat, E: Entry, W: WriteDevice>(
    rows: &mut Rows<F>,
    day: Day,
    mark: Mark,
    kind: [u8; 2],
    entry: &E,
    sink: &mut Sink<W>,
)
    ensures { Adds W.contents W.write_errors (fields_text F.FORMAT (start_fields day mark kind (E.terms entry.now)))
        sink.old sink.new rows.old rows.new }
{
    rows.push_fields(
        sink,
        &[
            ("date", Padding::Hidden, Shape::Date, &day.to_yymmdd()),
            ("mark", Padding::Apart, Shape::Trimmed, &columns_of(mark)),
            ("kind", Padding::Apart, Shape::Trimmed, &kind),
            (
                "stp_indicator",
                Padding::Apart,
                Shape::Trimmed,
                &[entry.letter().write()],
            ),
            (
                "first_date",
                Padding::Apart,
                Shape::Date,
                &entry.first().to_yymmdd(),
            ),
            (
                "last_date",
                Padding::Apart,
                Shape::Date,
                &entry.last().to_yymmdd(),
            ),
            (
                "days_run",
                Padding::Apart,
                Shape::Trimmed,
                &entry.days().write(),
            ),
        ],
    );
}

/// Adds what an association says.
fn push_said_of_association<F: RowFormat, W: WriteDevice>(
    rows: &mut Rows<F>,
    association: &Association,
    sink: &mut Sink<W>,
)
    ensures { Adds W.contents W.write_errors
        (fields_text F.FORMAT (said_of_association association.now.key association.now.body))
        sink.old sink.new rows.old rows.new }
{
    let key = &association.key;
    match &association.body {
        Some(body) => {
            rows.make_room(sink);
            push_association(rows, key, body);
        }
        None => rows.push_fields(
            sink,
            &[
                ("base_uid", Padding::Apart, Shape::Whole, &key.base.write()),
                (
                    "associated_uid",
                    Padding::Apart,
                    Shape::Whole,
                    &key.associated.write(),
                ),
                ("association_category", Padding::Hidden, Shape::Trimmed, b""),
                ("date_indicator", Padding::Hidden, Shape::Trimmed, b""),
                (
                    "association_location",
                    Padding::Apart,
                    Shape::Trimmed,
                    &key.location.write(),
                ),
                (
                    "base_suffix",
                    Padding::Apart,
                    Shape::Trimmed,
                    &key.base_suffix.write(),
                ),
                (
                    "associated_suffix",
                    Padding::Apart,
                    Shape::Trimmed,
                    &key.associated_suffix.write(),
                ),
                ("diagram_type", Padding::Hidden, Shape::Trimmed, b""),
                ("association_type", Padding::Hidden, Shape::Trimmed, b""),
            ],
        ),
    }
}

/// Adds what a schedule says.
fn push_said_of_train<F: RowFormat, W: WriteDevice>(
    rows: &mut Rows<F>,
    schedule: &Schedule,
    sink: &mut Sink<W>,
)
    ensures { Adds W.contents W.write_errors (fields_text F.FORMAT (said_of_train schedule.now.uid schedule.now.body))
        sink.old sink.new rows.old rows.new }
{
    match &schedule.body {
        Some(body) => {
            rows.make_room(sink);
            push_train(rows, &schedule.uid, body);
        }
        None => {
            rows.push(
                sink,
                "uid",
                Padding::Apart,
                Shape::Whole,
                &schedule.uid.write(),
            );
            rows.push_absent(sink, &JOURNEY_NAMES);
        }
    }
}

impl ExplainedEntry for Association {
    ghost use Rattle.cif_views.specs.Explanation.{IsAssociationOf, explained_association_row};

    ghost is_of = { IsAssociationOf };

    ghost fields = { explained_association_row };

    fn is_of(&self, uid: &Uid) -> bool {
        self.key.base == *uid || self.key.associated == *uid
    }

    fn push_row<F: RowFormat, W: WriteDevice>(
        &self,
        rows: &mut Rows<F>,
        day: Day,
        mark: Mark,
        sink: &mut Sink<W>,
    ) {
        push_start(rows, day, mark, *b"AA", self, sink);
        rows.push_absent(sink, &TRAIN_NAMES);
        push_said_of_association(rows, self, sink);
    }
}

impl ExplainedEntry for Schedule {
    ghost use Rattle.cif_views.specs.Explanation.{IsTrain, explained_train_row};

    ghost is_of = { IsTrain };

    ghost fields = { explained_train_row };

    fn is_of(&self, uid: &Uid) -> bool {
        self.uid == *uid
    }

    fn push_row<F: RowFormat, W: WriteDevice>(
        &self,
        rows: &mut Rows<F>,
        day: Day,
        mark: Mark,
        sink: &mut Sink<W>,
    ) {
        push_start(rows, day, mark, *b"BS", self, sink);
        push_said_of_train(rows, self, sink);
        rows.push_absent(sink, &ASSOCIATION_NAMES);
    }
}
