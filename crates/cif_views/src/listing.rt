//! What runs on a day, and when a train runs, as text, as a table or as JSON, with or without calls.
ghost use Rattle.std.specs.Prelude.{◌≡◌, ◌≤◌, ◌+◌, ◌++◌, ◌∷◌, [], ℕ, List, IfErr, codes, length};
ghost use Rattle.cif_canon.specs.{Normalised.FaultWrites, Normalised.IfWritten, Views.IsDayFault, Views.IsTrainFault};
ghost use Rattle.cif_extract.specs.ExtractParts.{extract_parts};
ghost use Rattle.cif_rows.specs.{Adds.Adds, Appended.IsAppended, Row.heading_text, Steps.fields_text, Steps.names_text};
ghost use Rattle.cif_views.specs.Listing.{IsDayListing, IsTrainListing, call_names_if, day_names, train_names};
ghost use Rattle.cif_views.specs.Steps.Rows.{first_field, listing_in};

use crate::calls::{CALL_NAMES, RowSource, write_row, write_with_calls, write_without_calls};
use cif_canon::rows::{
    ASSOCIATION_NAMES, JOURNEY_NAMES, push_association_row, push_schedule_row, push_train_row,
};
use cif_canon::{DayLines, TrainLines, write_day, write_train};
use cif_columns::{Day, Sink, Uid, WriteDevice};
use cif_extract::{Body, Extract, Fault};
use cif_records::{AssocBody, AssocKey};
use cif_rows::{Format, Json, Padded, Padding, RowFormat, Rows, Shape, Tsv};
use cif_weeks::{Form, Run};
use std::alloc::Global;
use std::marker::PhantomData;

/// How what runs is listed.
#[derive(Clone, Copy)]
pub struct Listing {
    /// How rows are written.
    pub format: Format,
    /// Whether the train's calls are listed too: below its line, in a table each with the fields of the
    /// train before it, or in JSON as a list in its object.
    pub calls: bool,
}

/// Appends what runs on the day, as `day_view` does, in this listing. A table begins with the names of
/// its fields.
pub fn day_listing<W: WriteDevice>(
    alloc: Global,
    extract: &Extract,
    day: Day,
    sink: &mut Sink<W>,
    listing: Listing,
) -> Result<(), Fault>
    ensures view { (text : List ℕ)
        × FaultWrites W.contents W.write_errors text sink.old sink.new result
        × IfWritten result (IsDayListing listing (extract_parts extract.now) day text) }
    ensures fault { IfErr result (IsDayFault (extract_parts extract.now) day) }
{
    let calls = listing.calls;
    match listing.format {
        Format::Text => list_day::<Padded, W>(alloc, extract, day, sink, calls),
        Format::Tsv => list_day::<Tsv, W>(alloc, extract, day, sink, calls),
        Format::Json => list_day::<Json, W>(alloc, extract, day, sink, calls),
    }
}

/// Appends what runs on the day.
fn list_day<F: RowFormat, W: WriteDevice>(
    alloc: Global,
    extract: &Extract,
    day: Day,
    sink: &mut Sink<W>,
    calls: bool,
) -> Result<(), Fault>
    ensures view { (text : List ℕ)
        × FaultWrites W.contents W.write_errors text sink.old sink.new result
        × IfWritten result (IsDayListing (listing_in F.FORMAT calls) (extract_parts extract.now) day text) }
    ensures fault { IfErr result (IsDayFault (extract_parts extract.now) day) }
{
    let rows = ListedRows::<F> {
        calls,
        first: First::Date(day),
        format: PhantomData,
    };
    write_day(alloc, extract, day, sink, &rows)
}

/// Appends when the train runs, as `train_view` does, in this listing. A table begins with the names of
/// its fields.
pub fn train_listing<W: WriteDevice>(
    alloc: Global,
    extract: &Extract,
    uid: &Uid,
    sink: &mut Sink<W>,
    form: Form,
    listing: Listing,
) -> Result<(), Fault>
    ensures view { (text : List ℕ)
        × FaultWrites W.contents W.write_errors text sink.old sink.new result
        × IfWritten result (IsTrainListing listing form (extract_parts extract.now) uid.now text) }
    ensures fault { IfErr result (IsTrainFault (extract_parts extract.now)) }
{
    let calls = listing.calls;
    match listing.format {
        Format::Text => list_train::<Padded, W>(alloc, extract, uid, sink, form, calls),
        Format::Tsv => list_train::<Tsv, W>(alloc, extract, uid, sink, form, calls),
        Format::Json => list_train::<Json, W>(alloc, extract, uid, sink, form, calls),
    }
}

/// Appends when the train runs.
fn list_train<F: RowFormat, W: WriteDevice>(
    alloc: Global,
    extract: &Extract,
    uid: &Uid,
    sink: &mut Sink<W>,
    form: Form,
    calls: bool,
) -> Result<(), Fault>
    ensures view { (text : List ℕ)
        × FaultWrites W.contents W.write_errors text sink.old sink.new result
        × IfWritten result (IsTrainListing (listing_in F.FORMAT calls) form (extract_parts extract.now) uid.now text) }
    ensures fault { IfErr result (IsTrainFault (extract_parts extract.now)) }
{
    let rows = ListedRows::<F> {
        calls,
        first: First::Train(*uid),
        format: PhantomData,
    };
    write_train(alloc, extract, uid, sink, form, &rows)
}

/// What the rows of a table begin with.
#[derive(Clone, Copy)]
enum First {
    /// The date on which they run.
    Date(Day),
    /// The UID of the train.
    Train(Uid),
}

/// Adds what the rows of a table begin with, for which there is room.
fn push_first<F: RowFormat>(rows: &mut Rows<F>, first: First)
    requires room { length rows.old + 40 ≤ 1280 }
    ensures text { rows.new ≡ rows.old ++ fields_text F.FORMAT (first_field first ∷ []) }
    ensures len { length rows.new ≤ length rows.old + 40 }
{
    match first {
        First::Date(day) => rows.push_fields_within(&[(
            "date",
            Padding::Hidden,
            Shape::Date,
            &day.to_yymmdd(),
        )]),
        First::Train(uid) => rows.push_fields_within(&[(
            "uid",
            Padding::Hidden,
            Shape::Whole,
            &uid.write(),
        )]),
    }
}

/// The row of an association that holds.
#[derive(Drop)]
struct AssociationRow<'a> {
    first: First,
    key: &'a AssocKey,
    body: &'a AssocBody,
}

impl<'a> RowSource for AssociationRow<'a> {
    ghost use Rattle.std.specs.Prelude.{◌∷◌};
    ghost use Rattle.cif_canon.specs.Rows.{association_row};
    ghost use Rattle.cif_views.specs.Steps.Rows.{first_field};

    ghost fields = { λ r. first_field r.first ∷ association_row (r.key.now, r.body.now) };

    fn push_row<F: RowFormat>(&self, rows: &mut Rows<F>) {
        push_first(rows, self.first);
        push_association_row(rows, self.key, self.body);
    }
}

/// The row of a train that runs.
#[derive(Drop)]
struct TrainRow<'a> {
    first: First,
    uid: &'a Uid,
    body: &'a Body,
}

impl<'a> RowSource for TrainRow<'a> {
    ghost use Rattle.std.specs.Prelude.{◌∷◌};
    ghost use Rattle.cif_canon.specs.Rows.{train_row};
    ghost use Rattle.cif_views.specs.Steps.Rows.{first_field};

    ghost fields = { λ r. first_field r.first ∷ train_row (r.uid.now, r.body.now) };

    fn push_row<F: RowFormat>(&self, rows: &mut Rows<F>) {
        push_first(rows, self.first);
        push_train_row(rows, self.uid, self.body);
    }
}

/// The row of a schedule with the dates and the mask of the run.
#[derive(Drop)]
struct ScheduleRow<'a> {
    first: First,
    run: &'a Run,
    body: &'a Body,
}

impl<'a> RowSource for ScheduleRow<'a> {
    ghost use Rattle.std.specs.Prelude.{◌∷◌};
    ghost use Rattle.cif_canon.specs.Rows.{schedule_row};
    ghost use Rattle.cif_views.specs.Steps.Rows.{first_field};
    ghost use Rattle.cif_weeks.specs.Runs.{record_of};

    ghost fields = { λ r. first_field r.first ∷ schedule_row (record_of r.run.now r.body.now) };

    fn push_row<F: RowFormat>(&self, rows: &mut Rows<F>) {
        push_first(rows, self.first);
        push_schedule_row(rows, self.run, self.body);
    }
}

/// A listing in the format `F`, and what the rows of its tables begin with.
#[derive(Drop)]
struct ListedRows<F> {
    calls: bool,
    first: First,
    format: PhantomData<F>,
}

impl<F: RowFormat> DayLines for ListedRows<F> {
    ghost use Rattle.cif_views.specs.Listing.{association_text, day_heading, train_text};
    ghost use Rattle.cif_views.specs.Steps.Rows.{first_field, listing_in};

    ghost heading = { λ rows. day_heading (listing_in F.FORMAT rows.calls) };

    ghost association = { λ rows. association_text (listing_in F.FORMAT rows.calls) (first_field rows.first) };

    ghost train = { λ rows. train_text (listing_in F.FORMAT rows.calls) (first_field rows.first) };

    fn write_heading<W: WriteDevice>(&self, sink: &mut Sink<W>) {
        write_day_names::<F, W>(self.calls, sink);
    }

    fn write_association<W: WriteDevice>(
        &self,
        key: &AssocKey,
        body: &AssocBody,
        sink: &mut Sink<W>,
    ) {
        let row = AssociationRow {
            first: self.first,
            key,
            body,
        };
        if self.calls {
            write_without_calls::<F, AssociationRow<'_>, W>(&row, sink);
        } else {
            write_row::<F, AssociationRow<'_>, W>(&row, sink);
        }
    }

    fn write_train<W: WriteDevice>(&self, uid: &Uid, body: &Body, sink: &mut Sink<W>) {
        let row = TrainRow {
            first: self.first,
            uid,
            body,
        };
        if self.calls {
            write_with_calls::<F, TrainRow<'_>, W>(&row, body, sink);
        } else {
            write_row::<F, TrainRow<'_>, W>(&row, sink);
        }
    }
}

impl<F: RowFormat> TrainLines for ListedRows<F> {
    ghost use Rattle.cif_views.specs.Listing.{schedule_text, train_heading};
    ghost use Rattle.cif_views.specs.Steps.Rows.{first_field, listing_in};

    ghost heading = { λ rows. train_heading (listing_in F.FORMAT rows.calls) };

    ghost schedule = { λ rows. schedule_text (listing_in F.FORMAT rows.calls) (first_field rows.first) };

    fn write_heading<W: WriteDevice>(&self, sink: &mut Sink<W>) {
        write_train_names::<F, W>(self.calls, sink);
    }

    fn write_schedule<W: WriteDevice>(&self, run: &Run, body: &Body, sink: &mut Sink<W>) {
        let row = ScheduleRow {
            first: self.first,
            run,
            body,
        };
        if self.calls {
            write_with_calls::<F, ScheduleRow<'_>, W>(&row, body, sink);
        } else {
            write_row::<F, ScheduleRow<'_>, W>(&row, sink);
        }
    }
}

/// Appends the names of the fields of a day, if they stand before the rows.
fn write_day_names<F: RowFormat, W: WriteDevice>(calls: bool, sink: &mut Sink<W>)
    ensures { IsAppended W.contents W.write_errors (heading_text F.FORMAT (day_names (listing_in F.FORMAT calls))) sink.old sink.new }
{
    let mut rows = Rows::<F>::new();
    rows.push_names(sink, &["date", "kind", "uid"]);
    rows.push_names(sink, &JOURNEY_NAMES);
    rows.push_names(sink, &ASSOCIATION_NAMES);
    push_call_names(&mut rows, calls, sink);
    rows.end_names();
    rows.finish(sink);
}

/// Appends the names of the fields of a train, if they stand before the rows.
fn write_train_names<F: RowFormat, W: WriteDevice>(calls: bool, sink: &mut Sink<W>)
    ensures { IsAppended W.contents W.write_errors (heading_text F.FORMAT (train_names (listing_in F.FORMAT calls))) sink.old sink.new }
{
    let mut rows = Rows::<F>::new();
    rows.push_names(sink, &["uid", "first_date", "last_date", "days_run"]);
    rows.push_names(sink, &JOURNEY_NAMES);
    push_call_names(&mut rows, calls, sink);
    rows.end_names();
    rows.finish(sink);
}

/// Adds the names of the fields of a call, if calls are listed.
fn push_call_names<F: RowFormat, W: WriteDevice>(
    rows: &mut Rows<F>,
    calls: bool,
    sink: &mut Sink<W>,
)
    ensures { Adds W.contents W.write_errors (names_text F.FORMAT (call_names_if (listing_in F.FORMAT calls)))
        sink.old sink.new rows.old rows.new }
{
    if calls {
        rows.push_names(sink, &CALL_NAMES);
    }
}
