//! What runs on a day, and when a train runs.
ghost use Rattle.std.specs.Prelude.{ℕ, List, IfErr};
ghost use Rattle.cif_extract.specs.ExtractParts.{extract_parts};
ghost use Rattle.cif_weeks.specs.Runs.{record_of};
ghost use Rattle.cif_canon.specs.{Appended.IsAppended, Normalised.FaultWrites, Normalised.IfWritten};
ghost use Rattle.cif_canon.specs.Views.{IsDayFault, IsDayListed, IsDayView, IsTrainFault, IsTrainListed, IsTrainView};

use crate::asked::check_within;
use crate::canonical_form::{CanonRecord, applies_on, write_runs};
use crate::extract_runs::extract_runs;
use crate::rows::{push_association_row, push_schedule_row, push_train_row};
use crate::writing::{Texts, answer};
use cif_columns::{Day, Sink, Uid, WriteDevice};
use cif_extract::{Body, Extract, Fault};
use cif_records::{AssocBody, AssocKey};
use cif_rows::{Padded, Rows};
use cif_weeks::{Form, Run};
use std::alloc::Global;

/// What is listed of a day: a heading, and a text for each association that holds and for each train that runs.
pub trait DayLines {
    ghost use Rattle.std.specs.Prelude.{ℕ, List};
    ghost use Rattle.cif_extract.specs.Body.{BodyLines};
    ghost use Rattle.cif_records.specs.declared.{association.AssocBody.AssocBody, association.AssocKey.AssocKey};

    // What comes first.
    ghost heading: { Self → List ℕ };

    // The text of an association that holds.
    ghost association: { Self → AssocKey × AssocBody → List ℕ };

    // The text of a train that runs.
    ghost train: { Self → List ℕ × BodyLines → List ℕ };

    /// Appends what comes first.
    fn write_heading<W: WriteDevice>(&self, sink: &mut Sink<W>)
        ensures { IsAppended W.contents W.write_errors (heading self.now) sink.old sink.new };

    /// Appends the text of an association that holds.
    fn write_association<W: WriteDevice>(
        &self,
        key: &AssocKey,
        body: &AssocBody,
        sink: &mut Sink<W>,
    )
        ensures { IsAppended W.contents W.write_errors
            (association self.now (key.now, body.now)) sink.old sink.new };

    /// Appends the text of a train that runs.
    fn write_train<W: WriteDevice>(&self, uid: &Uid, body: &Body, sink: &mut Sink<W>)
        ensures { IsAppended W.contents W.write_errors
            (train self.now (uid.now, body.now)) sink.old sink.new };
}

/// What is listed of a train: a heading, and a text for each of its canonical schedules.
pub trait TrainLines {
    ghost use Rattle.std.specs.Prelude.{ℕ, List};
    ghost use Rattle.cif_extract.specs.Body.{BodyLines};
    ghost use Rattle.cif_weeks.specs.Permanent.{Permanent};

    // What comes first.
    ghost heading: { Self → List ℕ };

    // The text of a canonical schedule.
    ghost schedule: { Self → Permanent BodyLines → List ℕ };

    /// Appends what comes first.
    fn write_heading<W: WriteDevice>(&self, sink: &mut Sink<W>)
        ensures { IsAppended W.contents W.write_errors (heading self.now) sink.old sink.new };

    /// Appends the text of the schedule with the dates and the mask of the run, and with this body.
    fn write_schedule<W: WriteDevice>(&self, run: &Run, body: &Body, sink: &mut Sink<W>)
        ensures { IsAppended W.contents W.write_errors
            (schedule self.now (record_of run.now body.now)) sink.old sink.new };
}

/// Lines of text, one for each of them, without a heading.
#[derive(Clone, Copy)]
struct TextLines;

impl DayLines for TextLines {
    ghost use Rattle.std.specs.Prelude.{[]};
    ghost use Rattle.cif_canon.specs.Views.{association_line, train_line};

    ghost heading = { λ lines. [] };

    ghost association = { λ lines. association_line };

    ghost train = { λ lines. train_line };

    fn write_heading<W: WriteDevice>(&self, _sink: &mut Sink<W>) {}

    fn write_association<W: WriteDevice>(
        &self,
        key: &AssocKey,
        body: &AssocBody,
        sink: &mut Sink<W>,
    ) {
        let mut rows = Rows::<Padded>::new();
        rows.begin_row(sink);
        rows.make_room(sink);
        push_association_row(&mut rows, key, body);
        rows.end_row(sink);
        rows.finish(sink);
    }

    fn write_train<W: WriteDevice>(&self, uid: &Uid, body: &Body, sink: &mut Sink<W>) {
        let mut rows = Rows::<Padded>::new();
        rows.begin_row(sink);
        rows.make_room(sink);
        push_train_row(&mut rows, uid, body);
        rows.end_row(sink);
        rows.finish(sink);
    }
}

impl TrainLines for TextLines {
    ghost use Rattle.std.specs.Prelude.{[]};
    ghost use Rattle.cif_canon.specs.Views.{schedule_line};

    ghost heading = { λ lines. [] };

    ghost schedule = { λ lines. schedule_line };

    fn write_heading<W: WriteDevice>(&self, _sink: &mut Sink<W>) {}

    fn write_schedule<W: WriteDevice>(&self, run: &Run, body: &Body, sink: &mut Sink<W>) {
        let mut rows = Rows::<Padded>::new();
        rows.begin_row(sink);
        rows.make_room(sink);
        push_schedule_row(&mut rows, run, body);
        rows.end_row(sink);
        rows.finish(sink);
    }
}

/// Appends what runs on the day: a line for each association that holds, rising by key, and then one
/// for each train that runs, rising by UID.
///
/// OutsideWindow comes where the day isn't in the extract's window, and then Ambiguous with the first
/// clash of the whole window, Memory, and Write. All memory is allocated before anything is written.
pub fn day_view<W: WriteDevice>(
    alloc: Global,
    extract: &Extract,
    day: Day,
    sink: &mut Sink<W>,
) -> Result<(), Fault>
    ensures view { (text : List ℕ)
        × FaultWrites W.contents W.write_errors text sink.old sink.new result
        × IfWritten result (IsDayView (extract_parts extract.now) day text) }
    ensures fault { IfErr result (IsDayFault (extract_parts extract.now) day) }
{
    write_day(alloc, extract, day, sink, &TextLines)
}

/// Appends what `lines` list of what runs on the day: their heading, and then of each association that holds,
/// rising by key, and then of each train that runs, rising by UID. The faults are those of
/// `day_view`.
pub fn write_day<L: DayLines, W: WriteDevice>(
    alloc: Global,
    extract: &Extract,
    day: Day,
    sink: &mut Sink<W>,
    lines: &L,
) -> Result<(), Fault>
    ensures view { (text : List ℕ)
        × FaultWrites W.contents W.write_errors text sink.old sink.new result
        × IfWritten result (IsDayListed (record {
          heading = L.heading lines.now;
          association = L.association lines.now;
          train = L.train lines.now;
        }) (extract_parts extract.now) day text) }
    ensures fault { IfErr result (IsDayFault (extract_parts extract.now) day) }
{
    check_within(&extract.header, day)?;
    let runs = extract_runs(alloc, extract, Form::Two)?;
    lines.write_heading(sink);
    let on_day = OnDay { day, lines };
    write_runs(
        &on_day,
        extract.associations.as_slice(),
        runs.associations.as_slice(),
        sink,
    );
    write_runs(
        &on_day,
        extract.schedules.as_slice(),
        runs.schedules.as_slice(),
        sink,
    );
    answer(sink)
}

/// What is listed of the records that apply on a day.
#[derive(Drop)]
struct OnDay<'a, L> {
    day: Day,
    lines: &'a L,
}

impl<'a, 'b, L: DayLines> Texts<CanonRecord<'b, AssocKey, AssocBody>> for OnDay<'a, L> {
    ghost use Rattle.cif_canon.specs.Steps.Views.{listed_on};

    ghost text = { λ on. listed_on (L.association on.lines.now) on.day };

    fn write<W: WriteDevice>(
        &self,
        item: &CanonRecord<'b, AssocKey, AssocBody>,
        sink: &mut Sink<W>,
    ) {
        if applies_on(item.run, self.day) {
            self.lines.write_association(item.key, item.body, sink);
        }
    }
}

impl<'a, 'b, L: DayLines> Texts<CanonRecord<'b, Uid, Body>> for OnDay<'a, L> {
    ghost use Rattle.cif_canon.specs.Steps.Views.{listed_on};

    ghost text = { λ on. listed_on (L.train on.lines.now) on.day };

    fn write<W: WriteDevice>(&self, item: &CanonRecord<'b, Uid, Body>, sink: &mut Sink<W>) {
        if applies_on(item.run, self.day) {
            self.lines.write_train(item.key, item.body, sink);
        }
    }
}

/// Appends when the train runs: a line for each of its canonical records in this form, rising by
/// first date. A train that runs on no date has none.
///
/// Ambiguous comes with the first clash of the extract, whatever the train, and then Memory, and
/// Write. All memory is allocated before anything is written.
pub fn train_view<W: WriteDevice>(
    alloc: Global,
    extract: &Extract,
    uid: &Uid,
    sink: &mut Sink<W>,
    form: Form,
) -> Result<(), Fault>
    ensures view { (text : List ℕ)
        × FaultWrites W.contents W.write_errors text sink.old sink.new result
        × IfWritten result (IsTrainView form (extract_parts extract.now) uid.now text) }
    ensures fault { IfErr result (IsTrainFault (extract_parts extract.now)) }
{
    write_train(alloc, extract, uid, sink, form, &TextLines)
}

/// Appends what `lines` list of a train: their heading, and then of each of its canonical records in this form,
/// rising by first date. The faults are those of `train_view`.
pub fn write_train<L: TrainLines, W: WriteDevice>(
    alloc: Global,
    extract: &Extract,
    uid: &Uid,
    sink: &mut Sink<W>,
    form: Form,
    lines: &L,
) -> Result<(), Fault>
    ensures view { (text : List ℕ)
        × FaultWrites W.contents W.write_errors text sink.old sink.new result
        × IfWritten result (IsTrainListed (record {
          heading = L.heading lines.now;
          schedule = L.schedule lines.now;
        }) form (extract_parts extract.now) uid.now text) }
    ensures fault { IfErr result (IsTrainFault (extract_parts extract.now)) }
{
    let runs = extract_runs(alloc, extract, form)?;
    lines.write_heading(sink);
    let of_train = OfTrain { uid: *uid, lines };
    write_runs(
        &of_train,
        extract.schedules.as_slice(),
        runs.schedules.as_slice(),
        sink,
    );
    answer(sink)
}

/// What is listed of one train's records.
#[derive(Drop)]
struct OfTrain<'a, L> {
    uid: Uid,
    lines: &'a L,
}

impl<'a, 'b, L: TrainLines> Texts<CanonRecord<'b, Uid, Body>> for OfTrain<'a, L> {
    ghost use Rattle.cif_canon.specs.Steps.Views.{listed_of};

    ghost text = { λ of. listed_of (L.schedule of.lines.now) of.uid };

    fn write<W: WriteDevice>(&self, item: &CanonRecord<'b, Uid, Body>, sink: &mut Sink<W>) {
        if *item.key == self.uid {
            self.lines.write_schedule(item.run, item.body, sink);
        }
    }
}
