//! The rows of what runs: the fields of associations, trains and canonical schedules.
ghost use Rattle.std.specs.Prelude.{◌≡◌, ◌≤◌, ◌+◌, ◌++◌, length};
ghost use Rattle.cif_rows.specs.Steps.{fields_text};
ghost use Rattle.cif_weeks.specs.Runs.{record_of};
ghost use Rattle.cif_canon.specs.Rows.{association_fields, association_row, journey_fields, schedule_row, train_fields, train_row};

use cif_columns::Uid;
use cif_extract::Body;
use cif_records::{AssocBody, AssocKey};
use cif_rows::{Padding, RowFormat, Rows, Shape};
use cif_weeks::Run;

/// The names of the fields of a journey.
pub const JOURNEY_NAMES: [&str; 9] = [
    "identity",
    "origin",
    "origin_suffix",
    "departure",
    "origin_platform",
    "terminus",
    "terminus_suffix",
    "arrival",
    "terminus_platform",
];

/// The names of the fields of a train: its UID, and those of its journey.
pub const TRAIN_NAMES: [&str; 10] = [
    "uid",
    "identity",
    "origin",
    "origin_suffix",
    "departure",
    "origin_platform",
    "terminus",
    "terminus_suffix",
    "arrival",
    "terminus_platform",
];

/// The names of the fields of an association.
pub const ASSOCIATION_NAMES: [&str; 9] = [
    "base_uid",
    "associated_uid",
    "association_category",
    "date_indicator",
    "association_location",
    "base_suffix",
    "associated_suffix",
    "diagram_type",
    "association_type",
];

/// Adds the row of an association that holds, for which there is room.
pub fn push_association_row<F: RowFormat>(rows: &mut Rows<F>, key: &AssocKey, body: &AssocBody)
    requires room { length rows.old + 460 ≤ 1280 }
    ensures text { rows.new ≡ rows.old ++ fields_text F.FORMAT (association_row (key.now, body.now)) }
    ensures len { length rows.new ≤ length rows.old + 460 }
{
    rows.push_within("kind", Padding::Apart, Shape::Trimmed, b"AA");
    rows.push_absent_within(&TRAIN_NAMES);
    push_association(rows, key, body);
}

/// Adds the row of a train that runs, for which there is room.
pub fn push_train_row<F: RowFormat>(rows: &mut Rows<F>, uid: &Uid, body: &Body)
    requires room { length rows.old + 490 ≤ 1280 }
    ensures text { rows.new ≡ rows.old ++ fields_text F.FORMAT (train_row (uid.now, body.now)) }
    ensures len { length rows.new ≤ length rows.old + 490 }
{
    rows.push_within("kind", Padding::Apart, Shape::Trimmed, b"BS");
    push_train(rows, uid, body);
    rows.push_absent_within(&ASSOCIATION_NAMES);
}

/// Adds the row of a schedule with the dates and the mask of the run, for which there is room.
pub fn push_schedule_row<F: RowFormat>(rows: &mut Rows<F>, run: &Run, body: &Body)
    requires room { length rows.old + 350 ≤ 1280 }
    ensures text { rows.new ≡ rows.old ++ fields_text F.FORMAT (schedule_row (record_of run.now body.now)) }
    ensures len { length rows.new ≤ length rows.old + 350 }
{
    rows.push_fields_within(&[
        (
            "first_date",
            Padding::Apart,
            Shape::Date,
            &run.first.to_yymmdd(),
        ),
        (
            "last_date",
            Padding::Apart,
            Shape::Date,
            &run.last.to_yymmdd(),
        ),
        (
            "days_run",
            Padding::Apart,
            Shape::Trimmed,
            &run.days.write(),
        ),
    ]);
    push_journey(rows, body);
}

/// Adds the fields of an association that holds, for which there is room.
pub fn push_association<F: RowFormat>(rows: &mut Rows<F>, key: &AssocKey, body: &AssocBody)
    requires room { length rows.old + 260 ≤ 1280 }
    ensures text { rows.new ≡ rows.old ++ fields_text F.FORMAT (association_fields (key.now, body.now)) }
    ensures len { length rows.new ≤ length rows.old + 260 }
{
    rows.push_fields_within(&[
        ("base_uid", Padding::Apart, Shape::Whole, &key.base.write()),
        (
            "associated_uid",
            Padding::Apart,
            Shape::Whole,
            &key.associated.write(),
        ),
        (
            "association_category",
            Padding::Apart,
            Shape::Trimmed,
            &body.category.write(),
        ),
        (
            "date_indicator",
            Padding::Apart,
            Shape::Trimmed,
            &body.date_indicator.write(),
        ),
        (
            "association_location",
            Padding::Apart,
            Shape::Trimmed,
            &key.location.write(),
        ),
        (
            "base_suffix",
            Padding::Apart,
            Shape::Trimmed,
            &key.base_suffix.write(),
        ),
        (
            "associated_suffix",
            Padding::Apart,
            Shape::Trimmed,
            &key.associated_suffix.write(),
        ),
        (
            "diagram_type",
            Padding::Apart,
            Shape::Trimmed,
            &body.diagram.write(),
        ),
        (
            "association_type",
            Padding::Apart,
            Shape::Trimmed,
            &body.kind.write(),
        ),
    ]);
}

/// Adds the fields of a train that runs, for which there is room.
pub fn push_train<F: RowFormat>(rows: &mut Rows<F>, uid: &Uid, body: &Body)
    requires room { length rows.old + 270 ≤ 1280 }
    ensures text { rows.new ≡ rows.old ++ fields_text F.FORMAT (train_fields (uid.now, body.now)) }
    ensures len { length rows.new ≤ length rows.old + 270 }
{
    rows.push_within("uid", Padding::Apart, Shape::Whole, &uid.write());
    push_journey(rows, body);
}

/// Adds the fields of the body's journey, for which there is room.
fn push_journey<F: RowFormat>(rows: &mut Rows<F>, body: &Body)
    requires room { length rows.old + 245 ≤ 1280 }
    ensures text { rows.new ≡ rows.old ++ fields_text F.FORMAT (journey_fields body.now) }
    ensures len { length rows.new ≤ length rows.old + 245 }
{
    let (origin, terminus) = (body.origin(), body.terminus());
    rows.push_fields_within(&[
        (
            "identity",
            Padding::Apart,
            Shape::Trimmed,
            &body.detail().identity.write(),
        ),
        (
            "origin",
            Padding::Joined,
            Shape::Trimmed,
            &origin.location.write(),
        ),
        (
            "origin_suffix",
            Padding::Apart,
            Shape::Trimmed,
            &origin.suffix.write(),
        ),
        (
            "departure",
            Padding::Apart,
            Shape::Trimmed,
            &origin.departure.write(),
        ),
        (
            "origin_platform",
            Padding::Apart,
            Shape::Trimmed,
            &origin.platform.write(),
        ),
        (
            "terminus",
            Padding::Joined,
            Shape::Trimmed,
            &terminus.location.write(),
        ),
        (
            "terminus_suffix",
            Padding::Apart,
            Shape::Trimmed,
            &terminus.suffix.write(),
        ),
        (
            "arrival",
            Padding::Apart,
            Shape::Trimmed,
            &terminus.arrival.write(),
        ),
        (
            "terminus_platform",
            Padding::Apart,
            Shape::Trimmed,
            &terminus.platform.write(),
        ),
    ]);
}
