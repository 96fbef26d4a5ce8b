//! The records of an extract, as they are.
ghost use Rattle.std.specs.Prelude.{◌≡◌, is_some};

use cif_columns::{Sink, WriteDevice, WriteFault};
use cif_extract::{Body, Extract, Schedule, write_head, write_tiploc, write_trailer};
use cif_records::{Basic, Detail};

/// Writes the plain line of each record, in file order.
pub(crate) fn write_records<W: WriteDevice>(
    extract: &Extract,
    sink: &mut Sink<W>,
) -> Result<(), WriteFault> {
    write_head(&extract.header, sink)?;
    for tiploc in &extract.tiplocs {
        write_tiploc(tiploc, sink)?;
    }
    for association in &extract.associations {
        sink.write_line(&association.write())?;
    }
    for schedule in &extract.schedules {
        write_schedule(schedule, sink)?;
    }
    write_trailer(sink)
}

fn write_schedule<W: WriteDevice>(
    schedule: &Schedule,
    sink: &mut Sink<W>,
) -> Result<(), WriteFault> {
    sink.write_line(&basic_of(schedule).write())?;
    match &schedule.body {
        Some(body) => write_body(body, sink),
        None => Ok(()),
    }
}

/// The first record of a schedule.
fn basic_of(schedule: &Schedule) -> Basic {
    Basic {
        uid: schedule.uid,
        first: schedule.first,
        last: schedule.last,
        days: schedule.days,
        letter: schedule.letter,
        detail: detail_of(schedule),
    }
}

/// Its detail.
fn detail_of(schedule: &Schedule) -> Option<Detail>
    ensures { is_some result ≡ is_some schedule.now.body }
{
    match &schedule.body {
        Some(body) => Some(body.detail()),
        None => None,
    }
}

/// Writes the lines of a body but its first record.
fn write_body<W: WriteDevice>(body: &Body, sink: &mut Sink<W>) -> Result<(), WriteFault> {
    if let Some(extra) = body.extra() {
        sink.write_line(&extra.write())?;
    }
    sink.write_line(&body.origin().write())?;
    for call in body.calls() {
        sink.write_line(&call.write())?;
    }
    sink.write_line(&body.terminus().write())
}
