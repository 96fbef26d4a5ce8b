//! What runs on each date by all schedules of an extract, taken as those of one train.
ghost use Rattle.std.specs.Prelude.{IfOk, map};
ghost use Rattle.cif_weeks.specs.Runs.{AreSources};

use crate::calendars::dates::calendar_of;
use crate::calendars::positions::all_positions;
use cif_calendar::{Calendar, CalendarFault, Entry, Piece, Window};
use cif_columns::{Day, Sink, WriteFault};
use cif_extract::{Extract, Fault, Schedule};
use cif_weeks::{Form, Run, runs};
use itoa::Buffer;
use std::alloc::Global;
use std::io::Stdout;

/// Makes the calendar, and writes its pieces.
pub(crate) fn write_calendar(
    alloc: Global,
    extract: &Extract,
    sink: &mut Sink<Stdout>,
) -> Result<(), Fault> {
    match calendar_of_all(alloc, extract) {
        Ok(calendar) => {
            write_pieces(calendar.pieces(), sink)?;
            Ok(())
        }
        Err(fault) => write_fault(fault, sink),
    }
}

/// Makes the calendar and its runs in form 2, and writes these.
pub(crate) fn write_runs(
    alloc: Global,
    extract: &Extract,
    sink: &mut Sink<Stdout>,
) -> Result<(), Fault> {
    match calendar_of_all(alloc, extract) {
        Ok(calendar) => write_runs_of(alloc, extract, &calendar, sink),
        Err(fault) => write_fault(fault, sink),
    }
}

/// What runs on each date of the extract's window.
fn calendar_of_all(alloc: Global, extract: &Extract) -> Result<Calendar, CalendarFault>
    ensures { IfOk result
        (AreSources (map ⟦<Schedule as Entry>⟧.terms extract.now.schedules.items)) }
{
    let window = Window {
        first: extract.header.first,
        last: extract.header.last,
    };
    match all_positions(alloc, extract.schedules.len()) {
        Ok(members) => {
            calendar_of(
                alloc,
                extract.schedules.as_slice(),
                members.as_slice(),
                window,
            )
        }
        Err(_) => Err(CalendarFault::Memory),
    }
}

/// Writes on which date bodies differ. That memory ran out is a fault of the call.
fn write_fault(fault: CalendarFault, sink: &mut Sink<Stdout>) -> Result<(), Fault> {
    match fault {
        CalendarFault::Ambiguous(day) => {
            sink.write_all(b"Ambiguous on ")?;
            sink.write_all(&day.to_yymmdd())?;
            sink.write_all(b"\n")?;
            Ok(())
        }
        CalendarFault::Memory => Err(Fault::Memory),
    }
}

fn write_pieces(pieces: &[Piece], sink: &mut Sink<Stdout>) -> Result<(), WriteFault> {
    for piece in pieces {
        write_dates(piece.first, piece.last, sink)?;
        for winner in &piece.winners {
            write_winner(*winner, sink)?;
        }
        sink.write_all(b"\n")?;
    }
    Ok(())
}

fn write_winner(winner: Option<usize>, sink: &mut Sink<Stdout>) -> Result<(), WriteFault> {
    sink.write_all(b" ")?;
    match winner {
        Some(position) => sink.write_all(Buffer::new().format(position).as_bytes()),
        None => sink.write_all(b"-"),
    }
}

fn write_runs_of(
    alloc: Global,
    extract: &Extract,
    calendar: &Calendar,
    sink: &mut Sink<Stdout>,
) -> Result<(), Fault>
    requires { AreSources (map ⟦<Schedule as Entry>⟧.terms extract.now.schedules.items)
        calendar.now }
{
    match runs(alloc, extract.schedules.as_slice(), calendar, Form::Two) {
        Ok(runs) => {
            write_each_run(runs.as_slice(), sink)?;
            Ok(())
        }
        Err(_) => Err(Fault::Memory),
    }
}

fn write_each_run(runs: &[Run], sink: &mut Sink<Stdout>) -> Result<(), WriteFault> {
    for run in runs {
        write_dates(run.first, run.last, sink)?;
        sink.write_all(b" ")?;
        sink.write_all(&run.days.write())?;
        sink.write_all(b"\n")?;
    }
    Ok(())
}

fn write_dates(first: Day, last: Day, sink: &mut Sink<Stdout>) -> Result<(), WriteFault> {
    sink.write_all(&first.to_yymmdd())?;
    sink.write_all(b" ")?;
    sink.write_all(&last.to_yymmdd())
}
