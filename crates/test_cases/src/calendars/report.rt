//! What is said of a calendar.
use crate::calendars::positions::{Place, first_alike};
use crate::case::text_of;
use crate::output::Output;
use cif_calendar::{Calendar, Entry, Piece, Window};
use cif_columns::Day;
use cif_weeks::{Form, Run};

/// Appends the dates of the window.
pub(crate) fn push_window(out: &mut Output, window: Window) {
    push_dates(out, "window", window.first, window.last);
    writeln!(out)
}

/// Appends two dates behind a label.
fn push_dates(out: &mut Output, label: &str, first: Day, last: Day) {
    let first = first.to_yymmdd();
    let last = last.to_yymmdd();
    write!(out, "{label} {} to {}", text_of(&first), text_of(&last))
}

/// Neighbouring dates with one source.
#[derive(Clone, Copy)]
struct Stretch {
    first: Day,
    last: Day,
    place: Place,
}

/// Appends the sources of the dates, neighbouring dates with one source together.
pub(crate) fn push_sources<E: Entry>(out: &mut Output, entries: &[E], calendar: &Calendar) {
    let window = calendar.window();
    let mut stretch = Stretch {
        first: window.first,
        last: window.first,
        place: place_on(entries, calendar, window.first),
    };
    for number in window.first.number()..=window.last.number() {
        if let Some(day) = Day::from_number(number) {
            let place = place_on(entries, calendar, day);
            stretch = gone_on(out, stretch, day, place);
        }
    }
    push_stretch(out, stretch)
}

/// The source of the date, which is in the window.
fn place_on<E: Entry>(entries: &[E], calendar: &Calendar, day: Day) -> Place {
    let window = calendar.window();
    if window.first <= day && day <= window.last {
        first_alike(entries, calendar.source_on(day))
    } else {
        Place(None)
    }
}

/// The stretch with one date more; where its source is another, the stretch is appended and a new
/// one begins.
fn gone_on(out: &mut Output, stretch: Stretch, day: Day, place: Place) -> Stretch {
    if stretch.place == place {
        return Stretch {
            last: day,
            ..stretch
        };
    }
    push_stretch(out, stretch);
    Stretch {
        first: day,
        last: day,
        place,
    }
}

fn push_stretch(out: &mut Output, stretch: Stretch) {
    push_dates(out, "source", stretch.first, stretch.last);
    writeln!(out, ": {}", stretch.place)
}

/// Appends the pieces with the sources of their weekdays.
pub(crate) fn push_pieces<E: Entry>(out: &mut Output, entries: &[E], pieces: &[Piece]) {
    for piece in pieces {
        push_dates(out, "piece", piece.first, piece.last);
        write!(out, ":");
        for winner in &piece.winners {
            write!(out, " {}", first_alike(entries, *winner));
        }
        writeln!(out);
    }
}

/// Appends a run in this form.
pub(crate) fn push_run<E: Entry>(out: &mut Output, entries: &[E], form: Form, run: &Run) {
    let label = match form {
        Form::One => "form 1",
        Form::Two => "form 2",
        Form::Three => "form 3",
    };
    push_dates(out, label, run.first, run.last);
    let place = first_alike(entries, Some(run.source));
    writeln!(out, " {}: {place}", text_of(&run.days.write()))
}
