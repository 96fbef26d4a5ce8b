//! A window of dates, when a record applies, and which of those that apply win.
ghost use Rattle.std.specs.Prelude.{◌≡◌, ◌≤◌, ◌↔◌, IsTrue};
ghost use Rattle.cif_calendar.specs.{Applies.IsAmongDates, Wins.precedence};

use crate::entry::Entry;
use cif_columns::{Day, DaysRun};
use cif_records::Header;

/// The dates from a first to a last, both included; the first is never after the last.
#[derive(Clone, Copy, Debug)]
pub struct Window {
    /// The first date.
    pub first: Day,
    /// The last date.
    pub last: Day,
    ghost in_order: { first ≤ last },
}

impl Window {
    /// The window of an extract with this header.
    pub fn of(header: &Header) -> Window
        ensures first { result.first ≡ header.now.first }
        ensures last { result.last ≡ header.now.last }
    {
        Window {
            first: header.first,
            last: header.last,
        }
    }
}

/// The dates from a first to a last, both included, on some weekdays.
#[derive(Clone, Copy)]
pub struct Dates {
    /// The first date.
    pub first: Day,
    /// The last date.
    pub last: Day,
    /// The weekdays between them.
    pub days: DaysRun,
}

impl Dates {
    /// The dates on which the entry applies.
    #[inline]
    pub fn of<E: Entry>(entry: &E) -> Dates
        ensures first { result.first ≡ (E.terms entry.now).first }
        ensures last { result.last ≡ (E.terms entry.now).last }
        ensures days { result.days ≡ (E.terms entry.now).days }
    {
        Dates {
            first: entry.first(),
            last: entry.last(),
            days: entry.days(),
        }
    }

    /// Whether the day is one of them.
    pub fn has(self, day: Day) -> bool
        ensures { IsTrue result ↔ IsAmongDates self.first self.last self.days day }
    {
        self.first <= day && day <= self.last && self.days.has(day.weekday())
    }
}

/// The precedence of the entry: of those of one key that apply on a date, the ones with the least
/// win.
#[inline]
pub fn precedence<E: Entry>(entry: &E) -> u8
    ensures { result ≡ precedence (E.terms entry.now) }
{
    entry.letter().write()
}
