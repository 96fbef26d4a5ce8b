//! What runs on each date of a window: a calendar, its pieces, and why there is none.
ghost use Rattle.std.specs.Prelude.{◌≡◌, ◌≤◌, ◌+◌, Contains, Some};
ghost use Rattle.cif_calendar.specs.Pieces.{Tiles, source_at, winner_of};

use crate::applies::Window;
use cif_columns::{Day, as_text};
use std::alloc::AllocError;
use std::error::Error;
use std::fmt;
use std::marker::Model;

/// Dates on each of which the same records apply as on the others of its weekday.
#[derive(Clone, Copy, Debug)]
pub struct Piece {
    /// The first date.
    pub first: Day,
    /// The last date.
    pub last: Day,
    /// For each weekday, Monday first, the position in the entries of a winner; `None` where nothing
    /// runs, and where the piece has no date of that weekday.
    pub winners: [Option<usize>; 7],
}

/// The winner of each date of a window, by pieces of it.
#[derive(Debug, Drop)]
pub struct Calendar {
    window: Window,
    pieces: Vec<Piece>,
}

impl Model for Calendar {
    ghost use Rattle.cif_calendar.specs.{Calendar.CalendarParts, Pieces.Tiles};
    ghost use Rattle.std.specs.Prelude.{◌+◌};

    ghost Value = { CalendarParts };

    ghost view = { λ c. record {
      first = c.window.first;
      last = c.window.last;
      pieces = c.pieces.items;
    } };

    ghost invariant = { λ c. Tiles c.pieces.items c.window.first (c.window.last + 1) };
}

impl Calendar {
    /// The calendar of these pieces, which cover the window.
    pub fn new(window: Window, pieces: Vec<Piece>) -> Calendar
        requires { Tiles pieces.items window.first (window.last + 1) }
        ensures { result ≡ record {
          first = window.first;
          last = window.last;
          pieces = pieces.items;
        } }
    {
        Calendar { window, pieces }
    }

    /// The position in the entries of a winner of the date, which has to be in the window; `None`
    /// where nothing runs.
    pub fn source_on(&self, day: Day) -> Option<usize>
        requires from { self.now.first ≤ day }
        requires upto { day ≤ self.now.last }
        ensures source { result ≡ source_at self.now.pieces day }
        ensures piece { (p : _) → Contains self.now.pieces p → p.first ≤ day → day ≤ p.last →
            result ≡ winner_of p day }
    {
        self.piece_on(day).winners[day.weekday() as usize]
    }

    /// The piece that has the date, which has to be in the window.
    pub fn piece_on(&self, day: Day) -> &Piece
        requires from { self.now.first ≤ day }
        requires upto { day ≤ self.now.last }
        ensures listed { Contains self.now.pieces result.now }
        ensures from { result.now.first ≤ day }
        ensures upto { day ≤ result.now.last }
        // The calendar's pieces, as the type's invariant has them.
        ensures tiles { Tiles self.now.pieces self.now.first (self.now.last + 1) }
    {
        let pieces = self.pieces();
        let i = pieces.partition_point(|piece| piece.last < day);
        &pieces[i]
    }

    /// The dates that it covers.
    pub fn window(&self) -> Window
        ensures first { result.first ≡ self.now.first }
        ensures last { result.last ≡ self.now.last }
    {
        self.window
    }

    /// The pieces, from the first date of the window to its last.
    pub fn pieces(&self) -> &[Piece]
        ensures pieces { result.now ≡ self.now.pieces }
        ensures tiles { Tiles result.now self.now.first (self.now.last + 1) }
    {
        self.pieces.as_slice()
    }
}

/// Why there is no calendar.
#[derive(Clone, Copy, PartialEq, Eq)]
pub enum CalendarFault {
    /// Two winners of this date have different bodies; it is the first such date of the window.
    Ambiguous(Day),
    /// Memory ran out: a request for it was refused.
    Memory,
}

impl From<AllocError> for CalendarFault {
    ghost use Rattle.cif_calendar.specs.declared.key_calendar.CalendarFault.TheVariants.{Memory};

    ghost from_gives = { λ _ fault. fault ≡ Memory };

    fn from(_error: AllocError) -> CalendarFault {
        CalendarFault::Memory
    }
}

/// `Ambiguous on 260106`, or `Memory`.
impl fmt::Display for CalendarFault {
    ghost use Rattle.cif_calendar.specs.CalendarFault.{text_of};

    ghost output = { λ fault. Some (text_of fault) };

    fn fmt<W: fmt::Write>(&self, f: &mut fmt::Formatter<W>) -> fmt::Result {
        match self {
            CalendarFault::Ambiguous(day) => {
                write!(f, "Ambiguous on {}", as_text(&day.to_yymmdd()))
            }
            CalendarFault::Memory => f.write_str("Memory"),
        }
    }
}

impl fmt::Debug for CalendarFault {
    fn fmt<W: fmt::Write>(&self, f: &mut fmt::Formatter<W>) -> fmt::Result {
        fmt::Display::fmt(self, f)
    }
}

impl Error for CalendarFault {}
