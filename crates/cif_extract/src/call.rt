//! What a train does on its way, one call after another.
ghost use Rattle.std.specs.{Iterator.YieldsFirst, Iterator.item_count, Prelude.◌≡◌};
ghost use Rattle.cif_columns.specs.Field.{plain_line};
ghost use Rattle.cif_records.specs.Record.{SpellsRecord, record_table};

use cif_columns::{Line, LineSlice, columns_at};
use cif_records::{Change, Stop};
use std::fmt;
use std::marker::Model;

/// What a journey has between its first and its last location.
#[derive(Drop, PartialEq, Eq)]
pub enum Call {
    /// `LI`, a location where it stops or passes.
    At(Stop),
    /// `CR`, a change that concerns the location that comes next.
    Turn(Change),
}

impl Call {
    ghost use Rattle.cif_extract.specs.Call.{SpellsSomeCall, call_in, call_record};

    /// The call that the line spells.
    pub(crate) fn read(line: &Line) -> Call
        requires { SpellsSomeCall line.now }
        ensures { result ≡ call_in line.now }
    {
        if columns_at::<2>(line, 1) == *b"CR" {
            Call::Turn(Change::read(line).unwrap())
        } else {
            Call::At(Stop::read(line).unwrap())
        }
    }

    /// The plain line of its record.
    pub fn write(&self) -> Line
        ensures plain { result ≡ plain_line (record_table (call_record self.now)) }
        ensures again { SpellsRecord result (call_record self.now) }
    {
        match self {
            Call::At(stop) => stop.write(),
            Call::Turn(change) => change.write(),
        }
    }
}

/// The plain line of its record.
impl fmt::Debug for Call {
    fn fmt<W: fmt::Write>(&self, f: &mut fmt::Formatter<W>) -> fmt::Result {
        match self {
            Call::At(stop) => fmt::Debug::fmt(stop, f),
            Call::Turn(change) => fmt::Debug::fmt(change, f),
        }
    }
}

/// The calls of a journey that are still to come. A clause sees the list of them.
#[derive(Drop)]
pub struct Calls<'a> {
    // The last of them is that of the terminus.
    lines: LineSlice<'a>,
}

impl<'a> Model for Calls<'a> {
    ghost use Rattle.std.specs.Prelude.{All, List, map};
    ghost use Rattle.cif_extract.specs.{Call.SpellsSomeCall, Call.before_last, Call.call_in, declared.call.Call.Call};

    ghost Value = { List Call };

    ghost view = { λ c. map call_in (before_last c.lines) };

    ghost invariant = { λ c. All SpellsSomeCall (before_last c.lines) };
}

impl<'a> Calls<'a> {
    ghost use Rattle.std.specs.Prelude.{All, map};
    ghost use Rattle.cif_extract.specs.Call.{SpellsSomeCall, before_last, call_in};

    /// The calls that these lines but for the last spell.
    pub(crate) fn of_lines(lines: LineSlice<'a>) -> Calls<'a>
        requires { All SpellsSomeCall (before_last lines) }
        ensures { result ≡ map call_in (before_last lines.entry) }
    {
        Calls { lines }
    }
}

impl<'a> Iterator for Calls<'a> {
    type Item = Call;

    ghost next_gives = { YieldsFirst (λ s. s) };

    ghost remaining = { item_count (λ s. s) };

    fn next(&mut self) -> Option<Call> {
        if self.lines.is_empty() {
            return None;
        }
        let rest = self.lines.rest();
        if rest.is_empty() {
            return None;
        }
        let first = self.lines.first();
        self.lines = rest;
        Some(Call::read(&first))
    }
}
