//! What a board is asked for, and what its rows say.
ghost use Rattle.std.specs.Prelude.{◌≡◌, ◌++◌, OnOk, option_to_list};

use crate::moment::TimeOfDay;
use crate::places::Place;
use cif_columns::{Day, Uid};
use std::alloc::AllocError;

/// What a board lists.
#[derive(Clone, Copy, PartialEq, Eq)]
pub enum BoardKind {
    /// Calls at which riders may get on, by when the train leaves.
    Departures,
    /// Calls at which riders may get off, by when the train arrives.
    Arrivals,
}

/// What a board is asked for.
#[derive(Clone, Copy)]
pub struct Board {
    /// Whether trains leave or arrive.
    pub kind: BoardKind,
    /// Where.
    pub place: Place,
    /// Where they have to call later, so that riders may get off there; anywhere if it is absent.
    pub calling_at: Option<Place>,
    /// The date by the clock.
    pub day: Day,
}

/// What rows are ordered by, which tells them apart.
#[derive(Clone, Copy, PartialEq, Eq, PartialOrd, Ord)]
pub struct BoardKey {
    /// The time of day by the clock.
    pub(crate) time: TimeOfDay,
    pub(crate) uid: Uid,
    /// The date on which the train runs: the board's, or an earlier one.
    pub(crate) train_date: Day,
    /// The number of the call among the train's calls.
    pub(crate) call: usize,
}

/// What a board says of a train, as columns.
#[derive(Clone, Copy)]
pub struct BoardTrain {
    pub(crate) identity: [u8; 4],
    pub(crate) operator: [u8; 2],
    pub(crate) category: [u8; 2],
    pub(crate) status: [u8; 1],
    /// The TIPLOCs of its ends, as riders know them.
    pub(crate) origin: [u8; 7],
    pub(crate) destination: [u8; 7],
}

/// When the train calls at the place where it has to call, or nothing if it needn't.
#[derive(Clone, Copy)]
pub struct CallingAt {
    pub(crate) location: Option<[u8; 7]>,
    /// The date YYYY-MM-DD, up to the year 9999.
    pub(crate) date: Option<[u8; 10]>,
    /// The time of day by the clock.
    pub(crate) time: TimeOfDay,
}

/// A row of a board.
#[derive(Clone, Copy)]
pub struct BoardRow {
    pub(crate) key: BoardKey,
    pub(crate) location: [u8; 7],
    pub(crate) platform: [u8; 3],
    pub(crate) train: BoardTrain,
    pub(crate) calling_at: CallingAt,
}

/// Adds the row, if there is one.
pub(crate) fn add_row(rows: &mut Vec<BoardRow>, row: Option<BoardRow>) -> Result<(), AllocError>
    ensures { OnOk result (rows.new.items ≡ rows.old.items ++ option_to_list row) }
{
    if let Some(row) = row {
        rows.push(row)?;
    }
    Ok(())
}
