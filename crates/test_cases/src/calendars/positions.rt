//! Positions of records.
ghost use Rattle.std.specs.Prelude.{◌<◌, ◌↔◌, All, IfOk, IsTrue};

use cif_calendar::{Entry, same_body};
use std::alloc::{AllocError, Global};
use std::fmt;

/// The position of a record, or that there is none.
#[derive(Clone, Copy, PartialEq, Eq)]
pub(crate) struct Place(pub(crate) Option<usize>);

impl fmt::Display for Place {
    fn fmt<W: fmt::Write>(&self, f: &mut fmt::Formatter<W>) -> fmt::Result {
        match self.0 {
            Some(position) => write!(f, "{position}"),
            None => write!(f, "-"),
        }
    }
}

/// The first of the records with the body of the one at this position.
pub(crate) fn first_alike<E: Entry>(entries: &[E], position: Option<usize>) -> Place {
    let Some(position) = position else {
        return Place(None);
    };
    let Some(entry) = entries.get(position) else {
        return Place(None);
    };
    for (at, other) in entries.iter().enumerate() {
        if same_body(other, entry) {
            return Place(Some(at));
        }
    }
    Place(None)
}

/// The positions of all of so many records.
pub(crate) fn all_positions(alloc: Global, count: usize) -> Result<Vec<usize>, AllocError>
    ensures { IfOk result (λ positions. All (λ i. i < count) positions.items) }
{
    (0..count).collect(alloc)
}

/// The positions that the words between commas name, of which there may be none.
pub(crate) fn positions_of(alloc: Global, words: &str) -> Result<Vec<usize>, AllocError> {
    let mut positions = Vec::new(alloc);
    for word in words.split(',') {
        if !word.is_empty() {
            positions.push(word.parse::<usize>().unwrap_or(usize::MAX))?;
        }
    }
    Ok(positions)
}

/// Whether each position lies below the count.
pub(crate) fn are_below(positions: &[usize], count: usize) -> bool
    ensures { IsTrue result ↔ All (λ i. i < count) positions.now }
{
    positions.iter().all(|i| *i < count)
}
