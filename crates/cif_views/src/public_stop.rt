//! A public call, as boards show it.
use crate::moment::ClockTime;

/// A public call of a train, as a board shows it.
#[derive(Clone, Copy)]
pub(crate) struct PublicStop {
    /// Its number among the train's calls.
    pub(crate) call: usize,
    pub(crate) location: [u8; 7],
    pub(crate) platform: [u8; 3],
    /// When the train arrives and leaves, by the clock.
    pub(crate) arrival: ClockTime,
    pub(crate) departure: ClockTime,
    /// Whether riders may get off, and on.
    pub(crate) gets_off: bool,
    pub(crate) gets_on: bool,
}
