// The clocks that a value of version 2 names.
use svc_value::{Clock, ListOf};

/// A clock at a place.
#[derive(Clone, Copy, Debug, PartialEq, Eq)]
pub struct PlaceClock {
    /// The place of its key among the keys last announced, from 0.
    pub place: u8,
    /// The clock of that key.
    pub clock: Clock,
}

/// A list of places with their clocks.
pub type PlaceClocks = ListOf<PlaceClock>;
