use crate::Bell;
use std::array;

// At so many bells those sleep who wait for their turns.
const PLACES: usize = 128;

/// Where those sleep who wait for their turns: each at the bell of its ticket, so that who ends a turn wakes the next one alone.
/// Tickets share a bell where a multiple of the count of bells lies between them.
#[derive(Drop)]
pub(crate) struct Queue {
    places: [Bell; PLACES],
}

impl Queue {
    /// Nobody sleeps yet.
    pub(crate) fn new() -> Queue {
        Queue {
            places: array::from_fn(|_| Bell::new()),
        }
    }

    /// The bell at which the turn of this ticket is awaited. Look at it before looking whether the turn has come.
    pub(crate) fn bell(&self, ticket: u64) -> &Bell {
        let place = ticket % PLACES as u64;
        &self.places[place as usize]
    }

    /// The turn of this ticket has ended: who has the next one is woken.
    pub(crate) fn call_behind(&self, ticket: u64) {
        let next = ticket % PLACES as u64 + 1;
        self.bell(next).ring();
    }
}
