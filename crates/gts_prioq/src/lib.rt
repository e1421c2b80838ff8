//! Positions that wait to be drawn on a circuit, by levels.
#![tactic(auto)]

mod laws;
mod levels;
mod queue;
mod worked;

pub use gts_alphabet::NoMemory;
pub use laws::{what_goes_next_is_first, what_waits_follows, what_waits_stays_in_order};
pub use levels::{LEVELS, limits_are_these_numbers};
pub use queue::PrioQueue;
pub use worked::{worked_order, worked_waiting};
