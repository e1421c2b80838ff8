//! One lock over one history: all threads of a switch work on one value, each in its turn, and what each of them did
//! stands in the history that the value stands for. The history is seen by contracts alone and takes no memory.
//!
//! Waking. Threads that have nothing to do sleep at a bell until another one rings it. No contract claims anything of it:
//! what a thread does is right whether it is woken or not.
#![tactic(auto)]

mod bell;
mod bells;
mod counting;
mod crossing;
mod hall;
mod history;
mod laws;
mod limits;
mod pass;
mod queue;
mod rule;
mod steps;
mod turn;
mod view;

pub use bell::{Bell, Look};
pub use bells::Bells;
pub use crossing::halls_passes_and_turns_cross_threads;
pub use gts_alphabet::NoMemory;
pub use hall::Hall;
pub use history::{EntryFact, HasHistory};
pub use laws::no_two_passes_are_confused;
pub use limits::{MOST_TURNS, limits_are_these_numbers};
pub use pass::Pass;
pub use turn::Turn;

#[cfg(test)]
mod tests;
