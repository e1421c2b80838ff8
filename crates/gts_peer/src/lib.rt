//! A neighbour of the switch, for runs on the machine itself.
#![tactic(auto)]

mod neighbour;

pub use neighbour::talk;
