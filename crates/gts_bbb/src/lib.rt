//! The BBB groups of a heading by kind: delayed bulletins, corrections, amendments and segments.
#![tactic(auto)]

mod bbb;
mod laws;
mod worked;

pub use bbb::Bbb;
pub use laws::kinds_are_the_groups;
pub use worked::worked_groups;
