//! The window in which a duplicate is looked for: the digests of the last bulletins, and their positions.
#![tactic(auto)]

mod key;
mod table;
mod worked;

pub use gts_alphabet::NoMemory;
pub use table::DupTable;
pub use worked::{worked_latest, worked_window};
