//! Which segments of a bulletin have come in, and whether they are the whole set.
#![tactic(auto)]

mod groups;
mod laws;
mod table;
mod worked;

pub use groups::{GROUPS, is_segment};
pub use gts_alphabet::NoMemory;
pub use laws::{a_whole_set_is_whole_in_one_way, groups_stand_at_their_places};
pub use table::{SegmentStatus, SegmentTable};
pub use worked::{worked_notes, worked_places};
