//! What came and went: by the first two groups of the heading the number of the last bulletins, their bytes and their kept
//! draws, and by circuit how many of them came in and how many draws are kept.
#![tactic(auto)]

mod counted;
mod counting;
mod laws;
mod numbers;
mod parts;
mod recent;
mod rows;
mod start;
mod steps;
mod text;
mod worked;

pub use counted::Counted;
pub use counting::{Counting, key_in, note_heard, note_taken, ready};
pub use laws::an_accepted_message_joins_the_window;
pub use numbers::Numbers;
pub use parts::CountedParts;
pub use recent::{Arrival, Recent, arrived};
pub use rows::{Row, add_row, has_row, join, join_draw, leave, leave_draw};
pub use start::counting_of;
pub use text::table;
pub use worked::{
    a_bulletin_leaves_by_its_position, a_duplicate_is_not_counted, nothing_is_counted_of_nothing,
    the_window_bounds_what_is_counted,
};
