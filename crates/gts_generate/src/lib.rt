//! A day of a centre, made as it is read: its capture, its directory, and the summary of what came of it.
#![tactic(auto)]

mod day;
mod directory;
mod generated;
mod laws;
mod message;
mod said;
mod summing;
mod worked;

pub use day::{DayFault, day_summary};
pub use directory::generated_directory;
pub use generated::Generated;
pub use laws::{the_capture_is_read_as_its_steps, the_summary_counts_what_happened};
pub use summing::summary;
pub use worked::{
    all_circuits_are_drained_at_the_end, limits_are_these_numbers, messages_are_spelled,
    the_directory_names_two_circuits, the_fiftieth_message_repeats_the_one_before_it,
    the_hundredth_message_is_a_request, what_was_said_is_counted,
};

/// The most messages of a day (profile).
pub const MOST_MESSAGES: u32 = 100_000;

/// The circuits of the day (profile).
pub const CIRCUITS: u32 = 8;
