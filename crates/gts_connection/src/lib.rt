//! What comes over connections as events, and captures: what came on the circuits and when something was taken, as a
//! text of steps.
#![tactic(auto)]

mod kind;
mod laws;
mod limits;
mod worked;

pub use kind::CaptureKind;
pub use laws::{
    a_capture_comes_on_circuits_of_the_directory, a_capture_has_one_reading,
    a_capture_is_read_up_to_the_longest, a_capture_that_ends_early_is_none,
    a_connection_has_one_reading, a_connection_has_the_events_of_its_steps,
    a_frame_at_the_front_is_heard, a_front_is_what_is_computed, a_whole_capture_is_read_to_its_end,
    compactions_go_on_with_the_entries, feeds_may_be_cut_anywhere, more_bytes_only_add_events,
    steps_go_on,
};
pub use limits::{LONGEST_CAPTURE, limits_are_these_numbers};
pub use worked::{
    a_capture_is_read_through_its_end, a_capture_may_end_in_a_feed, a_capture_may_end_in_a_head,
    a_capture_may_have_a_bad_byte, a_compaction_comes_behind_so_many_entries,
    a_drain_takes_once_more_than_there_is, a_frame_may_come_byte_by_byte,
    a_keep_alive_is_passed_over, a_new_connection_begins_after_a_loss,
    a_restart_begins_each_connection_anew, frames_before_a_loss_are_heard,
    the_first_byte_that_fits_no_frame_is_a_loss,
};
