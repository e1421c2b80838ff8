//! Captures: what came on the circuits and when something was taken, read step by step.
//!
//! A capture through a switch, step by step. The loop is written once, over what is asked of a switch.
#![tactic(auto)]

mod capture_fault;
mod decoders;
mod draining;
mod end;
mod fault;
mod feeding;
mod head;
mod head_cursor;
mod progress;
mod reading;
mod replaying;
mod room;
mod steps;

pub use capture_fault::CaptureFault;
pub use decoders::{new_decoders, reopen_all};
pub use end::ReplayEnd;
pub use head::Head;
pub use progress::{
    a_capture_is_read_step_by_step, the_steps_that_were_read_are_the_captures,
    what_was_read_is_the_captures_beginning, what_was_taken_is_read,
};
pub use replaying::replay;
pub use steps::Steps;
