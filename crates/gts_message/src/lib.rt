//! A message of the Global Telecommunication System taken apart: starting line, sequence number, abbreviated heading,
//! text and end.
#![tactic(auto)]

mod laws;
mod message;
mod reading;
mod worked;

pub use gts_heading::MessageField;
pub use laws::{
    a_body_has_the_heading_of_its_message, body_limit, messages_have_no_fault,
    spelled_message_is_split, split_message_is_spelled,
};
pub use message::{Body, Message, SplitMessage};
pub use worked::{worked_messages, worked_refusals};
