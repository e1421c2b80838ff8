//! The workers of a run: for each circuit one that receives and one that sends, all at once, each with a pass of one hall.

pub mod closing;
pub mod crew;
pub mod gathering;
pub mod line;
pub mod ringing;
pub mod room;
pub mod running;
pub mod sockets;
pub mod staffing;
pub mod tools;
pub mod worker;
pub mod working;
