//! The service around a run: it takes the memory for the lines of all circuits and their workers, opens the lines, serves them
//! all at once, sends what is left, and hands the lines back.

pub mod closing;
pub mod draining;
pub mod end;
pub mod ended;
pub mod ending;
pub mod opening;
pub mod parting;
pub mod room;
pub mod served;
pub mod serving;
pub mod threads;
