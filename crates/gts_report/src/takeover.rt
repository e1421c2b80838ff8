//! What would change where a journal is taken over under another directory, in lines for the operator.

pub mod lines;
pub mod report;
pub mod worked;
