//! The objects of the outside on the operating system: a source over a file, and a station over the journal files,
//! standard output and the circuits' files. They tell no content, since no contract says what a real file holds; each
//! failure is counted, and says its cause: what was called, on which file, and the system's words.
#![tactic(auto)]

mod ahead;
mod cause;
mod disk;
mod lock;
mod outputs;
mod source;
mod station;
mod streams;

pub use cause::Cause;
pub use source::FileSource;
pub use station::FileStation;
pub use streams::hold_streams;
