//! Tests of the parts on which an engine stands, each by itself: the world outside, grammars, directories and their files,
//! receipts and records, and what the core keeps. What tests of several layers begin with is here too.
#![tactic(auto)]

mod fixtures;

pub use fixtures::{MARK, is_same, two_circuits};

#[cfg(test)]
mod alphabet;
#[cfg(test)]
mod bbb;
#[cfg(test)]
mod directory;
#[cfg(test)]
mod dirfile;
#[cfg(test)]
mod dup;
#[cfg(test)]
mod event;
#[cfg(test)]
mod frame;
#[cfg(test)]
mod heading;
#[cfg(test)]
mod memory;
#[cfg(test)]
mod message;
#[cfg(test)]
mod number;
#[cfg(test)]
mod peer;
#[cfg(test)]
mod ports;
#[cfg(test)]
mod prioq;
#[cfg(test)]
mod real;
#[cfg(test)]
mod record;
#[cfg(test)]
mod request;
#[cfg(test)]
mod segments;
#[cfg(test)]
mod store;
#[cfg(test)]
mod tcp;
#[cfg(test)]
mod traits;
