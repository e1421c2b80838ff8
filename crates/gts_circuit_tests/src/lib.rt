//! Tests of the circuits over lines in memory.
#![tactic(auto)]

#[cfg(test)]
mod bell;
#[cfg(test)]
mod sender;
#[cfg(test)]
mod serve;
