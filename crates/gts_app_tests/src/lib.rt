//! Tests of the whole switch: calls that fail, stops in mid-call, circuits in memory, and two neighbours over loopback. Rows of
//! words and files are cases (`cases/`).
#![tactic(auto)]

#[cfg(test)]
mod left;
#[cfg(test)]
mod loopback;
#[cfg(test)]
mod runs;
