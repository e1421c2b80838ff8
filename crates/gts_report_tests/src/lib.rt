//! Tests of captures, and of what operators ask for.
#![tactic(auto)]

#[cfg(test)]
mod accum;
#[cfg(test)]
mod capture;
#[cfg(test)]
mod gap;
#[cfg(test)]
mod generate;
#[cfg(test)]
mod missing;
#[cfg(test)]
mod standby;
#[cfg(test)]
mod words;
