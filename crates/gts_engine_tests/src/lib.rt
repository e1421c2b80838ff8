//! Tests of the journal, its checkpoints, its recovery and the engine.
#![tactic(auto)]

#[cfg(test)]
mod checkpoint;
#[cfg(test)]
mod engine;
#[cfg(test)]
mod gathering;
#[cfg(test)]
mod journal;
#[cfg(test)]
mod recovery;
