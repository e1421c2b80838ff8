use crate::{Began, Housed, ServeEnd};
use gts_engine::Engine;
use gts_lock::Pass;
use gts_traits::Station;

/// What a run of all circuits leaves: the engine, the end, and the pass that has seen the history of all threads, where the run
/// began.
pub struct Served<P: Station, B: Began> {
    pub engine: Engine<P>,
    pub end: ServeEnd,
    pub pass: Option<Pass<Housed<P, B>>>,
}
