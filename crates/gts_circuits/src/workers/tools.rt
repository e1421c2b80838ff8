use std::alloc::Global;

/// What all workers of a run work with: the handle by which they get their threads and wait for turns, the memory, and the gate that
/// they pass.
#[derive(Drop)]
pub struct Tools<'a, R, G> {
    pub rt: &'a R,
    pub alloc: Global,
    pub gate: &'a G,
}
