use crate::hall::began::Began;
use crate::hall::housed::Housed;
use gts_lock::{Bells, Hall};
use gts_traits::Station;
use std::alloc::Global;
use std::sync::Wait;

/// Where a pass enters a hall, with what a turn there needs: the handle by which it waits for its turn, the memory, and the bells of the
/// circuits, at which senders sleep.
#[derive(Drop)]
pub struct Entrance<'a, R: Wait, P: Station, B: Began> {
    pub rt: &'a R,
    pub alloc: Global,
    pub hall: &'a Hall<Housed<P, B>>,
    pub bells: &'a Bells,
}
