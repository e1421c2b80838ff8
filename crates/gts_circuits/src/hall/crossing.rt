//! What may go from one thread to another.
use crate::hall::housed::Housed;
use gts_traits::Station;

// Takes what may go to another thread.
fn sent<X: Send>(_value: &X) {}

/// An engine in its hall may go from one thread to another where its station may.
pub fn an_engine_crosses_threads<P: Station + Send, B: Send>(housed: &Housed<P, B>) {
    sent(housed);
}
