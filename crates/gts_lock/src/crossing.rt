//! What may go from one thread to another.
use crate::hall::Hall;
use crate::history::HasHistory;
use crate::pass::Pass;
use crate::turn::Turn;

// Takes what may go to another thread.
fn sent<X: Send>(_value: &X) {}

// Takes what threads may share.
fn shared<X: Sync>(_value: &X) {}

/// Threads share a hall where its value may go from one to another, and there passes and turns may, too.
pub fn halls_passes_and_turns_cross_threads<T: HasHistory + Send>(
    hall: &Hall<T>,
    pass: &Pass<T>,
    turn: &Turn<'_, T>,
) {
    sent(hall);
    shared(hall);
    sent(pass);
    sent(turn);
}
