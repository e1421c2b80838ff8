//! The threads that a run takes for its workers.

use std::sync::{Mutex, Wait};
use std::thread;
use std::thread::Threads;

/// Whether the system lets the program have so many threads more at once. Each of them waits at a door that opens when all were
/// made, or one couldn't be.
pub(crate) fn can_have_threads<R: Threads + Wait + Sync>(rt: &R, count: usize) -> bool {
    let door = &Mutex::new(());
    thread::scope(thread::scope_env(), rt, move |scope| -> bool {
        let closed = door.lock(rt);
        for _ in 0..count {
            if scope
                .spawn(move || {
                    drop(door.lock(rt));
                })
                .is_err()
            {
                drop(closed);
                return false;
            }
        }
        drop(closed);
        true
    })
}
