use std::fs::{File, TryLockError};
use std::io;

/// Who may write the journal, as far as this station knows.
#[derive(Clone, Copy)]
pub(crate) enum Owner {
    /// It wasn't looked at yet, or the station only reads.
    Unknown,
    /// The file that is locked isn't there, so nobody has the lock.
    Nobody,
    /// This station has the lock.
    This,
    /// Another program has the lock.
    Another,
    /// The system gives no lock on the file.
    Refused(io::Error),
}

/// Takes the system's lock on a file, where it is free. It is let go when the file is closed.
pub(crate) fn lock(file: &File) -> Owner {
    match file.try_lock() {
        Ok(()) => Owner::This,
        Err(TryLockError::WouldBlock) => Owner::Another,
        Err(TryLockError::Error(error)) => Owner::Refused(error),
    }
}
