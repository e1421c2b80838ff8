ghost use Rattle.std.specs.Prelude.{◌≡◌, ◌≤◌, None, length, IfOk, IfSome};

use gts_traits::JournalFile;
use std::alloc::{AllocError, Global};
use std::fs::File;
use std::io;
use std::io::ErrorKind;
use std::os::unix::fs::FileExt;

/// How many bytes are read ahead. A read of as many or more is made directly.
const AHEAD: usize = 16_384;

/// Bytes of one journal file that were read ahead, so that many small reads one behind another are few calls of the system.
#[derive(Drop)]
pub(crate) struct Ahead {
    file: JournalFile,
    at: u64,
    bytes: Option<Vec<u8>>,
}

/// Reads a file's bytes from a place on, as many as there are, up to the length of `into`.
fn read_from(file: &File, at: u64, into: &mut [u8]) -> io::Result<usize>
    ensures { IfOk result (λ count. count ≤ length into.old) }
{
    let mut count = 0;
    for _ in 0..u64::MAX {
        if count == into.len() {
            break;
        }
        match file.read_at(&mut into[count..], at.wrapping_add(count as u64)) {
            Ok(0) => break,
            Ok(more) => count += more,
            Err(error) if error.kind() == ErrorKind::Interrupted => {}
            Err(error) => return Err(error),
        }
    }
    Ok(count)
}

/// Room for what is read ahead.
fn room(alloc: Global) -> Result<Vec<u8>, AllocError> {
    vec![in alloc; 0; AHEAD]
}

impl Ahead {
    /// Nothing was read yet, and no memory is taken.
    pub(crate) fn new() -> Ahead {
        Ahead {
            file: JournalFile::FIRST,
            at: 0,
            bytes: None,
        }
    }

    /// Drops what was read ahead: the files change.
    pub(crate) fn forget(&mut self)
        ensures { self.new.bytes ≡ None }
    {
        self.bytes = None;
    }

    /// Gives so many bytes of a file from a place on, where all of them were read ahead.
    fn give(&self, file: JournalFile, at: u64, into: &mut [u8]) -> Option<usize>
        ensures count { IfSome result (λ count. count ≤ length into.old) }
        ensures own { IfSome result (λ _. file ≡ self.now.file) }
    {
        let bytes = self.bytes.as_ref()?;
        if file != self.file || at < self.at {
            return None;
        }
        let start = at - self.at;
        if (bytes.len() as u64) < start {
            return None;
        }
        let held = &bytes[start as usize..];
        if held.len() < into.len() {
            return None;
        }
        let count = into.len();
        into.copy_from_slice(&held[..count]);
        Some(count)
    }

    /// Reads a file's bytes from a place on, as many as there are, up to the length of `into`. Without memory for what is read
    /// ahead it reads them alone.
    pub(crate) fn read(
        &mut self,
        alloc: Global,
        opened: &File,
        file: JournalFile,
        at: u64,
        into: &mut [u8],
    ) -> io::Result<usize>
        ensures { IfOk result (λ count. count ≤ length into.old) }
    {
        if let Some(count) = self.give(file, at, into) {
            return Ok(count);
        }
        if AHEAD <= into.len() {
            return read_from(opened, at, into);
        }
        let Ok(mut bytes) = room(alloc) else {
            return read_from(opened, at, into);
        };
        let there = read_from(opened, at, &mut bytes)?;
        bytes.truncate(there);
        let count = bytes.len().min(into.len());
        into[..count].copy_from_slice(&bytes[..count]);
        self.file = file;
        self.at = at;
        self.bytes = Some(bytes);
        Ok(count)
    }
}
