ghost use Rattle.std.specs.Prelude.{◌≡◌, ◌≤◌, [], length, IfOk, OnOk, OnErr, IsSome};
ghost use Rattle.gts_traits.specs.Counts.{HasCause};

use crate::cause::{Act, Cause, Place, answered, noted};
use crate::outputs::where_it_can;
use gts_traits::{Failed, Source};
use std::fs::File;
use std::io;
use std::io::{ErrorKind, Read};
use std::rt::Files;

/// A source over a file, which it opens at the first read and keeps open. Its bytes are not observed.
#[derive(Drop)]
pub struct FileSource<'a, R: Files> {
    rt: &'a R,
    name: &'static str,
    file: Option<R::File>,
    faults: u64,
    // Why the last call that failed did.
    cause: Option<Cause>,
}

impl<'a, R: Files> FileSource<'a, R> {
    /// A source over the file of this name. Nothing is opened yet.
    pub fn new(rt: &'a R, name: &'static str) -> FileSource<'a, R>
        ensures { result.faults ≡ 0 }
    {
        FileSource {
            rt,
            name,
            file: None,
            faults: 0,
            cause: None,
        }
    }

    /// Why the last call that failed did. `None` where none has failed.
    pub fn cause(&self) -> Option<Cause>
        ensures { result ≡ self.now.cause }
    {
        self.cause
    }
}

impl<'a, R: Files<File = File>> FileSource<'a, R> {
    /// Brings the file to the disk, where it was read: another program may have written it just before.
    pub fn keep(&mut self) -> Result<(), Failed>
        ensures cause { HasCause result self.old.faults self.new.faults }
        ensures why { OnErr result (IsSome self.new.cause) }
    {
        let answer = match &self.file {
            Some(file) => {
                let synced = where_it_can(file.sync_all());
                answered(synced, Place::File(self.name), Act::Sync)
            }
            None => Ok(()),
        };
        noted(answer, &mut self.faults, &mut self.cause)
    }
}

/// Reads the next bytes of an open file. A signal that comes meanwhile is no failure.
fn read_next<F: Read>(file: &mut F, into: &mut [u8]) -> io::Result<usize>
    ensures { IfOk result (λ count. count ≤ length into.new) }
{
    for _ in 0..u64::MAX {
        match file.read(into) {
            Err(error) if error.kind() == ErrorKind::Interrupted => {}
            answer => return answer,
        }
    }
    Err(io::Error::from(ErrorKind::Interrupted))
}

/// Reads the next bytes of a file, which is opened where it isn't yet.
fn read_on<R: Files>(
    rt: &R,
    name: &'static str,
    file: &mut Option<R::File>,
    into: &mut [u8],
) -> Result<usize, Cause>
    ensures { IfOk result (λ count. count ≤ length into.new) }
{
    if let Some(file) = file {
        return answered(read_next(file, into), Place::File(name), Act::Read);
    }
    let mut opened = answered(File::open(rt, name), Place::File(name), Act::Open)?;
    let count = read_next(&mut opened, into);
    *file = Some(opened);
    answered(count, Place::File(name), Act::Read)
}

impl<R: Files> Source for FileSource<'_, R> {
    ghost observed = { ⊥ };

    ghost left = { λ _. [] };

    ghost faults = { λ s. s.faults };

    /// Fails where the file can't be opened or read. Then there is a cause.
    fn read(&mut self, into: &mut [u8]) -> Result<usize, Failed>
        ensures count { IfOk result (λ count. count ≤ length into.new) }
        ensures cause { HasCause result self.old.faults self.new.faults }
        ensures why { OnErr result (IsSome self.new.cause) }
    {
        let answer = read_on(self.rt, self.name, &mut self.file, into);
        noted(answer, &mut self.faults, &mut self.cause)
    }
}
