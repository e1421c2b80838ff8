ghost use Rattle.std.specs.Prelude.{◌≡◌, ◌<◌, true, None, IsErr, is_err, is_some};
ghost use Rattle.gts_alphabet.specs.declared.limits.TheConstants.{MOST_CIRCUITS};

use crate::cause::{Act, Cause, Place, answered};
use crate::disk::sync_folder;
use gts_alphabet::MOST_CIRCUITS;
use gts_traits::Channel;
use std::fs::{File, OpenOptions};
use std::io::{ErrorKind, Write};
use std::rt::Files;
use std::{array, io};

/// Standard output and the circuits' files. Each file is opened when something is first said on its channel, and kept open.
#[derive(Drop)]
pub(crate) struct Outputs {
    files: [Option<File>; MOST_CIRCUITS],
    // Whether each, and the folder's list of them, was brought to the disk since something was last said there. A file that is
    // opened may have been made by that.
    kept: [bool; MOST_CIRCUITS],
    is_folder_kept: bool,
    // The sync that failed. A later one may succeed without the bytes that it was for, so nothing is kept any more.
    lost: Option<Cause>,
}

/// Opens a circuit's file for bytes at its end; it is made where it isn't there.
fn open<R: Files<File = File> + AllocGlobal>(rt: &R, circuit: u32) -> io::Result<File> {
    let name = format!(in rt.alloc(); "circuit.{circuit:02}.out")?;
    OpenOptions::new()
        .append(true)
        .create(true)
        .open(rt, name.as_str())
}

/// What a sync came to. A file that is on no disk, as a FIFO, can't be brought there, and there is nothing to bring.
pub(crate) fn where_it_can(synced: io::Result<()>) -> io::Result<()>
    ensures { IsErr result → IsErr synced }
{
    match synced {
        Err(error) if error.kind() == ErrorKind::InvalidInput => Ok(()),
        answer => answer,
    }
}

/// Brings to the disk those of these files that aren't yet.
fn keep_files(
    files: &[Option<File>; MOST_CIRCUITS],
    kept: &mut [bool; MOST_CIRCUITS],
) -> Result<(), Cause> {
    for circuit in 0..MOST_CIRCUITS {
        if let (false, Some(file)) = (kept[circuit], &files[circuit]) {
            let synced = where_it_can(file.sync_data());
            answered(synced, Place::Circuit(circuit as u32), Act::Sync)?;
            kept[circuit] = true;
        }
    }
    Ok(())
}

impl Outputs {
    /// Nothing is opened yet.
    pub(crate) fn new() -> Outputs
        ensures { result.lost ≡ None }
    {
        Outputs {
            files: array::from_fn(|_| None),
            kept: [true; MOST_CIRCUITS],
            is_folder_kept: true,
            lost: None,
        }
    }

    /// Writes bytes to the end of a channel's file, or to standard output: in one call of the system, as far as it takes
    /// them.
    pub(crate) fn write<R: Files<File = File> + Print + AllocGlobal>(
        &mut self,
        rt: &R,
        channel: Channel,
        bytes: &[u8],
    ) -> Result<(), Cause>
        ensures { self.new.lost ≡ self.old.lost }
    {
        let Some(circuit) = channel.circuit() else {
            return answered(rt.write_all(bytes), Place::Output, Act::Write);
        };
        let place = Place::Circuit(circuit);
        self.kept[circuit as usize] = false;
        if let Some(file) = &mut self.files[circuit as usize] {
            return answered(file.write_all(bytes), place, Act::Write);
        }
        let mut opened = answered(open(rt, circuit), place, Act::Open)?;
        self.is_folder_kept = false;
        let answer = answered(opened.write_all(bytes), place, Act::Write);
        self.files[circuit as usize] = Some(opened);
        answer
    }

    /// Brings to the disk what was said to files, and the folder's list of them where one may have been made.
    fn keep_changed<R: Files<File = File>>(&mut self, rt: &R) -> Result<(), Cause>
        ensures { self.new.lost ≡ self.old.lost }
    {
        keep_files(&self.files, &mut self.kept)?;
        if !self.is_folder_kept {
            sync_folder(rt)?;
            self.is_folder_kept = true;
        }
        Ok(())
    }

    /// Brings to the disk what was said to files since the last time. Once it has failed, it fails.
    pub(crate) fn keep<R: Files<File = File>>(&mut self, rt: &R) -> Result<(), Cause>
        ensures fails { is_some self.old.lost ≡ true → IsErr result }
        ensures lost { is_some self.new.lost ≡ is_err result }
    {
        if let Some(cause) = self.lost {
            return Err(cause);
        }
        match self.keep_changed(rt) {
            Ok(()) => Ok(()),
            Err(cause) => {
                self.lost = Some(cause);
                Err(cause)
            }
        }
    }
}
