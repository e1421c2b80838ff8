ghost use Rattle.std.specs.Prelude.{◌≡◌, ◌≤◌, ◌<◌, true, None, length, IfOk, OnOk, IsErr, is_err, is_some};
ghost use Rattle.gts_real.specs.Station.{FailsWhere};

use crate::ahead::Ahead;
use crate::cause::{Act, Cause, Place, answered};
use crate::lock::{Owner, lock};
use gts_traits::JournalFile;
use std::fs::{File, OpenOptions};
use std::io;
use std::io::ErrorKind;
use std::os::unix::fs::FileExt;
use std::rt::Files;

/// The journal files, in the current folder. The first one carries the lock.
const NAMES: [&str; 3] = ["journal.0", "journal.1", "journal.2"];

/// The journal files. Each is opened when it is first asked for, and kept open.
#[derive(Drop)]
pub(crate) struct Disk {
    // Whether the files are only read: then no lock is taken, so that another program may write meanwhile.
    is_reader: bool,
    files: [Option<File>; 3],
    // Whether each, and the folder's list of them, was brought to the disk since it was last changed. An earlier program
    // may have ended before its sync, so nothing is at first.
    synced: [bool; 3],
    is_folder_synced: bool,
    owner: Owner,
    // Why each can't be written, where the system lets it be read alone.
    refused: [Option<io::Error>; 3],
    // What was read ahead, of which nothing is left when the files change.
    ahead: Ahead,
    // The sync that failed. A later one may succeed without the bytes that it was for, so nothing is done any more.
    lost: Option<Cause>,
}

/// Where a journal file is.
fn place_of(file: JournalFile) -> Place {
    Place::File(NAMES[file.number() as usize])
}

/// Brings the folder's list of files to the disk.
pub(crate) fn sync_folder<R: Files<File = File>>(rt: &R) -> Result<(), Cause> {
    let folder = answered(File::open(rt, "."), Place::Folder, Act::Open)?;
    answered(folder.sync_all(), Place::Folder, Act::Sync)
}

/// The call of the system was made on a file that isn't there.
fn missing(file: JournalFile, act: Act) -> Cause {
    Cause::system(place_of(file), act, io::Error::from(ErrorKind::NotFound))
}

/// A file that is there; `None` where it isn't there.
fn existing(opened: io::Result<File>) -> io::Result<Option<File>> {
    match opened {
        Err(error) if error.kind() == ErrorKind::NotFound => Ok(None),
        opened => Ok(Some(opened?)),
    }
}

impl Disk {
    /// Nothing is opened yet. The files are only to be read, or also to be changed.
    pub(crate) fn new(is_reader: bool) -> Disk
        ensures reader { result.is_reader ≡ is_reader }
        ensures lost { result.lost ≡ None }
    {
        Disk {
            is_reader,
            files: [None, None, None],
            synced: [false; 3],
            is_folder_synced: false,
            owner: Owner::Unknown,
            refused: [None, None, None],
            ahead: Ahead::new(),
            lost: None,
        }
    }

    /// Opens a file for writing where that is allowed, and else for reading.
    fn open_for_writing<R: Files<File = File>>(
        &mut self,
        rt: &R,
        file: JournalFile,
    ) -> io::Result<File>
        ensures reader { self.new.is_reader ≡ self.old.is_reader }
        ensures lost { self.new.lost ≡ self.old.lost }
    {
        let name = NAMES[file.number() as usize];
        match OpenOptions::new().read(true).write(true).open(rt, name) {
            Err(error) if error.kind() == ErrorKind::PermissionDenied => {
                self.refused[file.number() as usize] = Some(error);
                File::open(rt, name)
            }
            answer => answer,
        }
    }

    /// Opens a journal file that is there, where it isn't open yet.
    fn open<R: Files<File = File>>(&mut self, rt: &R, file: JournalFile) -> Result<(), Cause>
        ensures reader { self.new.is_reader ≡ self.old.is_reader }
        ensures lost { self.new.lost ≡ self.old.lost }
    {
        let place = file.number() as usize;
        if self.files[place].is_none() {
            let opened = if self.is_reader {
                File::open(rt, NAMES[place])
            } else {
                self.open_for_writing(rt, file)
            };
            self.files[place] = answered(existing(opened), place_of(file), Act::Open)?;
        }
        Ok(())
    }

    /// A journal file that was opened or made.
    fn opened(&self, file: JournalFile) -> Option<&File> {
        self.files[file.number() as usize].as_ref()
    }

    /// Begins a call on a file. The first call of a station that may write takes the lock, so that what is read stays as it is
    /// until it is written.
    fn begin<R: Files<File = File>>(&mut self, rt: &R, file: JournalFile) -> Result<(), Cause>
        ensures reader { self.new.is_reader ≡ self.old.is_reader }
        ensures lost { FailsWhere result (is_some self.old.lost) (is_some self.new.lost) }
    {
        if let Some(cause) = self.lost {
            return Err(cause);
        }
        if matches!(&self.owner, Owner::Unknown) && !self.is_reader {
            self.open(rt, JournalFile::FIRST)?;
            self.owner = match self.opened(JournalFile::FIRST) {
                Some(file) => lock(file),
                None => Owner::Nobody,
            };
        }
        self.open(rt, file)
    }

    /// Makes a journal file. It fails where the file is there.
    fn make<R: Files<File = File>>(&mut self, rt: &R, file: JournalFile) -> Result<(), Cause>
        ensures reader { self.new.is_reader ≡ self.old.is_reader }
        ensures lost { self.new.lost ≡ self.old.lost }
    {
        let place = file.number() as usize;
        let made = OpenOptions::new()
            .read(true)
            .write(true)
            .create_new(true)
            .open(rt, NAMES[place]);
        let made = answered(made, place_of(file), Act::Make)?;
        self.is_folder_synced = false;
        if file == JournalFile::FIRST {
            self.owner = lock(&made);
        }
        self.files[place] = Some(made);
        Ok(())
    }

    /// Whether this station has the lock on the journal.
    fn owned(&self) -> Result<(), Cause> {
        match &self.owner {
            Owner::This => Ok(()),
            Owner::Refused(error) => Err(Cause::system(
                place_of(JournalFile::FIRST),
                Act::Lock,
                *error,
            )),
            Owner::Unknown | Owner::Nobody | Owner::Another => Err(Cause::held(place_of(
                JournalFile::FIRST,
            ))),
        }
    }

    /// Begins a change of a file, which is made where it isn't there. A reader changes nothing, and nobody without the lock.
    fn begin_change<R: Files<File = File>>(
        &mut self,
        rt: &R,
        file: JournalFile,
        act: Act,
    ) -> Result<(), Cause>
        ensures forgotten { OnOk result (self.new.ahead.bytes ≡ None) }
        ensures reader { FailsWhere result self.old.is_reader self.new.is_reader }
        ensures lost { FailsWhere result (is_some self.old.lost) (is_some self.new.lost) }
    {
        if self.is_reader {
            return Err(Cause::only_read(place_of(file), act));
        }
        self.begin(rt, file)?;
        if matches!(&self.owner, Owner::Nobody) {
            self.make(rt, JournalFile::FIRST)?;
        }
        self.owned()?;
        if let Some(error) = self.refused[file.number() as usize] {
            return Err(Cause::system(place_of(file), Act::Open, error));
        }
        if self.opened(file).is_none() {
            self.make(rt, file)?;
        }
        self.synced[file.number() as usize] = false;
        self.ahead.forget();
        Ok(())
    }

    /// How many bytes a journal file has: none where it isn't there.
    pub(crate) fn size<R: Files<File = File>>(
        &mut self,
        rt: &R,
        file: JournalFile,
    ) -> Result<u64, Cause>
        ensures reader { self.new.is_reader ≡ self.old.is_reader }
        ensures lost { FailsWhere result (is_some self.old.lost) (is_some self.new.lost) }
    {
        self.begin(rt, file)?;
        match self.opened(file) {
            Some(opened) => {
                let metadata = answered(opened.metadata(), place_of(file), Act::Size)?;
                Ok(metadata.len())
            }
            None => Ok(0),
        }
    }

    /// Reads a journal file's bytes from a place on, as many as there are, up to the length of `into`.
    pub(crate) fn read<R: Files<File = File> + AllocGlobal>(
        &mut self,
        rt: &R,
        file: JournalFile,
        at: u64,
        into: &mut [u8],
    ) -> Result<usize, Cause>
        ensures within { IfOk result (λ count. count ≤ length into.old) }
        ensures reader { self.new.is_reader ≡ self.old.is_reader }
        ensures lost { FailsWhere result (is_some self.old.lost) (is_some self.new.lost) }
    {
        self.begin(rt, file)?;
        let Some(opened) = &self.files[file.number() as usize] else {
            return Ok(0);
        };
        let answer = self.ahead.read(rt.alloc(), opened, file, at, into);
        answered(answer, place_of(file), Act::Read)
    }

    /// Writes bytes over what stands in a journal file from a place on, and past its end.
    pub(crate) fn write_at<R: Files<File = File>>(
        &mut self,
        rt: &R,
        file: JournalFile,
        at: u64,
        bytes: &[u8],
    ) -> Result<(), Cause>
        ensures reader { FailsWhere result self.old.is_reader self.new.is_reader }
        ensures lost { FailsWhere result (is_some self.old.lost) (is_some self.new.lost) }
    {
        self.begin_change(rt, file, Act::Write)?;
        match self.opened(file) {
            Some(opened) => answered(opened.write_all_at(bytes, at), place_of(file), Act::Write),
            None => Err(missing(file, Act::Write)),
        }
    }

    /// Cuts a journal file.
    pub(crate) fn cut<R: Files<File = File>>(
        &mut self,
        rt: &R,
        file: JournalFile,
        size: u64,
    ) -> Result<(), Cause>
        ensures reader { FailsWhere result self.old.is_reader self.new.is_reader }
        ensures lost { FailsWhere result (is_some self.old.lost) (is_some self.new.lost) }
    {
        self.begin_change(rt, file, Act::Cut)?;
        match self.opened(file) {
            Some(opened) => answered(opened.set_len(size), place_of(file), Act::Cut),
            None => Err(missing(file, Act::Cut)),
        }
    }

    /// Brings a journal file to the disk, where it was changed. One that wasn't isn't looked for, whether it is there or not.
    fn sync_file<R: Files<File = File>>(&mut self, rt: &R, file: JournalFile) -> Result<(), Cause>
        ensures reader { self.new.is_reader ≡ self.old.is_reader }
        ensures lost { is_some self.new.lost ≡ is_some self.old.lost }
    {
        if self.synced[file.number() as usize] {
            return Ok(());
        }
        self.begin(rt, file)?;
        if let Some(opened) = self.opened(file) {
            answered(opened.sync_data(), place_of(file), Act::Sync)?;
        }
        self.synced[file.number() as usize] = true;
        Ok(())
    }

    /// Brings the folder's list of files to the disk, where one was made.
    fn sync_list<R: Files<File = File>>(&mut self, rt: &R) -> Result<(), Cause>
        ensures reader { self.new.is_reader ≡ self.old.is_reader }
        ensures lost { self.new.lost ≡ self.old.lost }
    {
        if !self.is_folder_synced {
            sync_folder(rt)?;
            self.is_folder_synced = true;
        }
        Ok(())
    }

    /// Brings to the disk what was changed: the files, and the folder where one was made.
    fn sync_changed<R: Files<File = File>>(&mut self, rt: &R) -> Result<(), Cause>
        ensures reader { self.new.is_reader ≡ self.old.is_reader }
        ensures lost { FailsWhere result (is_some self.old.lost) (is_some self.new.lost) }
    {
        if let Some(cause) = self.lost {
            return Err(cause);
        }
        self.sync_file(rt, JournalFile::FIRST)?;
        self.sync_file(rt, JournalFile::SECOND)?;
        self.sync_file(rt, JournalFile::SELECTOR)?;
        self.sync_list(rt)
    }

    /// Brings to the disk what was changed since the last sync. Once it has failed, every call fails.
    pub(crate) fn sync<R: Files<File = File>>(&mut self, rt: &R) -> Result<(), Cause>
        ensures reader { self.new.is_reader ≡ self.old.is_reader }
        ensures fails { is_some self.old.lost ≡ true → IsErr result }
        ensures lost { is_some self.new.lost ≡ is_err result }
    {
        // A read behind it is of the disk once more.
        self.ahead.forget();
        match self.sync_changed(rt) {
            Ok(()) => {
                self.lost = None;
                Ok(())
            }
            Err(cause) => {
                self.lost = Some(cause);
                Err(cause)
            }
        }
    }
}
