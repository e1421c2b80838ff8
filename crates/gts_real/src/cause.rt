//! What failed, for the operator: the call, on which file, and why.
ghost use Rattle.std.specs.Prelude.{◌≡◌, Ok, IfOk, IsSome, OnOk, OnErr, is_err};
ghost use Rattle.gts_traits.specs.Counts.{HasCause};

use gts_traits::{Failed, counted};
use std::io::ErrorKind;
use std::{fmt, io};

/// What a call was made on.
#[derive(Clone, Copy)]
pub(crate) enum Place {
    /// A file in the current folder, by its name.
    File(&'static str),
    /// The file of a circuit's frames.
    Circuit(u32),
    /// The current folder.
    Folder,
    /// Standard output.
    Output,
}

/// What was called.
#[derive(Clone, Copy)]
pub(crate) enum Act {
    Open,
    Make,
    Lock,
    Size,
    Read,
    Write,
    Cut,
    Sync,
}

/// Why it failed.
#[derive(Clone, Copy)]
enum Why {
    /// The system's error, by its number.
    System(i32),
    /// An error that has no number, by its kind.
    Other(ErrorKind),
    /// Another program holds the lock.
    Held,
    /// The station was opened for reading, and changes nothing.
    OnlyRead,
}

/// Why a call on a file failed: what was called, on which file, and the system's words, in a line for the operator. It is small,
/// since each call answers with one or with none; `io::Error` has room for a text.
#[derive(Clone, Copy)]
pub struct Cause {
    place: Place,
    act: Act,
    why: Why,
}

impl Cause {
    /// The system refused it.
    pub(crate) fn system(place: Place, act: Act, error: io::Error) -> Cause {
        let why = match error.raw_os_error() {
            Some(number) => Why::System(number),
            None => Why::Other(error.kind()),
        };
        Cause { place, act, why }
    }

    /// Another program holds the lock on this file.
    pub(crate) fn held(place: Place) -> Cause {
        Cause {
            place,
            act: Act::Lock,
            why: Why::Held,
        }
    }

    /// The files are only read here.
    pub(crate) fn only_read(place: Place, act: Act) -> Cause {
        Cause {
            place,
            act,
            why: Why::OnlyRead,
        }
    }
}

impl fmt::Display for Place {
    fn fmt<W: fmt::Write>(&self, f: &mut fmt::Formatter<W>) -> fmt::Result {
        match self {
            Place::File(name) => write!(f, "{name}"),
            Place::Circuit(circuit) => write!(f, "circuit.{circuit:02}.out"),
            Place::Folder => write!(f, "folder"),
            Place::Output => write!(f, "standard output"),
        }
    }
}

impl fmt::Display for Act {
    fn fmt<W: fmt::Write>(&self, f: &mut fmt::Formatter<W>) -> fmt::Result {
        let word = match self {
            Act::Open => "open",
            Act::Make => "make",
            Act::Lock => "lock",
            Act::Size => "size",
            Act::Read => "read",
            Act::Write => "write",
            Act::Cut => "cut",
            Act::Sync => "sync",
        };
        write!(f, "{word}")
    }
}

impl fmt::Display for Why {
    fn fmt<W: fmt::Write>(&self, f: &mut fmt::Formatter<W>) -> fmt::Result {
        match self {
            Why::System(number) => {
                let error = io::Error::from_raw_os_error(*number);
                write!(f, "{error}")
            }
            Why::Other(kind) => {
                let error = io::Error::from(*kind);
                write!(f, "{error}")
            }
            Why::Held => write!(f, "held by another program"),
            Why::OnlyRead => write!(f, "only read by this command"),
        }
    }
}

impl fmt::Display for Cause {
    fn fmt<W: fmt::Write>(&self, f: &mut fmt::Formatter<W>) -> fmt::Result {
        let Cause { place, act, why } = self;
        write!(f, "{place}: {act}: {why}")
    }
}

/// What a call of the system answered, of which an `Err` gets its cause. Each call on a file but the lock's is to go through
/// here, where none that failed is passed over.
pub(crate) fn answered<T>(answer: io::Result<T>, place: Place, act: Act) -> Result<T, Cause>
    ensures value { IfOk result (λ x. answer ≡ Ok x) }
    ensures failed { is_err result ≡ is_err answer }
{
    match answer {
        Ok(value) => Ok(value),
        Err(error) => Err(Cause::system(place, act, error)),
    }
}

/// What a call on an object answered: an `Err` is counted as a fault, and its cause is kept.
pub(crate) fn noted<T>(
    answer: Result<T, Cause>,
    faults: &mut u64,
    last: &mut Option<Cause>,
) -> Result<T, Failed>
    ensures value { IfOk result (λ x. answer ≡ Ok x) }
    ensures failed { is_err result ≡ is_err answer }
    ensures cause { HasCause result faults.old faults.new }
    ensures told { OnErr result (IsSome last.new) }
    ensures same { OnOk result (last.new ≡ last.old) }
{
    if let Err(cause) = &answer {
        *last = Some(*cause);
    }
    counted(answer, faults)
}
