ghost use Rattle.std.specs.Prelude.{◌≡◌, Some};
ghost use Rattle.gts_neighbour.specs.Fault.{exit_of, line_of};

use std::fmt;

/// How a talk ended other than well.
#[derive(Clone, Copy, Debug, Drop)]
pub enum Fault {
    /// The words are no two ports and two names.
    Usage,
    /// The file that was to be sent couldn't be read.
    Input,
    /// What came couldn't be written.
    Output,
    /// A port couldn't be had, or a connection broke.
    Line,
    /// There was no memory.
    NoMemory,
}

impl fmt::Display for Fault {
    ghost output = { λ fault. Some (line_of fault) };

    fn fmt<W: fmt::Write>(&self, f: &mut fmt::Formatter<W>) -> fmt::Result {
        match self {
            Fault::Usage => write!(f, "usage: IN_PORT OUT_PORT FILE_TO_SEND FILE_TO_WRITE"),
            Fault::Input => write!(f, "input fault"),
            Fault::Output => write!(f, "output fault"),
            Fault::Line => write!(f, "line fault"),
            Fault::NoMemory => write!(f, "no memory"),
        }
    }
}

impl Fault {
    /// The exit status, which is that of the switch for the same fault.
    pub fn exit_status(&self) -> u8
        ensures { result ≡ exit_of self.now }
    {
        match self {
            Fault::Usage => 2,
            Fault::Output => 7,
            Fault::Input => 8,
            Fault::Line => 10,
            Fault::NoMemory => 11,
        }
    }
}
