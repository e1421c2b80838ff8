ghost use Rattle.std.specs.Prelude.{◌≡◌, Ok, IfOk};

use std::{fmt, io};

/// A call of the system on one of a circuit's two lines.
#[derive(Clone, Copy, Debug, PartialEq, Eq)]
pub enum LineCall {
    /// Listening on the port `input`.
    Bind,
    /// Letting in a caller on the port `input`.
    Accept,
    /// Reading what the caller sends.
    Read,
    /// Reaching the neighbour's port `output`.
    Connect,
    /// Sending to it.
    Write,
}

impl LineCall {
    /// The line on which it is called, as the directory calls its port.
    fn line(self) -> &'static str {
        match self {
            LineCall::Bind | LineCall::Accept | LineCall::Read => "input",
            LineCall::Connect | LineCall::Write => "output",
        }
    }

    /// The call's own name.
    fn name(self) -> &'static str {
        match self {
            LineCall::Bind => "bind",
            LineCall::Accept => "accept",
            LineCall::Read => "read",
            LineCall::Connect => "connect",
            LineCall::Write => "write",
        }
    }
}

/// Why a circuit's lines failed last: what was called, on which port, and what the system says of it. As text it is, for instance,
/// `input 4101: bind: ` and the system's words.
#[derive(Clone, Copy)]
pub struct LineCause {
    /// What was called.
    pub call: LineCall,
    /// The port of that line.
    pub port: u16,
    /// What the system says.
    pub error: io::Error,
}

impl fmt::Display for LineCause {
    fn fmt<W: fmt::Write>(&self, f: &mut fmt::Formatter<W>) -> fmt::Result {
        let line = self.call.line();
        let name = self.call.name();
        let port = self.port;
        let error = self.error;
        write!(f, "{line} {port}: {name}: {error}")
    }
}

/// Names the call and the port of a failure.
pub(crate) fn named<T>(answer: io::Result<T>, call: LineCall, port: u16) -> Result<T, LineCause>
    ensures { IfOk result (λ x. answer ≡ Ok x) }
{
    match answer {
        Ok(value) => Ok(value),
        Err(error) => Err(LineCause { call, port, error }),
    }
}

/// Keeps the cause of an answer that is a failure.
pub(crate) fn note<T>(answer: &Result<T, LineCause>, cause: &mut Option<LineCause>) {
    if let Err(failure) = answer {
        *cause = Some(*failure);
    }
}
