//! What the operator is told of a fault, on standard error.
use crate::fault::FaultLine;
use gts_app::Status;
use gts_real::Cause;
use std::fmt;

/// Tells the operator a line. Where it can't be told, the exit status still says how the run ended.
pub fn tell_line<R: Eprint, L: fmt::Display>(rt: &R, line: &L) {
    let _ = eprintln!(rt; "gts_switch: {line}");
}

/// Tells the operator of an end with a fault, and why a call on a file failed.
pub fn tell<R: Eprint>(rt: &R, status: Status, cause: Option<Cause>) {
    tell_line(rt, &FaultLine(status));
    if let Some(cause) = cause {
        tell_line(rt, &cause);
    }
}
