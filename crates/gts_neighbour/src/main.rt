//! A neighbour of the switch as a program, for runs on the machine itself: it sends a file's bytes to the switch, and
//! writes what comes back to a file until the switch ends its stream.
#![tactic(auto)]

mod fault;
mod words;

use fault::Fault;
use gts_memory::MemSink;
use gts_peer::talk;
use std::fs;
use std::net::{Net, TcpListener, TcpStream};
use std::process::ExitCode;
use std::rt::Runtime;
use words::Words;

/// How often the switch's port is tried before the neighbour gives up.
const TRIES: u32 = 1_000_000;

/// One talk with the switch. What came is written to the file also where the talk failed.
fn talk_once<R>(rt: &R) -> Result<(), Fault>
where
    R: Runtime + AllocGlobal + Net<Listener = TcpListener, Stream = TcpStream>,
{
    let words = Words::read(rt)?;
    let bytes = fs::read(rt, words.send.as_str()).map_err(|_| Fault::Input)?;
    let mut got = MemSink::new(rt.alloc(), &[]).map_err(|_| Fault::NoMemory)?;
    let answer = talk(rt, words.input, words.output, &bytes, &mut got, TRIES);
    fs::write(rt, words.keep.as_str(), got.bytes()).map_err(|_| Fault::Output)?;
    answer.map_err(|_| Fault::Line)
}

fn main(rt: HostRuntime) -> ExitCode {
    match talk_once(&rt) {
        Ok(()) => ExitCode::SUCCESS,
        Err(fault) => {
            // Where the fault can't be told, the exit status still says it.
            let _ = eprintln!(rt; "gts_neighbour: {fault}");
            ExitCode::from(fault.exit_status())
        }
    }
}
