use crate::fault::Fault;
use std::alloc::Global;
use std::env;
use std::io::ErrorKind;
use std::rt::Runtime;

/// What the words of the command line say.
#[derive(Drop)]
pub struct Words {
    /// The port on which the switch listens for this neighbour.
    pub input: u16,
    /// The port on which this neighbour listens for the switch.
    pub output: u16,
    /// The file that is sent.
    pub send: String,
    /// The file that takes what comes.
    pub keep: String,
}

/// A port's number.
fn port(word: Option<String>) -> Result<u16, Fault> {
    match word {
        Some(word) => word.as_str().parse().map_err(|_| Fault::Usage),
        None => Err(Fault::Usage),
    }
}

impl Words {
    /// Reads the words behind the program's name.
    pub fn read<R: Runtime + AllocGlobal>(rt: &R) -> Result<Words, Fault> {
        let mut words = match env::args(rt) {
            Ok(args) => args.skip(1),
            Err(error) if error.kind() == ErrorKind::OutOfMemory => return Err(Fault::NoMemory),
            Err(_) => return Err(Fault::Usage),
        };
        let input = port(words.next())?;
        let output = port(words.next())?;
        match (words.next(), words.next(), words.next()) {
            (Some(send), Some(keep), None) => Ok(Words {
                input,
                output,
                send,
                keep,
            }),
            _ => Err(Fault::Usage),
        }
    }
}
