//! A look at a capture before the switch is proved: `capture.gts` under `directory.toml`, over the journal that is there, by
//! the same crates as `gts_switch replay`. It takes no words and serves no circuits, so there is less to build.
#![tactic(auto)]

use gts_connection::CaptureKind;
use gts_directory::Directory;
use gts_dirfile::read_directory;
use gts_engine::Engine;
use gts_real::{FileSource, FileStation, hold_streams};
use gts_replay::{ReplayEnd, replay};
use gts_traits::{Source, Station};
use std::alloc::Global;
use std::process::ExitCode;

/// How many bytes of a directory are read at once.
const PIECE: usize = 4_096;

/// How many pieces are read of a directory: those of the longest one, and one more.
const PIECES: u32 = 65;

/// The directory that a file holds, and `None` where it can't be read or is none.
fn directory_of<S: Source>(alloc: Global, source: &mut S) -> Option<Directory> {
    let mut bytes = Vec::new(alloc);
    let mut piece = [0; PIECE];
    for _ in 0..PIECES {
        let count = source.read(&mut piece).ok()?;
        bytes.extend_from_slice(&piece[..count]).ok()?;
    }
    read_directory(alloc, &bytes).ok()
}

/// Whether the capture was done from where the journal ends. What came of it was said by the station.
fn is_done<S: Source, P: Station + Drop>(
    alloc: Global,
    directory: &mut S,
    capture: &mut S,
    station: P,
) -> bool {
    let Some(directory) = directory_of(alloc, directory) else {
        return false;
    };
    match Engine::open(alloc, station, directory) {
        Ok(mut engine) => {
            replay(alloc, &mut engine, capture, CaptureKind::Journaled) == ReplayEnd::Done
        },
        Err(_) => false,
    }
}

/// Ends with 0 where the capture was done, and else with 1.
fn main(rt: HostRuntime) -> ExitCode {
    let _streams = hold_streams(&rt);
    let mut directory = FileSource::new(&rt, "directory.toml");
    let mut capture = FileSource::new(&rt, "capture.gts");
    let station = FileStation::new(&rt);
    if is_done(rt.alloc(), &mut directory, &mut capture, station) {
        ExitCode::from(0)
    } else {
        ExitCode::from(1)
    }
}
