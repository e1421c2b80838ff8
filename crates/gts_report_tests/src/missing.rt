use gts_directory::Directory;
use gts_dirfile::read_directory;
use gts_gap::{GapsEnd, Moment, gaps};
use gts_memory::{MemSource, MemStation};
use gts_parts_tests::is_same;
use gts_traits::{Channel, Station};
use std::alloc::Global;
use std::test::Fail;

const DIRECTORY: &[u8] = b"centre = \"TVSV\"\n[[circuit]]\nname = \"A\"\npeer = \"AAAA\"\n";

/// The numbers 001, 002, 005 and 003 on circuit 0.
const CAPTURE: &[u8] =
    b"F 00 000049\n00000039AN\x01\r\r\n001\r\r\nSMVG01 TVSV 280000\r\r\nNIL=\r\r\n\x03\
F 00 000049\n00000039AN\x01\r\r\n002\r\r\nSMVG01 TVSV 280000\r\r\nNIL=\r\r\n\x03\
F 00 000049\n00000039AN\x01\r\r\n005\r\r\nSMVG01 TVSV 280000\r\r\nNIL=\r\r\n\x03\
O 00\nF 00 000049\n00000039AN\x01\r\r\n003\r\r\nSMVG01 TVSV 280000\r\r\nNIL=\r\r\n\x03E\n";

/// The request for what is missing.
const REQUEST: &[u8] =
    b"00000050AN\x01\r\r\n000\r\r\nBMRR01 AAAA 281030\r\r\nTVSV\r\r\nSQN 004=\r\r\n\x03";

/// The directory of one circuit.
fn directory(alloc: Global) -> Result<Directory, Fail> {
    match read_directory(alloc, DIRECTORY) {
        Ok(directory) => Ok(directory),
        Err(_) => Err(Fail::from("a directory")),
    }
}

/// How a run of a capture ends in a station.
fn end_in<P: Station>(alloc: Global, capture: &[u8], station: &mut P) -> Result<GapsEnd, Fail> {
    let directory = directory(alloc)?;
    let moment = Moment {
        day: 28,
        hour: 10,
        minute: 30,
    };
    let mut capture = MemSource::new(alloc, capture, &[])?;
    Ok(gaps(alloc, &directory, moment, &mut capture, station))
}

/// How the run of the capture ends in a station whose listed calls fail, and what is said.
fn named(alloc: Global, calls: &[u64]) -> Result<(GapsEnd, MemStation), Fail> {
    let mut station = MemStation::new(alloc, calls)?;
    let end = end_in(alloc, CAPTURE, &mut station)?;
    Ok((end, station))
}

#[test]
fn what_is_missing_is_said_and_asked_for(rt: HostRuntime) -> Result<(), Fail> {
    let (end, station) = named(rt.alloc(), &[])?;
    assert!(rt; end == GapsEnd::Done);
    assert!(rt; is_same(station.said(Channel::OPERATOR), b"gap 00 004\nend\n"));
    assert!(rt; is_same(station.said(Channel::of_circuit(0)), REQUEST));
    let (end, _) = named(rt.alloc(), &[1])?;
    assert!(rt; end == GapsEnd::SayFault);
    Ok(())
}
