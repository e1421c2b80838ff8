use gts_accum::{PackEnd, Unpacked, pack};
use gts_memory::{MemSource, MemStation};
use gts_parts_tests::is_same;
use gts_traits::{Channel, Source};
use std::alloc::Global;
use std::test::Fail;

/// A whole and a bare entry, and an end with what isn't read behind it.
const FILE: &[u8] =
    b"0000003900\x01\r\r\n001\r\r\nSMVG01 TVSV 280000\r\r\nNIL=\r\r\n\x030000002801\r\r\nSMVG01 TVSV 280000\r\r\nNIL=0000000000 not read";

/// The capture that the file stands for.
const CAPTURE: &[u8] =
    b"O 00\nF 00 000049\n00000039AN\x01\r\r\n001\r\r\nSMVG01 TVSV 280000\r\r\nNIL=\r\r\n\x03O 00\nF 00 000049\n00000039AN\x01\r\r\n000\r\r\nSMVG01 TVSV 280000\r\r\nNIL=\r\r\n\x03E\n";

/// The most bytes that are read at once.
const ROOM: usize = 64;

/// The capture of a file on circuit 0, read in pieces of so many bytes from a source whose listed calls fail; how often it
/// failed; and the bad place.
fn unpack(
    alloc: Global,
    file: &[u8],
    failing: &[u64],
    piece: usize,
) -> Result<(Vec<u8>, u32, Option<u64>), Fail> {
    let mut unpacked = Unpacked::new(MemSource::new(alloc, file, failing)?, 0);
    let mut capture = Vec::new(alloc);
    let mut room = [0; ROOM];
    let mut failures: u32 = 0;
    for _ in 0..1000 {
        match unpacked.read(&mut room[..piece.min(ROOM)]) {
            Ok(0) => break,
            Ok(count) => capture.extend_from_slice(&room[..count])?,
            Err(_) => failures = failures.saturating_add(1),
        }
    }
    let bad = unpacked.bad();
    Ok((capture, failures, bad))
}

#[test]
fn a_file_is_unpacked_in_pieces_of_any_length(rt: HostRuntime) -> Result<(), Fail> {
    for piece in [1, 7, 64] {
        let (capture, failures, bad) = unpack(rt.alloc(), FILE, &[], piece)?;
        assert!(rt; is_same(&capture, CAPTURE));
        assert!(rt; failures == 0 && bad.is_none());
    }
    Ok(())
}

#[test]
fn it_goes_on_after_a_source_has_failed(rt: HostRuntime) -> Result<(), Fail> {
    let (capture, failures, bad) = unpack(rt.alloc(), FILE, &[0, 2, 3], 16)?;
    assert!(rt; is_same(&capture, CAPTURE));
    assert!(rt; failures == 3 && bad.is_none());
    Ok(())
}

/// How packing a stream ends, and what is said.
fn packed(alloc: Global, stream: &[u8], calls: &[u64]) -> Result<(PackEnd, MemStation), Fail> {
    let mut stream = MemSource::new(alloc, stream, &[])?;
    let mut station = MemStation::new(alloc, calls)?;
    let end = pack(alloc, &mut stream, &mut station);
    Ok((end, station))
}

/// A frame, and a keep-alive behind it.
const STREAM: &[u8] =
    b"00000039AN\x01\r\r\n001\r\r\nSMVG01 TVSV 280000\r\r\nNIL=\r\r\n\x0300000000AN";

/// The file of the frame.
const PACKED: &[u8] =
    b"0000003900\x01\r\r\n001\r\r\nSMVG01 TVSV 280000\r\r\nNIL=\r\r\n\x030000000000";

/// A first part of the stream, which ends in the frame.
const PART: &[u8] = b"00000039AN\x01\r\r\n001\r\r\n";

/// Whether packing a stream ends in that way, and these bytes are said.
fn is_packed(
    alloc: Global,
    stream: &[u8],
    calls: &[u64],
    wanted: PackEnd,
    said: &[u8],
) -> Result<bool, Fail> {
    let (end, station) = packed(alloc, stream, calls)?;
    Ok(end == wanted && is_same(station.said(Channel::OPERATOR), said))
}

#[test]
fn a_stream_is_said_as_a_file(rt: HostRuntime) -> Result<(), Fail> {
    assert!(rt; is_packed(rt.alloc(), STREAM, &[], PackEnd::Done, PACKED)?);
    assert!(rt; is_packed(rt.alloc(), PART, &[], PackEnd::Bad { at: 20 }, b"")?);
    let (end, _) = packed(rt.alloc(), STREAM, &[1])?;
    assert!(rt; end == PackEnd::SayFault);
    Ok(())
}
