use gts_connection::CaptureKind;
use gts_memory::MemSource;
use gts_replay::{CaptureFault, Head, Steps};
use gts_traits::{NoMemory, Source};
use std::alloc::Global;
use std::test::Fail;

/// The first head of a capture for two circuits.
fn first_head(
    alloc: Global,
    kind: CaptureKind,
    bytes: &[u8],
    failing: &[u64],
) -> Result<Result<Head, CaptureFault>, NoMemory> {
    let mut source = MemSource::new(alloc, bytes, failing)?;
    Ok(Steps::new(2, kind).next(&mut source))
}

#[test]
fn a_step_of_the_journal_stands_in_no_capture_of_traffic(rt: HostRuntime) -> Result<(), Fail> {
    let alloc = rt.alloc();
    let bad = Err(CaptureFault::Bad { at: 0 });
    let head = first_head(alloc, CaptureKind::Journaled, b"C\n", &[])?;
    assert!(rt; head == Ok(Head::Compact));
    assert!(rt; first_head(alloc, CaptureKind::Traffic, b"C\n", &[])? == bad);
    Ok(())
}

#[test]
fn a_failed_read_is_the_sources_fault(rt: HostRuntime) -> Result<(), Fail> {
    let head = first_head(rt.alloc(), CaptureKind::Journaled, b"E\n", &[0])?;
    assert!(rt; head == Err(CaptureFault::SourceFault));
    Ok(())
}

/// The bytes of a feed of three bytes with which a capture begins, and the head behind it.
fn feed_and_next<S: Source>(source: &mut S) -> Result<Option<([u8; 4], Head)>, CaptureFault> {
    let mut steps = Steps::new(1, CaptureKind::Journaled);
    if steps.next(source)? != (Head::Feed { c: 0, length: 3 }) {
        return Ok(None);
    }
    let mut into = [0; 4];
    if steps.bytes(source, &mut into)? != 3 {
        return Ok(None);
    }
    Ok(Some((into, steps.next(source)?)))
}

#[test]
fn the_bytes_of_a_feed_come_before_the_next_head(rt: HostRuntime) -> Result<(), Fail> {
    let mut source = MemSource::new(rt.alloc(), b"F 00 000003\nabcE\n", &[])?;
    assert!(rt; feed_and_next(&mut source)? == Some((*b"abc\0", Head::End)));
    Ok(())
}
