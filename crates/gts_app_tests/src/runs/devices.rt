//! Devices that fail.

use super::*;

#[test]
fn init_on_a_disk_that_fails(rt: HostRuntime) -> Result<(), Fail> {
    for call in 0..FIRST {
        let station = MemStation::new(rt.alloc(), &[call])?;
        let Left { status, .. } = run_word(&rt, "init", b"", station)?;
        assert!(rt; status == Status::DiskFault, "call {call}");
    }
    Ok(())
}

/// A run in which the journal is compacted ends where this call behind `init` fails, and the next one goes on.
fn ends_and_goes_on<R: AllocGlobal + Threads + Wait + Sync + Abort>(
    rt: &R,
    behind: u64,
) -> Result<(), Fail> {
    let Left { status, station } = replayed(rt, COMPACTED, &[FIRST.saturating_add(behind)])?;
    assert!(rt;
        status == Status::DiskFault || status == Status::OutputFault,
        "call {behind}"
    );
    goes_on(rt, behind, station)
}

#[test]
fn a_call_that_fails_ends_the_run_and_the_next_run_goes_on(rt: HostRuntime) -> Result<(), Fail> {
    let Left { status, station } = replayed(&rt, COMPACTED, &[])?;
    assert!(rt; status == Status::Done);
    for behind in 0..station.calls().saturating_sub(FIRST) {
        ends_and_goes_on(&rt, behind)?;
    }
    Ok(())
}

/// How a replay ends whose directory and capture fail at these calls.
fn replayed_from<R: AllocGlobal + Threads + Wait + Sync>(
    rt: &R,
    directory: &[u64],
    capture: &[u64],
) -> Result<Status, Fail> {
    let alloc = rt.alloc();
    let station = with_journal(rt, &[])?;
    let words = word(alloc, "replay")?;
    let directory = MemSource::new(alloc, DIRECTORY, directory)?;
    let capture = MemSource::new(alloc, DRAWN, capture)?;
    let mut lines = MemLines::new(alloc, &[])?;
    let Left { status, .. } = run_on(rt, &words, directory, capture, station, &mut lines);
    Ok(status)
}

#[test]
fn a_source_that_fails_ends_the_run(rt: HostRuntime) -> Result<(), Fail> {
    assert!(rt; replayed_from(&rt, &[], &[])? == Status::Done);
    assert!(rt; replayed_from(&rt, &[0], &[])? == Status::InputFault);
    assert!(rt; replayed_from(&rt, &[], &[0])? == Status::InputFault);
    Ok(())
}
