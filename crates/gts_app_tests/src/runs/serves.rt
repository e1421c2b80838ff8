//! The circuits served over lines in memory.

use super::*;
use gts_traits::{Channel, JournalFile};

/// Lines on which the neighbour on circuit 0 sends two bulletins. The listed calls of `open` fail, and the listed writes on
/// circuit 1.
fn lines_with(alloc: Global, opens: &[u64], writes: &[u64]) -> Result<MemLines, Fail> {
    let mut lines = MemLines::new(alloc, opens)?;
    lines.feed(0, &[FRAME, NEXT_FRAME].concat(alloc)?)?;
    lines.sink_fails(1, writes)?;
    Ok(lines)
}

/// Serves these lines over a new journal.
fn served<R: AllocGlobal + Threads + Wait + Sync>(
    rt: &R,
    words: &WordList,
    lines: &mut MemLines,
) -> Result<Left, Fail> {
    let alloc = rt.alloc();
    let station = with_journal(rt, &[])?;
    let directory = MemSource::new(alloc, DIRECTORY, &[])?;
    let capture = MemSource::new(alloc, b"", &[])?;
    Ok(run_on(rt, words, directory, capture, station, lines))
}

/// Calls of `open` and writes that fail, how serving ends, the bytes of the journal, and how many bytes were sent.
const ENDS: [(&[u64], &[u64], Status, usize, usize); 3] = [
    (&[], &[], Status::Done, 309, 98),
    (&[], &[0], Status::LineFault { c: 1 }, 253, 0),
    (&[0], &[], Status::LineFault { c: 0 }, 41, 0),
];

#[test]
fn what_comes_on_a_circuit_goes_out_on_the_other(rt: HostRuntime) -> Result<(), Fail> {
    let words = word(rt.alloc(), "serve")?;
    for (opens, writes, wanted, journal, sent) in ENDS {
        let mut lines = lines_with(rt.alloc(), opens, writes)?;
        let Left { status, station } = served(&rt, &words, &mut lines)?;
        assert!(rt; status == wanted);
        assert!(rt; station.file(JournalFile::FIRST).len() == journal);
        assert!(rt; lines.sent(0) == b"".as_slice());
        assert!(rt; lines.sent(1).len() == sent);
    }
    Ok(())
}

#[test]
fn a_connection_that_lost_synchronisation_is_followed_by_the_next(
    rt: HostRuntime,
) -> Result<(), Fail> {
    let alloc = rt.alloc();
    let mut words = word(alloc, "serve")?;
    words.push(alloc, "2")?;
    let mut lines = MemLines::new(alloc, &[])?;
    lines.feed(0, b"0000039 AN")?;
    lines.add(0, FRAME)?;
    let Left { status, station } = served(&rt, &words, &mut lines)?;
    assert!(rt; status == Status::Done);
    assert!(rt;
        station
            .said(Channel::OPERATOR)
            .starts_with(b"LOS 0 Length\nACC 0 0 1 ")
    );
    assert!(rt; lines.sent(1) == FRAME);
    Ok(())
}
