use gts_heading::Heading;
use gts_segments::{NoMemory, SegmentStatus, SegmentTable};
use std::alloc::Global;
use std::test::Fail;

const SET: &[u8] = b"SMVG01 TVSV 280000";

const FIRST: &[u8] = b"SMVG01 TVSV 280000 PAA";

const LAST_OF_TWO: &[u8] = b"SMVG01 TVSV 280000 PZB";

const LAST_OF_THREE: &[u8] = b"SMVG01 TVSV 280000 PZC";

/// Notes the heading that a text begins with.
fn note(table: &mut SegmentTable, text: &[u8]) -> Result<(), NoMemory> {
    match Heading::read_bare(text) {
        Ok((heading, _)) => table.note(&heading),
        Err(_) => Ok(()),
    }
}

/// The status of a set where these headings were noted.
fn status_of(alloc: Global, texts: &[&[u8]]) -> Result<SegmentStatus, NoMemory> {
    let mut table = SegmentTable::new(alloc);
    for text in texts {
        note(&mut table, text)?;
    }
    match Heading::read_bare(SET) {
        Ok((heading, _)) => Ok(table.status(&heading)),
        Err(_) => Ok(SegmentStatus::Missing),
    }
}

#[test]
fn a_set_is_missing_partial_or_complete(rt: HostRuntime) -> Result<(), Fail> {
    let alloc = rt.alloc();
    assert!(rt; status_of(alloc, &[])? == SegmentStatus::Missing);
    let complete = SegmentStatus::Complete(2);
    assert!(rt; status_of(alloc, &[LAST_OF_TWO, FIRST])? == complete);
    let partial = SegmentStatus::Partial(2);
    assert!(rt; status_of(alloc, &[FIRST, LAST_OF_THREE])? == partial);
    Ok(())
}
