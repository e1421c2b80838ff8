use gts_bbb::Bbb;

#[test]
fn a_group_is_read_by_its_kind(rt: HostRuntime) {
    assert!(rt; Bbb::read(*b"PZB") == Some(Bbb::LastSegment { letter: b'B' }));
    assert!(rt; Bbb::read(*b"COR") == None);
    assert!(rt; Bbb::Segment { place: 1 }.segment_place() == Some(1));
}
