use gts_dup::DupTable;
use gts_heading::Heading;
use std::test::Fail;

/// `printf 'SMVG01 TVSV 280000\r\r\nNIL=' | sha256sum`.
const REPORT: [u8; 32] = [
    0x26, 0x89, 0x39, 0xc4, 0xa5, 0x76, 0x80, 0x09, 0xbc, 0x8f, 0x6d, 0x73, 0x21, 0x14, 0xe3, 0x13,
    0xd5, 0xc9, 0x45, 0x3c, 0xee, 0x1a, 0x22, 0xee, 0x40, 0x2d, 0x52, 0x6d, 0xb1, 0x50, 0xac, 0xfe,
];

#[test]
fn the_latest_position_of_a_digest_is_found(rt: HostRuntime) -> Result<(), Fail> {
    let mut table = DupTable::new(rt.alloc(), 2)?;
    assert!(rt; table.latest(&[7; 32], 10) == None);
    table.reserve()?;
    table.put([7; 32], 0);
    assert!(rt; table.latest(&[7; 32], 10) == Some(0));
    Ok(())
}

#[test]
fn a_digest_is_that_of_heading_and_text(rt: HostRuntime) {
    if let Ok((heading, _)) = Heading::read_bare(b"SMVG01 TVSV 280000") {
        assert!(rt; DupTable::digest(&heading, b"NIL=") == REPORT);
    }
}
