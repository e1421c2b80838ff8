use gts_directory::{CircuitSet, Directory};
use gts_dirfile::{ReadFault, read_directory};
use gts_heading::Heading;
use std::alloc::Global;
use std::test::Fail;

/// A file of two circuits.
const FILE: &str = "# Two circuits to neighbours.\n\
    centre = \"TVSV\"\n\
    limit = 1048576\n\
    [[circuit]]\n\
    name = \"BARB\"\n\
    peer = \"TBPB\"\n\
    kept = 20\n\
    digits = 5\n\
    input = 4001\n\
    output = 4002\n\
    [[circuit]]\n\
    name = \"MARTIN\"\n\
    peer = \"TFFF\"\n\
    [[rule]]\n\
    heading = \"SM**** ****\"\n\
    to = [\"MARTIN\", \"BARB\"]\n\
    [[level]]\n\
    tt = \"S*\"\n\
    level = 1\n";

/// The SHA-256 of that file, by another program.
const MARK: [u8; 32] = [
    0xf8, 0x23, 0xed, 0x15, 0x24, 0x36, 0x19, 0xcd, 0x48, 0x12, 0xd4, 0xa1, 0x8f, 0x66, 0x8d, 0x45,
    0xc7, 0xeb, 0x72, 0x8a, 0x51, 0xc9, 0x08, 0x57, 0xc6, 0xf8, 0xe2, 0x61, 0xca, 0x2e, 0x76, 0x2e,
];

/// The circuits that a report from circuit 0 goes to, and its level.
fn routed(directory: &Directory) -> Option<(CircuitSet, u8)> {
    match Heading::read_bare(b"SMVG01 TVSV 280000") {
        Ok((heading, _)) if directory.circuits() > 0 => {
            Some((directory.names(0, &heading), directory.level(&heading)))
        }
        _ => None,
    }
}

/// The directory of the file.
fn read(alloc: Global) -> Result<Directory, ReadFault> {
    read_directory(alloc, FILE.as_bytes())
}

#[test]
fn a_file_is_read_as_a_directory(rt: HostRuntime) -> Result<(), Fail> {
    let directory = read(rt.alloc())?;
    assert!(rt; directory.circuits() == 2);
    assert!(rt; directory.limit() == 1_048_576);
    assert!(rt; directory.mark() == MARK);
    assert!(rt; routed(&directory) == Some((CircuitSet::NONE.with(1), 1)));
    Ok(())
}

#[test]
fn a_fault_says_what_it_is(rt: HostRuntime) -> Result<(), Fail> {
    let fault = read_directory(rt.alloc(), b"").err().ok_or("a fault")?;
    let said = fault.to_string(rt.alloc())?;
    assert!(rt; said.as_str() == "bad key in top row 0");
    Ok(())
}
