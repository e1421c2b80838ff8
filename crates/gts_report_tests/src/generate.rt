use gts_generate::Generated;
use gts_traits::Source;
use sha2::{Digest, Sha256};
use std::test::Fail;

/// The SHA-256 of the capture of a day of 200 messages, as a plain program makes it: `generate_fold capture 200` in `bench/`.
const CAPTURE_OF_200: [u8; 32] = [
    0xbe, 0x40, 0xe2, 0x18, 0xaa, 0x9b, 0x90, 0xa8, 0x80, 0x06, 0x4e, 0xed, 0xfa, 0xd0, 0x49, 0x81,
    0x7c, 0x4d, 0x5f, 0xc0, 0x7f, 0x74, 0x0d, 0x47, 0x50, 0x92, 0xc3, 0x58, 0xdf, 0xb9, 0x7f, 0xca,
];

#[test]
fn the_capture_of_200_messages_is_that_of_a_plain_program(rt: HostRuntime) -> Result<(), Fail> {
    let mut capture = Generated::new(200);
    let mut hasher = Sha256::new();
    let mut into = [0; 1000];
    for _ in 0..1000 {
        let count = capture.read(&mut into)?;
        hasher.update(&into[..count]);
    }
    assert!(rt; hasher.finalize() == CAPTURE_OF_200);
    Ok(())
}
