use gts_frame::{Decoder, FrameBuf, FrameField, Kind, Step, write_frame, write_frame_in};
use std::alloc::{AllocError, Global};
use std::test::Fail;

const BODY: &[u8] = b"SMVG01 TVSV 280000\r\r\n\r\r\n\x03";

const FRAME: &[u8] = b"00000035AN\x01\r\r\n001\r\r\nSMVG01 TVSV 280000\r\r\n\r\r\n\x03";

const FIVE: &[u8] = b"00000037AN\x01\r\r\n00001\r\r\nSMVG01 TVSV 280000\r\r\n\r\r\n\x03";

#[test]
fn a_bulletin_is_written_in_its_frame(rt: HostRuntime) -> Result<(), Fail> {
    let mut out = FrameBuf::new(rt.alloc())?;
    write_frame(Kind::An, 1, BODY, &mut out);
    assert!(rt; out.bytes() == FRAME);
    Ok(())
}

#[test]
fn a_number_of_five_digits_is_written(rt: HostRuntime) -> Result<(), Fail> {
    let mut out = FrameBuf::new(rt.alloc())?;
    write_frame_in(Kind::An, 1, 5, BODY, &mut out);
    assert!(rt; out.bytes() == FIVE);
    Ok(())
}

/// A front, so many bytes behind it, and ETX.
fn long_frame(alloc: Global, front: &[u8], inside: usize) -> Result<Vec<u8>, AllocError> {
    let mut bytes = front.to_vec(alloc)?;
    bytes.extend_from_slice(&vec![in alloc; b'x'; inside]?)?;
    bytes.extend_from_slice(b"\x03")?;
    Ok(bytes)
}

#[test]
fn a_message_has_as_many_as_500000_bytes(rt: HostRuntime) -> Result<(), Fail> {
    let mut decoder = Decoder::new(rt.alloc())?;
    let longest = long_frame(rt.alloc(), b"00500000AN\x01", 499_998)?;
    assert!(rt; decoder.take(&longest) == (500_010, Step::Frame(Kind::An)));
    assert!(rt; decoder.message() == &longest[10..]);
    Ok(())
}

#[test]
fn a_frame_comes_byte_by_byte(rt: HostRuntime) -> Result<(), Fail> {
    let mut decoder = Decoder::new(rt.alloc())?;
    let (last, before) = FRAME.split_last().ok_or("no bytes")?;
    for byte in before {
        assert!(rt; decoder.take(&[*byte]) == (1, Step::More));
    }
    assert!(rt; decoder.rest() == 44);
    assert!(rt; decoder.take(&[*last]) == (1, Step::Frame(Kind::An)));
    Ok(())
}

#[test]
fn a_decoder_that_lost_synchronisation_is_opened_again(rt: HostRuntime) -> Result<(), Fail> {
    let mut decoder = Decoder::new(rt.alloc())?;
    let lost = Step::Lost(FrameField::Length);
    assert!(rt; decoder.take(b"0000039 AN") == (8, lost));
    assert!(rt; decoder.take(FRAME) == (45, Step::Dropped));
    decoder.reopen();
    assert!(rt; decoder.take(FRAME) == (45, Step::Frame(Kind::An)));
    Ok(())
}
