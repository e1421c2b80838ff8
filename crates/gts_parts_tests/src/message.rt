use gts_message::{Body, Message, MessageField};
use std::test::Fail;

const MESSAGE: &[u8] = b"\x01\r\r\n00123\r\r\nSMVG01 TVSV 280659 RRA \r\r\nNIL=\r\r\n\x03";

#[test]
fn a_message_is_taken_apart(rt: HostRuntime) -> Result<(), Fail> {
    let parts = Message::split(MESSAGE)?;
    assert!(rt; parts.number == 123);
    assert!(rt; parts.digits == 5);
    assert!(rt; parts.text == b"NIL=".as_slice());
    let (heading, text) = Body::split(parts.body)?;
    assert!(rt; heading == parts.heading);
    assert!(rt; text == b"NIL=".as_slice());
    Ok(())
}

#[test]
fn the_field_at_fault_is_named(rt: HostRuntime) {
    let found = Message::split(b"\x01\r\r\n001\r\r\nSMVG01 TVSV 280000\r\r\n\x03");
    assert!(rt; matches!(found, Err(field) if field == MessageField::End));
}
