use gts_heading::{Heading, MessageField, is_bbb};
use std::test::Fail;

const TEXT: [u8; 22] = *b"SMVG01 TVSV 280659 RRA";

#[test]
fn a_heading_is_written_as_it_was_read(rt: HostRuntime) -> Result<(), Fail> {
    let (heading, count) = Heading::read_bare(&TEXT).ok().ok_or("a heading")?;
    assert!(rt; count == 22);
    let mut written = [b'.'; 22];
    assert!(rt; heading.write(&mut written) == 22);
    assert!(rt; written == TEXT);
    Ok(())
}

#[test]
fn a_group_is_known_by_its_letters(rt: HostRuntime) {
    assert!(rt; is_bbb(*b"PZB"));
    assert!(rt; !is_bbb(*b"COR"));
}

#[test]
fn a_field_is_shown_by_its_name(rt: HostRuntime) -> Result<(), Fail> {
    let shown = MessageField::Cccc.to_string(rt.alloc())?;
    assert!(rt; shown.as_str() == "a message is refused by its field CCCC");
    Ok(())
}
