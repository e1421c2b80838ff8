use gts_event::{Bulletin, Bulletins, Bytes, LONGEST_RECEIPT, Outcome, Refusal, receipt};
use gts_frame::Kind;
use gts_heading::{Heading, MessageField};
use std::alloc::Global;
use std::test::Fail;

#[test]
fn a_receipt_is_a_line_for_the_operator(rt: HostRuntime) -> Result<(), Fail> {
    let read = Heading::read_bare(b"SMVG01 TVSV 280000 RRA");
    let (heading, _) = read.ok().ok_or("a heading")?;
    let accepted = Outcome::Accepted {
        position: 41,
        circuits: 1,
    };
    let mut line = [0; LONGEST_RECEIPT];
    let count = receipt(0, &accepted, Some(&heading), &mut line);
    assert!(rt; &line[..count] == b"ACC 0 41 1 SMVG01 TVSV 280000 RRA\n".as_slice());
    Ok(())
}

#[test]
fn a_refusal_has_its_name(rt: HostRuntime) {
    let mut line = [0; LONGEST_RECEIPT];
    let refused = Outcome::Refused(Refusal::Message(MessageField::HeadingStart));
    let count = receipt(0, &refused, None, &mut line);
    assert!(rt; &line[..count] == b"REF 0 HeadingStart\n".as_slice());
}

/// The bytes A and B.
fn two_bytes(alloc: Global) -> Result<Bytes, Fail> {
    let mut bytes = Bytes::new();
    bytes.push(alloc, b'A')?;
    bytes.push(alloc, b'B')?;
    Ok(bytes)
}

#[test]
fn lists_grow_at_their_end(rt: HostRuntime) -> Result<(), Fail> {
    let body = two_bytes(rt.alloc())?;
    assert!(rt; body.len() == 2);
    assert!(rt; body.get(1) == Some(&b'B'));
    assert!(rt; body.as_slice() == b"AB".as_slice());
    let mut bulletins = Bulletins::new();
    let bulletin = Bulletin {
        position: 0,
        from: 1,
        kind: Kind::An,
        body,
    };
    bulletins.push(rt.alloc(), bulletin)?;
    let items = bulletins.into_vec(rt.alloc());
    assert!(rt; Bulletins::from_vec(items).len() == 1);
    Ok(())
}
