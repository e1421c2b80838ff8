use gts_heading::Heading;
use gts_number::range_in;
use gts_request::{Item, Request};
use std::alloc::{AllocError, Global};
use std::test::Fail;

const HEADING: Heading = Heading {
    tt: *b"SM",
    aa: *b"VG",
    ii: 1,
    cccc: *b"TVSV",
    day: 28,
    hour: 0,
    minute: 0,
    bbb: None,
};

#[test]
fn items_come_in_the_order_of_the_text(rt: HostRuntime) -> Result<(), Fail> {
    let request = Request::read(b"BBBB\r\r\nSQN 999-001=\r\r\nAHD SMVG01 TVSV 280000=")?;
    let mut items = request.items();
    let number = Item::Number {
        first: 999,
        last: 1,
        digits: 3,
    };
    assert!(rt; items.next() == Some(number));
    assert!(rt; items.next() == Some(Item::Heading(HEADING)));
    assert!(rt; items.next() == None);
    Ok(())
}

/// A request for one number and 41,661 times all of them.
fn largest(alloc: Global) -> Result<Vec<u8>, AllocError> {
    let mut text = Vec::from_slice(alloc, b"BBBB\r\r\nSQN 00000")?;
    for _ in 0..41_661 {
        text.extend_from_slice(b"/00001-00000")?;
    }
    text.push(b'=')?;
    Ok(text)
}

/// How many numbers an item asks for.
fn count(item: &Item) -> u64 {
    match *item {
        Item::Number {
            first,
            last,
            digits: 5,
        } if first < 100_000 && last < 100_000 => u64::from(range_in(first, last, 5)),
        _ => 0,
    }
}

#[test]
fn four_billion_numbers_are_counted(rt: HostRuntime) -> Result<(), Fail> {
    let text = largest(rt.alloc())?;
    let mut asked = 0u64;
    for item in Request::read(&text)?.items() {
        asked = asked.saturating_add(count(&item));
    }
    assert!(rt; asked == 4_166_100_001);
    Ok(())
}
