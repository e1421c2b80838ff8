use gts_record::{Record, decode, encode};

const DRAW: Record<'static> = Record::Draw {
    circuit: 3,
    position: 258,
    index: 1,
};

const DRAW_BYTES: [u8; 23] = *b"D\x03\0\0\0\0\0\0\0\0\0\0\0\x01\x02\0\0\0\0\0\0\0\x01";

#[test]
fn a_record_is_read_as_it_was_written(rt: HostRuntime) {
    let mut draw = [b'.'; 25];
    assert!(rt; encode(&DRAW, &mut draw) == 23);
    assert!(rt; draw.starts_with(&DRAW_BYTES));
    assert!(rt; decode(&draw) == Some((DRAW, 23)));
    assert!(rt; decode(&DRAW_BYTES[..22]).is_none());
}
