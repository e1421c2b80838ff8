ghost use Rattle.std.specs.Prelude.{IfOk, ◌≡◌, ◌<◌, length};

use gts_frame::Kind;
use gts_heading::Heading;
use gts_store::Store;
use std::alloc::Global;
use std::test::Fail;

const BODY: &[u8] = b"SMVG01 TVSV 280000\r\r\nNIL=\r\r\n\x03";

/// Whether the bulletin is there.
fn is_put(store: &Store) -> bool {
    store.body(0) == Some((0, Kind::Bi, BODY))
}

/// A store to which the bulletin was put, and which circuit 1 has drawn. Circuit 0 skipped its first draws.
fn drawn(alloc: Global, heading: Heading) -> Result<Store, Fail>
    ensures { IfOk result (λ store. length store.circuits ≡ 2) }
{
    let mut store = Store::new(alloc, &[1, 1], &[3, 5])?;
    store.reserve(alloc, BODY)?;
    store.put(0, heading, 0, Kind::Bi, 1);
    if !is_put(&store) {
        return Err(Fail::from("it isn't there"));
    }
    store.hold(0);
    store.release(0);
    store.drew(1, 0);
    store.skip(0, 1000);
    Ok(store)
}

/// Where circuit 1 finds its draw, by the index, by the number and by the heading, and how many it keeps.
fn found(store: &Store, heading: &Heading) -> ([Option<u64>; 3], u64)
    requires { 1 < length store.now.circuits }
{
    let indices = [
        store.position_of(1, 0),
        store.index_of_number(1, 1, 5),
        store.index_of_heading(1, heading),
    ];
    (indices, store.count_kept(1))
}

#[test]
fn a_bulletin_is_put_drawn_and_freed(rt: HostRuntime) -> Result<(), Fail> {
    let Ok((heading, _)) = Heading::read_bare(BODY) else {
        return Ok(());
    };
    let store = drawn(rt.alloc(), heading)?;
    assert!(rt; found(&store, &heading) == ([Some(0); 3], 1));
    assert!(rt; store.draws(0) == 1000);
    assert!(rt; store.position_of(0, 999).is_none());
    Ok(())
}
