use gts_alphabet::MOST_CIRCUITS;
use gts_lock::{Bell, Bells, Look};
use std::process::Abort;
use std::sync::Wait;
use std::test::Fail;
use std::thread;

#[test]
fn a_look_counts_rings_and_shows_that_the_bell_is_closed(rt: HostRuntime) -> Result<(), Fail> {
    let bell = Bell::new();
    assert!(rt;
        bell.look()
            == Look {
                closing: false,
                rings: 0
            }
    );
    bell.ring();
    bell.ring();
    assert!(rt;
        bell.look()
            == Look {
                closing: false,
                rings: 2
            }
    );
    bell.close();
    bell.close();
    assert!(rt;
        bell.look()
            == Look {
                closing: true,
                rings: 2
            }
    );
    bell.ring();
    assert!(rt;
        bell.look()
            == Look {
                closing: true,
                rings: 3
            }
    );
    Ok(())
}

// Waits until the bell is closed.
fn wait_for_the_end<R: Wait>(rt: &R, bell: &Bell) -> u64 {
    for _ in rt.forever() {
        let seen = bell.look();
        if seen.closing {
            return seen.rings;
        }
        bell.wait(rt, seen);
    }
    unreachable!()
}

// Rings a hundred times, and closes the bell.
fn ring_to_the_end(bell: &Bell) {
    for _ in 0..100 {
        bell.ring();
    }
    bell.close();
}

#[test]
fn who_waits_at_a_bell_goes_on_once_another_thread_closes_it(rt: HostRuntime) -> Result<(), Fail> {
    let bell = Bell::new();
    let shared = &bell;
    let runtime = &rt;
    let (rings, ()) = thread::join(
        &rt,
        || wait_for_the_end(runtime, shared),
        || ring_to_the_end(shared),
    );
    assert!(rt; rings == 100);
    Ok(())
}

// The bells of circuit 2 and of the last one were rung so often, and no other.
fn were_rung(rt: &impl Abort, bells: &Bells, closing: bool, rings: u64) {
    for c in 0..MOST_CIRCUITS {
        let rings = if c == 2 || c + 1 == MOST_CIRCUITS {
            rings
        } else {
            0
        };
        assert!(rt;
            bells.bell(c as u32).look() == Look { closing, rings },
            "at {c}"
        );
    }
}

#[test]
fn bells_that_are_marked_are_rung_once(rt: HostRuntime) -> Result<(), Fail> {
    let bells = Bells::new();
    bells.mark(2);
    bells.mark(MOST_CIRCUITS as u32 - 1);
    bells.mark(2);
    were_rung(&rt, &bells, false, 0);
    bells.ring_marked();
    were_rung(&rt, &bells, false, 1);
    bells.ring_marked();
    were_rung(&rt, &bells, false, 1);
    bells.mark(2);
    bells.mark(MOST_CIRCUITS as u32 - 1);
    bells.close();
    bells.ring_marked();
    were_rung(&rt, &bells, true, 2);
    Ok(())
}

#[test]
fn all_bells_are_rung(rt: HostRuntime) -> Result<(), Fail> {
    let bells = Bells::new();
    bells.ring_all();
    for c in 0..MOST_CIRCUITS {
        assert!(rt; bells.bell(c as u32).look().rings == 1, "at {c}");
    }
    Ok(())
}
