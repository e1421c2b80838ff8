use gts_prioq::PrioQueue;
use std::test::Fail;

#[test]
fn the_first_of_the_smallest_level_goes_next(rt: HostRuntime) -> Result<(), Fail> {
    let mut queue = PrioQueue::new(rt.alloc());
    queue.reserve(3)?;
    queue.put(3, 0);
    queue.reserve(1)?;
    queue.put(1, 1);
    assert!(rt; queue.len() == 2);
    assert!(rt; queue.get(3, 0) == Some(0));
    assert!(rt; queue.peek() == Some(1));
    assert!(rt; queue.pop() == Some(1));
    Ok(())
}
