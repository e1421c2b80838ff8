use gts_number::{latest, latest_in, number_in, number_of, range_in, range_length};

#[test]
fn the_first_number_follows_the_last(rt: HostRuntime) {
    assert!(rt; number_of(999) == 0);
    assert!(rt; number_in(99_999, 5) == 0);
    assert!(rt; range_length(999, 1) == 3);
    assert!(rt; range_in(99_999, 1, 5) == 3);
}

#[test]
fn only_the_kept_draws_can_be_asked_for(rt: HostRuntime) {
    assert!(rt; latest(1001, 1000, 1) == Some(1000));
    assert!(rt; latest(1001, 2, 999) == None);
    assert!(rt; latest_in(100_001, 65_536, 34_466, 5) == Some(34_465));
    assert!(rt; latest_in(100_001, 65_536, 34_465, 5) == None);
}
