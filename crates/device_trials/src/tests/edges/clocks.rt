//! Clocks in memory.
use io_edge::{Clock, MemClock, RealClock};
use std::test::Fail;

fn sum_of_three<C: Clock>(clock: &mut C) -> i128 {
    i128::from(clock.now()) + i128::from(clock.now()) + i128::from(clock.now())
}

#[test]
fn a_clock_repeats_its_last_moment(rt: HostRuntime) -> Result<(), Fail> {
    let mut clock = MemClock::new(vec![in rt.alloc(); 5, -7]?);
    assert_eq!(rt; sum_of_three(&mut clock), -9);
    let mut unset = MemClock::new(Vec::new(rt.alloc()));
    assert_eq!(rt; unset.now(), 0);
    let year_2000 = 946_684_800_000;
    assert!(rt; sum_of_three(&mut RealClock::new(&rt)) > 3 * year_2000);
    Ok(())
}
