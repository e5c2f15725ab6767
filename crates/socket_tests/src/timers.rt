use crate::courses::moment;
use outside::Clock;
use outside_pace::{Pace, Running, SleepingPace};
use outside_system::SystemClock;
use std::test::Fail;

// Whether a timer waits as long as one of two ports is running.
fn is_held<P: Pace>(rt: &HostRuntime, pace: &mut P, running: &Running) -> bool {
    let begin = moment(rt);
    let first = pace.pause(1);
    let waited = moment(rt).saturating_sub(begin);
    running.end_one();
    let second = pace.pause(0);
    running.end_one();
    let over = !running.is_any() && !pace.pause(3_600);
    first && waited >= 900 && second && over && moment(rt).saturating_sub(begin) < 60_000
}

#[test]
fn sleeps_while_a_port_runs(rt: HostRuntime) -> Result<(), Fail> {
    let running = Running::new(rt.alloc(), 2)?;
    let mut pace = SleepingPace::new(&rt, running.share()?);
    assert!(rt; is_held(&rt, &mut pace, &running));
    Ok(())
}

// The system's clock stands after the day on which this was written.
#[test]
fn the_system_has_a_clock(rt: HostRuntime) -> Result<(), Fail> {
    let mut clock = SystemClock::new(rt.clone()?);
    let now = clock.now();
    assert!(rt; now > 1_700_000_000 && now < 100_000_000_000, "{now}");
    Ok(())
}
