use crate::pace::Pace;
use crate::running::Running;
use std::thread;
use std::time::{Clock, Duration};

/// A timer that sleeps, one second after the other. It answers `false` as soon as all ports of the program have ended.
#[derive(Drop)]
pub struct SleepingPace<T: Clock + Drop> {
    timer: T,
    running: Running,
}

impl<T: Clock + Drop> SleepingPace<T> {
    /// A timer by this clock, for a program with these ports.
    pub fn new(timer: T, running: Running) -> SleepingPace<T> {
        SleepingPace { timer, running }
    }
}

impl<T: Clock + Drop> Pace for SleepingPace<T> {
    fn pause(&mut self, seconds: u64) -> bool {
        for _ in 0..seconds {
            if !self.running.is_any() {
                return false;
            }
            thread::sleep(&self.timer, Duration::from_secs(1));
        }
        self.running.is_any()
    }
}
