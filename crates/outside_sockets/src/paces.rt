//! The timer of a listener.
use crate::door::{Door, now};
use outside_pace::Pace;
use std::alloc::Global;
use std::net::Net;
use std::sync::Arc;
use std::time::Clock;

/// A timer that keeps its pauses by another one, second by second, and after each looks for connections of a listener that have
/// been kept too long. So that is done while all desks are inside requests too.
#[derive(Drop)]
pub struct PatrolPace<R: Net + Clock + Drop, P: Pace + Drop> {
    rt: R,
    door: Option<Arc<Door<R>, Global>>,
    pace: P,
}

impl<R: Net + Clock + Drop, P: Pace + Drop> PatrolPace<R, P> {
    /// The timer of a listener, if there is one.
    pub fn new(rt: R, door: Option<Arc<Door<R>, Global>>, pace: P) -> PatrolPace<R, P> {
        PatrolPace { rt, door, pace }
    }
}

impl<R: Net + Clock + Drop, P: Pace + Drop> Pace for PatrolPace<R, P> {
    fn pause(&mut self, seconds: u64) -> bool {
        for _ in 0..seconds {
            if !self.pace.pause(1) {
                return false;
            }
            if let Some(door) = &self.door {
                door.patrol(now(&self.rt));
            }
        }
        self.pace.pause(0)
    }
}
