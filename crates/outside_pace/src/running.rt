use std::alloc::{AllocError, Global};
use std::sync::Arc;
use std::sync::atomic::{AtomicU64, Ordering};

/// How many of a program's ports have ended: all that share it see the same.
#[derive(Drop)]
pub struct Running {
    ports: u64,
    ended: Arc<AtomicU64, Global>,
}

impl Running {
    /// So many ports, none of which has ended.
    pub fn new(alloc: Global, ports: u64) -> Result<Running, AllocError> {
        Ok(Running {
            ports,
            ended: Arc::new(alloc, AtomicU64::new(0))?,
        })
    }

    /// The same for one more owner.
    pub fn share(&self) -> Result<Running, AllocError> {
        Ok(Running {
            ports: self.ports,
            ended: Arc::try_clone(&self.ended)?,
        })
    }

    /// One more port has ended.
    pub fn end_one(&self) {
        self.ended.fetch_add(1, Ordering::SeqCst);
    }

    /// Whether a port has not ended yet.
    pub fn is_any(&self) -> bool {
        self.ended.load(Ordering::SeqCst) < self.ports
    }
}
