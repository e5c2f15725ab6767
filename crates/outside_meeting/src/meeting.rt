//! A meeting of threads: each comes once, and looks whether all have come.
use std::sync::atomic::{AtomicU64, Ordering};
use std::thread::yield_now;

// How often one who has come looks whether all have, and lets other threads run between: a quarter of a second and more.
const LOOKS: u64 = 1_000_000;

// How many are to meet, and how many have come.
#[derive(Drop)]
pub struct Meeting {
    members: u64,
    come: AtomicU64,
}

impl Meeting {
    // So many are to meet, and none has come.
    pub fn new(members: u64) -> Meeting {
        Meeting {
            members,
            come: AtomicU64::new(0),
        }
    }

    // One more comes. Says whether all had come before it gave up looking.
    pub fn attend(&self) -> bool {
        self.come.fetch_add(1, Ordering::SeqCst);
        for _ in 0..LOOKS {
            if self.come.load(Ordering::SeqCst) >= self.members {
                return true;
            }
            yield_now();
        }
        false
    }
}
