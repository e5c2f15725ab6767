//! The line: the connections that no desk has, and that are to be looked at. Each stands in it once, and one desk takes it.
use crate::limits::PLACES;
use std::alloc::{AllocError, Global};
use std::sync::atomic::{AtomicU64, Ordering};

// How many numbers stand in one word.
const WIDTH: usize = 64;

/// A mark for each number of a descriptor. It takes no memory once it was made.
///
/// A mark may outlive its connection: whoever takes it finds the place empty, or another connection there, and looks at that.
#[derive(Drop)]
pub struct Line {
    words: Vec<AtomicU64>,
    // The last word that was ever marked.
    last: AtomicU64,
    // The number after the one that was taken last: the marks are taken in a round.
    next: AtomicU64,
}

impl Line {
    /// Nobody yet.
    pub fn new(alloc: Global) -> Result<Line, AllocError> {
        let mut words = Vec::with_capacity(alloc, PLACES / WIDTH)?;
        for _ in 0..PLACES / WIDTH {
            words.push(AtomicU64::new(0))?;
        }
        Ok(Line {
            words,
            last: AtomicU64::new(0),
            next: AtomicU64::new(0),
        })
    }

    /// Adds one. Whether there is a place for its number.
    pub fn add(&self, key: u64) -> bool {
        let at = key / 64;
        let Some(word) = usize::try_from(at).ok().and_then(|at| self.words.get(at)) else {
            return false;
        };
        if self.last.load(Ordering::SeqCst) < at {
            let _ = self.last.fetch_max(at, Ordering::SeqCst);
        }
        let _ = word.fetch_or(1 << (key % 64), Ordering::SeqCst);
        true
    }

    /// Takes one out, whose descriptor is still open.
    pub fn remove(&self, key: u64) {
        if let Some(word) = usize::try_from(key / 64)
            .ok()
            .and_then(|at| self.words.get(at))
        {
            let _ = word.fetch_and(!(1 << (key % 64)), Ordering::SeqCst);
        }
    }

    /// Whether nobody stands in it.
    pub fn is_empty(&self) -> bool {
        let last = self.last.load(Ordering::SeqCst);
        for word in self
            .words
            .iter()
            .take(usize::try_from(last).unwrap_or(0).saturating_add(1))
        {
            if word.load(Ordering::SeqCst) != 0 {
                return false;
            }
        }
        true
    }

    /// How many stand in it.
    pub fn count(&self) -> u64 {
        let mut count = 0u64;
        let last = self.last.load(Ordering::SeqCst);
        for word in self
            .words
            .iter()
            .take(usize::try_from(last).unwrap_or(0).saturating_add(1))
        {
            count = count.saturating_add(u64::from(word.load(Ordering::SeqCst).count_ones()));
        }
        count
    }

    // Takes the first mark of a word among these.
    fn take_of(&self, at: u64, among: u64) -> Option<u64> {
        let word = self.words.get(usize::try_from(at).ok()?)?;
        for _ in 0..WIDTH {
            let found = word.load(Ordering::SeqCst) & among;
            if found == 0 {
                return None;
            }
            let place = found.trailing_zeros() & 63;
            let mark = 1u64 << place;
            if word.fetch_and(!mark, Ordering::SeqCst) & mark != 0 {
                let key = at.saturating_mul(64).saturating_add(u64::from(place));
                self.next.store(key.saturating_add(1), Ordering::SeqCst);
                return Some(key);
            }
        }
        None
    }

    /// Takes the one whose turn it is.
    pub fn take(&self) -> Option<u64> {
        let last = self.last.load(Ordering::SeqCst).min(63);
        let mut next = self.next.load(Ordering::SeqCst);
        if next / 64 > last {
            next = 0;
        }
        let first = next / 64;
        let ahead = u64::MAX << (next % 64);
        if let Some(key) = self.take_of(first, ahead) {
            return Some(key);
        }
        for at in 0..=last {
            let at = first.saturating_add(1).saturating_add(at) % last.saturating_add(1);
            let key = if at == first {
                self.take_of(at, !ahead)
            } else {
                self.take_of(at, u64::MAX)
            };
            if key.is_some() {
                return key;
            }
        }
        None
    }
}
