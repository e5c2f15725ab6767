//! Hosts that failed in the last exchanges.
use crate::limits::{FAILURES, MOST_TROUBLES};
use std::alloc::{AllocError, Global};
use std::time::{Clock, Duration, Instant};
use texts::Text;

// A host and port with which exchanges have failed: how many of the last ones, and when the last of all did.
#[derive(Drop)]
struct Trouble {
    host: Text,
    port: u16,
    failures: u32,
    last: Instant,
}

impl Trouble {
    fn is_of(&self, host: &str, port: u16) -> bool {
        self.port == port && self.host.as_str() == host
    }
}

/// The hosts and ports with which exchanges have failed, at most 64 of them.
#[derive(Drop)]
pub(crate) struct Troubles {
    known: Vec<Trouble>,
}

impl Troubles {
    pub(crate) fn none(alloc: Global) -> Troubles {
        Troubles {
            known: Vec::new(alloc),
        }
    }

    /// Whether a host and port is to be left alone: the last exchanges with it failed, two at least, and less than `pause` ago.
    pub(crate) fn is_paused(
        &self,
        timer: &impl Clock,
        pause: Duration,
        host: &str,
        port: u16,
    ) -> bool {
        let Some(trouble) = self.known.iter().find(|t| t.is_of(host, port)) else {
            return false;
        };
        match trouble.last.elapsed(timer) {
            Ok(since) => trouble.failures >= FAILURES && since < pause,
            Err(_) => false,
        }
    }

    /// An exchange went through.
    pub(crate) fn forget(&mut self, host: &str, port: u16) {
        if let Some(trouble) = self.known.iter_mut().find(|t| t.is_of(host, port)) {
            trouble.failures = 0;
        }
    }

    /// An exchange failed. It is not remembered when memory runs out, or there is no clock, or 64 others are known.
    pub(crate) fn add(&mut self, alloc: Global, timer: &impl Clock, host: &str, port: u16) {
        let Ok(last) = Instant::now(timer) else {
            return;
        };
        match self.known.iter_mut().find(|t| t.is_of(host, port)) {
            Some(trouble) => {
                trouble.failures = trouble.failures.saturating_add(1);
                trouble.last = last;
            }
            None => {
                let _ = self.add_first(alloc, host, port, last);
            }
        }
    }

    fn add_first(
        &mut self,
        alloc: Global,
        host: &str,
        port: u16,
        last: Instant,
    ) -> Result<(), AllocError> {
        if self.known.len() < MOST_TROUBLES {
            let host = Text::new(alloc, host)?;
            self.known.push(Trouble {
                host,
                port,
                failures: 1,
                last,
            })?;
        }
        Ok(())
    }
}
