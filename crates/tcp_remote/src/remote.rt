ghost use Rattle.std.specs.Prelude.{◌≡◌, ◌≤◌, ◌+◌, length, IfOk};
ghost use Rattle.outside.specs.Faults.{Rose};
ghost use Rattle.tcp_remote.specs.Counted.{untold};

use crate::connecting::connect;
use crate::limits::Limits;
use crate::talking::{listen, say};
use crate::troubles::Troubles;
use outside_remote::{Remote, RemoteFault};
use std::alloc::Global;
use std::marker::Model;
use std::net::Net;
use std::time::{Clock, Duration};
use texts::Bytes;

/// Remote servers over TCP. Contracts see how many exchanges have failed, a count that stands still at 2^64 - 1.
///
/// A host is a name, which the system's resolver looks up, or an address; at most four addresses are tried. An exchange fails
/// where none is reached, and where a write, a read or the whole takes longer than the limits allow. After two exchanges with
/// a host and port that failed, one after the other, each further one fails at once until the pause is over; then one is
/// tried. Names are looked up outside these limits.
#[derive(Drop)]
pub struct TcpRemote<R: Net + Clock + Drop> {
    rt: R,
    limits: Limits,
    troubles: Troubles,
    faults: u64,
}

impl<R: Net + Clock + Drop> Model for TcpRemote<R> {
    ghost use Rattle.std.specs.Prelude.{ℕ};

    ghost Value = { ℕ };

    ghost view = { λ r. r.faults };
}

impl<R: Net + Clock + Drop> TcpRemote<R> {
    /// Remote servers that are reached over this network, with these limits.
    pub fn new(alloc: Global, rt: R, limits: Limits) -> TcpRemote<R>
        ensures { result ≡ 0 }
    {
        TcpRemote {
            rt,
            limits,
            troubles: Troubles::none(alloc),
            faults: 0,
        }
    }

    /// How many exchanges have failed.
    pub fn faults(&self) -> u64
        ensures { result ≡ self.now }
    {
        self.faults
    }

    /// One exchange, whatever failed before.
    fn try_once(
        &self,
        alloc: Global,
        host: &str,
        port: u16,
        request: &[u8],
        limit: u64,
    ) -> Result<Bytes, RemoteFault>
        ensures { IfOk result (λ bytes. length bytes ≤ limit + 1) }
    {
        let Some((mut stream, deadline)) = connect(&self.rt, self.limits, host, port) else {
            return Err(RemoteFault::Failed);
        };
        say(&mut stream, &self.rt, &deadline, request)?;
        listen(alloc, &mut stream, &self.rt, &deadline, limit)
    }

    fn count_fault(&mut self)
        ensures { Rose self.old self.new }
    {
        self.faults = self.faults.saturating_add(1);
    }
}

impl<R: Net + Clock + Drop> Remote for TcpRemote<R> {
    ghost sees = { untold };

    #[tactic(auto, using(crate::proofs::Untold::untold_exchange))]
    fn exchange(
        &mut self,
        alloc: Global,
        host: &str,
        port: u16,
        request: &[u8],
        limit: u64,
    ) -> Result<Bytes, RemoteFault> {
        let pause = Duration::from_millis(self.limits.pause);
        if self.troubles.is_paused(&self.rt, pause, host, port) {
            self.count_fault();
            return Err(RemoteFault::Failed);
        }
        match self.try_once(alloc, host, port, request, limit) {
            Ok(bytes) => {
                self.troubles.forget(host, port);
                Ok(bytes)
            }
            Err(RemoteFault::Failed) => {
                self.troubles.add(alloc, &self.rt, host, port);
                self.count_fault();
                Err(RemoteFault::Failed)
            }
            Err(RemoteFault::NoMemory) => Err(RemoteFault::NoMemory),
        }
    }
}
