ghost use Rattle.outside_remote.specs.Exchanges.{IsExchange, Sees, asked_so};

use crate::exchange::RemoteFault;
use std::alloc::Global;
use texts::Bytes;

/// Remote servers, each reached by its host and port.
pub trait Remote {
    // The answers left and the exchanges made, where it tells them, and how many exchanges have failed.
    ghost sees: { Self → Sees };

    /// Sends a request over a connection of its own, and gives the bytes that come up to the peer's end: the first `limit`
    /// and one more, where there are so many.
    fn exchange(
        &mut self,
        alloc: Global,
        host: &str,
        port: u16,
        request: &[u8],
        limit: u64,
    ) -> Result<Bytes, RemoteFault>
        ensures { IsExchange (asked_so host.now port request.now limit) result (sees self.old) (sees self.new) };
}
