//! A connection to a host.
use crate::limits::{Deadline, Limits, MOST_ADDRESSES};
use std::net::{Net, ToSocketAddrs};
use std::time::Clock;

/// A connection to the first address of a host that is reached in time, and how long the exchange over it may take. The
/// system's resolver finds the addresses, in its own time.
pub(crate) fn connect<R: Net + Clock>(
    rt: &R,
    limits: Limits,
    host: &str,
    port: u16,
) -> Option<(R::Stream, Deadline)> {
    let addresses = (host, port).to_socket_addrs(rt).ok()?;
    let deadline = Deadline::begin(rt, limits)?;
    for address in addresses.take(MOST_ADDRESSES) {
        let patience = deadline.to_connect(rt)?;
        if let Ok(stream) = rt.connect_timeout(address, patience) {
            return Some((stream, deadline));
        }
    }
    None
}
