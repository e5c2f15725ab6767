//! One exchange with a remote, as a plain value.
use texts::{Bytes, Text};

/// Why an exchange gave nothing.
#[derive(Clone, Copy, Debug, PartialEq, Eq)]
pub enum RemoteFault {
    /// The remote was not reached, or its answer did not come in time. The count of faults rose in that call, or stands at
    /// 2^64 - 1.
    Failed,
    /// There was no memory left.
    NoMemory,
}

/// What a remote is asked: a request to the port of a host, and how many bytes of the answer are wanted at most. Of a longer
/// answer one byte more comes.
#[derive(Drop)]
pub struct Asked {
    pub host: Text,
    pub port: u16,
    pub request: Bytes,
    pub limit: u64,
}

/// An exchange that was made: what was asked, and the bytes of the answer, or why there are none.
#[derive(Drop)]
pub struct Exchange {
    pub asked: Asked,
    pub gave: Result<Bytes, RemoteFault>,
}
