//! The statuses that a run ends with.

/// The command was done.
pub const DONE: u8 = 0;

/// The words are refused.
pub const REFUSED: u8 = 2;

/// The settings are refused.
pub const SETTINGS: u8 = 3;

/// The records or the store of blobs failed, or what is recorded cannot be read.
pub const STORE: u8 = 4;

/// A recorded file's blob is not what was recorded, so that the repository was not opened.
pub const DAMAGED: u8 = 5;

/// The port failed, the source of the settings, or the source of the stream.
pub const INPUT: u8 = 6;

/// `out` failed, or the sink of the stream.
pub const OUTPUT: u8 = 7;

/// Out of memory.
pub const NO_MEMORY: u8 = 8;

/// A check has named a file whose blob is not what was recorded.
pub const NAMED: u8 = 9;
