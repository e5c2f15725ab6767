use texts::Text;

/// What the words of a command line ask for.
#[derive(Clone, Copy, Debug, PartialEq, Eq)]
pub enum Action {
    /// To answer the requests on standard input.
    Replay,
    /// To look whether all recorded files are there as they were recorded.
    Check,
    /// To purge the repositories, and to remove what is garbage.
    Clean,
    /// To answer the requests of any number of connections.
    Serve,
    /// To answer so many requests that are made of numbers, the first of them following this one.
    Demo { from: u16, calls: u32 },
    /// Nothing: the words are refused.
    Nothing,
}

/// A command line that was read. Fields that a command has no word for stay empty, or 0.
#[derive(Drop)]
pub struct Wanted {
    pub command: Action,
    /// The path of the file with the settings.
    pub settings: Text,
    /// The path of the folder with what is kept.
    pub folder: Text,
    /// The moment at which the clock begins, in seconds since 1970 in UTC, and by how many seconds it goes on with each look.
    pub at: u64,
    pub step: u64,
    /// The port of 127.0.0.1 on which to answer.
    pub port: u16,
}
