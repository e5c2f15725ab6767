//! What words ask for.
use texts::Text;

/// What the program is asked to do.
#[derive(Drop)]
pub enum Wanted {
    /// To answer the requests of standard input under these settings, its clock beginning at `at` and going on by `step`
    /// seconds with each look at it.
    Replay {
        settings: Text,
        at: u64,
        step: u64,
    },
    /// To look whether all files that are recorded in a folder are there as they were recorded.
    Check {
        settings: Text,
        data: Text,
    },
    /// To purge the repositories of a folder under these settings, and to remove its garbage.
    Clean {
        settings: Text,
        data: Text,
    },
    /// To answer requests on this port of 127.0.0.1 under these settings, keeping everything in a folder.
    Serve {
        settings: Text,
        data: Text,
        port: u16,
    },
    /// To answer so many requests that are made of numbers, the first of them following this one.
    Demo {
        from: u16,
        calls: u32,
    },
}

/// Why words ask for nothing.
#[derive(Clone, Copy, Debug, PartialEq, Eq)]
pub enum WordsFault {
    /// They are no words of the program.
    Refused,
    /// Memory was wanting.
    NoMemory,
}
