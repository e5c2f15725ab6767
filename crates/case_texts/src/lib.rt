//! Files of cases, as a person reads and writes them: of the program, what comes in, what was there before, what fails, and what has
//! to be answered; of a library, steps in words and what has to be told of each.
//!
//! A file is lines that begin with a word, and lines of text after them. A line without a byte, and one that begins with `#`,
//! says nothing. A line that begins with `>` or `|` is text of the entry above it; a blank may follow the mark. Any other line
//! begins an entry: a word, and after a blank what it says.
//!
//! A line of text stands for its bytes and a line end: CR LF after `>`, LF after `|`. In it `\\`, `\r`, `\n`, `\t` and `\xHH`
//! stand for a backslash, CR, LF, a tab and the byte of two hexadecimal digits, `\#` for a number that the reader says, and a
//! backslash after all others takes the line end away.
//!
//! What the entries of a case say:
//!
//! | Entry | What it says |
//! |---|---|
//! | `text NAME`, and lines of text | a text that has a name from here on |
//! | `case NAME` | a case begins; the entries up to the next one are its own |
//! | `settings ..` | the text of the settings; that with the name `SETTINGS` where a case says none |
//! | `words ..` | the words of the program; a replay where a case says none |
//! | `moment N`, `step N` | the first moment of the clock and the seconds to the next one |
//! | `stored N`, and lines of text | a blob that is there before all else |
//! | `given ..` | what the first blob gives when it is read, in place of what is stored |
//! | `before ..` | what an earlier run is sent, over the same records and blobs |
//! | `lost N` | a blob that is gone after it |
//! | `remote ..` | what the remote answers to the next exchange with it |
//! | `exchanges N` | how many exchanges are made with it |
//! | `fails OBJECT N` | the call of an object that fails, counted from 0: of the `settings`, the `port`, the `reads` of the input, the `blobs`, the `records` |
//! | `room N`, `line-room N` | how much the connection takes, and the line |
//! | `pieces whole`, `blocks`, `bytes` | the input in one piece and byte by byte; in pieces of 4,096 bytes; byte by byte alone |
//! | `send ..`, `answer ..` | what comes in, and what has to be answered |
//! | `line TEXT`, `no-line`, `status N` | what has to be printed, and the status |
//! | `blobs N ..` | the blobs that are there in the end |
//! | `next` | a further connection begins, which the same core serves; the line after each has the calls of that core so far |
//!
//! What is sent and answered goes on from one such entry to the next. `..` are texts by their names, `N*NAME` for one that stands
//! N times, and after them the entry's own lines of text, as often as a word `N*` says. In place of N stands `A..B` for the
//! numbers from A to B, which `\#` writes.
//!
//! What the entries of cases of steps say:
//!
//! | Entry | What it says |
//! |---|---|
//! | `text NAME`, and lines of text | a text that has a name from here on |
//! | `word NAME VALUE` | a name for what stands after it |
//! | `parts NAME ..` | a name for texts by their names and lines of text, each as often as it says |
//! | `case NAME` | a case begins, with nothing that the one before it left |
//! | `STEP = REPLY` | a step, and what has to be told of it |
//!
//! In a step and a reply a word that is a name stands for its text, and `-` for no byte.
#![tactic(auto)]

mod books;
mod cases;
mod entries;
mod escapes;
mod failures;
mod names;
mod programs;
mod reading;
mod steps;
mod went;
mod words;

pub use books::Book;
pub use cases::{Case, Link, Pieces, Script, Stored};
pub use entries::{EntriesFault, Entry, read_entries};
pub use escapes::{WrittenFault, push_line, written};
pub use failures::Object;
pub use programs::{Judge, follow_before, follow_files, judge_files, parted, run_steps, status_of};
pub use reading::{CaseFault, Refusal, read_cases};
pub use steps::{Steps, Tale, Told};
pub use went::{Went, wrong_blobs, wrong_link, wrong_run};
pub use words::{bytes_of, copied, joined, number_of, run_together, shown, text_of, yes_or_no};
