//! The rows of a repository in byte order of path, with the directories of their artifacts beside them.
#![tactic(auto)]

mod counted;
mod homes;
mod joining;
mod row;
mod rows;
mod standings;

pub use counted::CountedRows;
pub use joining::joined;
pub use row::{Phase, Row};
pub use rows::{find, is_before, print_of, sizes, standing};
pub use standings::Standing;
