//! Serves streams and makes passes over the repositories, one or from time to time, with a seat at the turns of a repository that others
//! ask too.
#![tactic(auto)]

mod cleaner;
mod cleaning;
mod serving;

pub use cleaner::keep_clean;
pub use cleaning::clean_with;
pub use serving::serve_with;
