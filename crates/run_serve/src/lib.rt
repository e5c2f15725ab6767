//! A run of the program `mvnrepod`: the command `serve`, whose desks serve connections at once by one repository with a cleaner beside
//! them, and every other word, which is done once.
#![tactic(auto)]

mod calls;
mod program;
mod serving;

pub use program::run;
pub use serving::serve;
