//! Desks that serve connections at once, and the cleaner beside them, each with a seat of its own at the turns of one repository.
#![tactic(auto)]

mod desk;
mod jobs;
mod running;
mod seating;
mod whole;

pub use desk::serve_desk;
pub use whole::{Worked, work};
