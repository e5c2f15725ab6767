//! The lines that a run of `mvnrepod` prints where it cannot do what it was asked, and the statuses that it ends with.
#![tactic(auto)]

mod printing;
mod reading;
mod refusals;
mod statuses;

pub use printing::{fault, print};
pub use reading::settings_of;
pub use refusals::refuse;
pub use statuses::{DAMAGED, DONE, INPUT, NAMED, NO_MEMORY, OUTPUT, REFUSED, SETTINGS, STORE};
