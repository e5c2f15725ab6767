//! The cleaner's timer: the trait, its form in memory, and one that sleeps.
#![tactic(auto)]

mod pace;
mod running;
mod script;
mod sleeping;

pub use pace::Pace;
pub use running::Running;
pub use script::ScriptPace;
pub use sleeping::SleepingPace;
