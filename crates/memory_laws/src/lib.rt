//! Laws of replays: how each may end, and a replay over the forms in memory, by which the worked PUT and GET are answered byte
//! for byte.
#![tactic(auto)]

mod endings;
mod replayed;

pub use endings::replays_end_by_their_cause;
pub use replayed::replay_worked;
