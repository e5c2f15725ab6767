//! Short texts that lie in the value itself, as the id of a repository: making one takes no memory.
#![tactic(auto)]

mod held;

pub use held::Id;
