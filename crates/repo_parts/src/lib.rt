//! What a turn does to the parts of a repository: its hosted repositories, its proxies, the shelves of its groups, its numbers and its
//! sessions.
#![tactic(auto)]

mod conditions;
mod deploys;
mod groups;
mod hosted;
mod looked;
mod looks;
mod members;
mod plans;
mod proxies;
mod purges;
mod puts;
mod shelves;
mod turn;

pub use conditions::fits;
pub use deploys::{
    commit, compare_staged, condemn_left, condemn_over, drawn, refusal_at, reply_of_abort,
    reply_of_begin, reply_of_commit, reply_of_stage, settle_begun, settle_staged,
};
pub use hosted::{counts, repo_mut, takes};
pub use looked::{Asked, Goods};
pub use looks::look;
pub use proxies::{counts_kept, land};
pub use purges::{Gone, condemn_all, drop_expired, expiring};
pub use puts::{compare_side, reply_of_put, settle_put};
pub use shelves::{
    Changed, changed_by_commit, changed_by_landing, changed_by_put, changed_by_unlist,
    empty_shelves, forget, is_of_document,
};
pub use turn::next_moment;
