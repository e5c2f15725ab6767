//! What proxies keep, why they decide as they do, and what a look can be answered: laws of each state of a history.
//!
//! No function here has code: its contract is the law.
#![tactic(auto)]

mod decisions;
mod keeping;

pub use decisions::{
    decisions_have_causes, fetches_are_needed, looks_are_answered_by_sort,
    proxies_say_what_they_decide,
};
pub use keeping::{
    kept_files_are_answered, kept_files_stay, landed_files_are_kept,
    landed_files_are_not_fetched_again, proxies_change_by_landings, proxies_keep_their_limits,
    restarts_keep_what_proxies_keep,
};
