//! Laws of desks that serve at once and the cleaner beside them: a stream gives back what it was given among its own entries,
//! and so a server leaves no draft and no lease; a file that is sent is lent; each turn of each desk is answered by its cause in
//! the one history; each file that is answered for a proxy was fetched at a desk, or was kept before; each blob that is put,
//! staged or landed tells its bytes, of which its fingerprint is, and has a number of its own; and what their seats have seen is
//! closed.
//!
//! No function here has code: its contract is the law.
#![tactic(auto)]

mod laws;

pub use laws::{
    desks_are_answered_by_cause, lent_files_are_leased, seats_of_servers_see_closed_histories,
    servers_answer_what_was_fetched, servers_hand_over_each_blob_once, servers_leave_nothing,
    streams_give_all_back, streams_hand_over_each_blob_once,
};
