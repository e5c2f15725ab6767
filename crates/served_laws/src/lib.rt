//! What a served document names is served, by the whole program: the laws of streams carried to the desks of a server, to a replay, and
//! from one run to the next over the same records.
//!
//! No function here has code: its contract is the law.
#![tactic(auto)]

mod crashes;
mod laws;
mod seats;

pub use crashes::{
    cleanings_outlast_crashes, created_files_have_the_body_that_came, entries_at_are_made,
    replays_keep_created_files, replays_keep_the_bytes_that_came, servers_keep_created_files,
    servers_keep_the_bytes_that_came, stores_that_did_as_asked_answer_the_bytes_that_came,
    whole_files_are_not_refused,
};
pub use laws::{
    later_runs_serve_named_files, replays_serve_named_files, restarted_servers_serve_named_files,
    servers_serve_named_files, worked_file_is_named,
};
pub use seats::seats_of_repositories_see_closed_histories;
