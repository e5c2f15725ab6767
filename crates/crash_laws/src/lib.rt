//! What a crash leaves of a repository, and what a start makes of that.
//!
//! No function here has code: its contract is the law.
#![tactic(auto)]

mod laws;

pub use laws::{
    answered_files_have_their_bytes, blobs_given_out_are_named_no_more,
    crashes_leave_fronts_of_histories, crashes_leave_stored_blobs, crashes_leave_stored_files,
    crashes_of_runs_find_what_is_left, crashes_of_runs_leave_no_file_damaged,
    crashes_of_runs_leave_stored_files, created_files_are_answered_after_crashes,
    created_files_outlast_crashes_of_runs, files_outlast_crashes_of_runs,
    handed_blobs_are_acknowledged, kept_blobs_are_whole, kept_files_outlast_crashes,
    recorded_files_are_not_given_out, rows_outlast_crashes, starts_answer_kept_files,
    starts_answer_what_is_recorded, starts_stage_nothing, stores_do_as_their_clauses_say,
    stores_keep_what_they_do_not_remove, whole_files_are_stored,
};
