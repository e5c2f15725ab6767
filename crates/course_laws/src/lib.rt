//! The laws of served streams. No function here has code: its contract is the law.
//!
//! What a course owes is one predicate of `specs/Duties.antt`; the laws on drafts, leases, ends and counts follow from it.
#![tactic(auto)]

mod laws;

pub use laws::{
    answered_files_were_fetched, answers_have_their_causes, bodies_are_whole, broken_is_a_front,
    calls_are_few, courses_are_complete, courses_keep_their_duties, courses_succeed,
    ends_have_their_causes, faultless_is_played, first_faults_are_said, first_files_are_told,
    granted_requests_are_answered, landings_are_fetched, nothing_is_left_behind,
    own_drafts_are_there, puts_have_the_body_that_came, refusals_are_answered,
    remote_faults_are_counted, worked_exchange,
};
