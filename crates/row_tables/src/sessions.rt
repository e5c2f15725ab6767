//! Recorded sessions, in rising order of number.
ghost use Rattle.std.specs.Prelude.{◌≡◌, ◌<◌, None, Some, nat_lt, find, if◌then◌else◌, length, slice_get, slice_index_or, MatchOption};
ghost use Rattle.std.specs.List.{list_all};
ghost use Rattle.repo_model.specs.Tables.{RecordedSession, is_session, is_open_session};
ghost use Rattle.repo_model.specs.State.{change_where};
ghost use Rattle.row_tables.specs.Applying.{AreRising};
ghost use Rattle.row_tables.specs.Stored.{shown_sessions};

use repo_model::SessionResult;

/// A deployment session that was opened, and its result once it has ended.
#[derive(Clone, Copy, Debug, PartialEq, Eq)]
pub struct SessionRow {
    pub number: u64,
    pub result: Option<SessionResult>,
}

/// Whether a number is above those of all sessions.
pub fn is_next(sessions: &[SessionRow], number: u64) -> bool
    requires { AreRising (shown_sessions sessions.now) }
    ensures { result ≡ list_all (λ (s : RecordedSession). nat_lt s.number number) (shown_sessions sessions.now) }
{
    match sessions.last() {
        Some(last) => last.number < number,
        None => true,
    }
}

/// The place of the session of a number. It is sought from the last one on, since most that end are young.
pub fn place_of(sessions: &[SessionRow], number: u64) -> Option<usize>
    requires { AreRising (shown_sessions sessions.now) }
    ensures { MatchOption result (find (is_session number) (shown_sessions sessions.now) ≡ None)
        (λ place. (place < length sessions.now)
        × ((slice_index_or sessions.now place (record { number = 0; result = None })).number ≡ number)
        × (find (is_session number) (shown_sessions sessions.now) ≡ slice_get (shown_sessions sessions.now) place)) }
{
    for place in (0..sessions.len()).rev() {
        if sessions[place].number == number {
            return Some(place);
        }
    }
    None
}

/// Ends the session of a number, where it is open.
pub fn end_in(sessions: &mut Vec<SessionRow>, number: u64, how: SessionResult) -> bool
    requires { AreRising (shown_sessions sessions.old.items) }
    ensures fits { result ≡ is_open_session (find (is_session number) (shown_sessions sessions.old.items)) }
    ensures after { shown_sessions sessions.new.items ≡ (if result
        then change_where (is_session number) (λ s. record s { result = Some how }) (shown_sessions sessions.old.items)
        else shown_sessions sessions.old.items) }
{
    let Some(place) = place_of(sessions, number) else {
        return false;
    };
    if sessions[place].result.is_some() {
        return false;
    }
    sessions[place] = SessionRow {
        number,
        result: Some(how),
    };
    true
}
