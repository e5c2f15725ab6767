//! What follows of a repository behind its turns. No function here has code: its contract is the law.
ghost use Rattle.std.specs.Prelude.{List};
ghost use Rattle.turn_lock.specs.declared.view.Entry.{Entry};
ghost use Rattle.turn_lock.specs.History.{IsStep, Legal};
ghost use Rattle.turn_seats.specs.Histories.{IsHistory};

use crate::repository::Repository;

/// What a seat has seen, and the whole history at its end, is a legal history of the repository: from the state that it opened in, to the state of the object at its end.
pub fn what_is_seen_is_a_history<T: Repository>()
    ensures { (opening : T) (log : List (Entry T.Call T.Reply T)) → Legal (IsStep T.fixed T.may_ask T.turned) opening log
        → IsHistory T.sight opening log }
{}
