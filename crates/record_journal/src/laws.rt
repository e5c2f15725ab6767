//! What holds of every journal, as a contract of a function that does nothing.
ghost use Rattle.std.specs.Prelude.{◌≡◌, ℕ, List, ◌++◌, Some, IfSome};
ghost use Rattle.record_disk.specs.Disk.{AllImages};
ghost use Rattle.record_journal.specs.Journal.{tables_of, MayLoad, IsReady};
ghost use Rattle.row_tables.specs.Loading.{built_up, loading};
ghost use Rattle.record_log.specs.Frames.{head_of, AreShort, IsClosed};
ghost use Rattle.record_log.specs.Log.{LogState};
ghost use Rattle.repo_model.specs.Tables.{Tables};

/// What holds of every journal between two calls, and of every file.
pub fn laws_of_journals()
    // Each image loads to the journal's tables, or to these with the pending change.
    ensures images { (journal : LogState) (t : Tables) → IsReady journal → tables_of journal ≡ Some t
        → IfSome journal.trace (AllImages (MayLoad t journal.pending)) }

    // What stands after a gate that is not 1 is not read, so where a gate was damaged the records end: a file loads to what the frames
    // in front of it build up, whatever stands from there on.
    ensures unread { (payloads : List (List ℕ)) (rest : List ℕ) → AreShort payloads → IsClosed rest
        → loading (head_of payloads ++ rest) ≡ built_up payloads }
{}
