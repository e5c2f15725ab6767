//! The law of tables that were built up.
ghost use Rattle.std.specs.List.{AllByRecursion};
ghost use Rattle.repo_model.specs.Tables.{Tables};
ghost use Rattle.repo_laws.specs.Holds.{InOrder};
ghost use Rattle.repo_laws.specs.InRange.{InRange};
ghost use Rattle.row_tables.specs.Recorded.{IsBuiltUp};
ghost use Rattle.table_laws.specs.Standing.{IsListed, StandsAtFile};

/// Tables that recorded items build up are in order and in range: rows and documents in byte order of repository and path,
/// sessions rising, each once, each blob named once; numbers above 0 and below 2^63, and moments no later than the latest.
/// Each row stands at a file's path, in a repository whose id has its form. A row of a proxy is visible.
pub fn built_tables_are_right()
    ensures order { (t : Tables) → IsBuiltUp t → InOrder t }
    ensures range { (t : Tables) → IsBuiltUp t → InRange t }
    ensures hosted { (t : Tables) → IsBuiltUp t → AllByRecursion StandsAtFile t.hosted }
    ensures cached { (t : Tables) → IsBuiltUp t → AllByRecursion StandsAtFile t.cached }
    ensures listed { (t : Tables) → IsBuiltUp t → AllByRecursion IsListed t.cached }
{}
