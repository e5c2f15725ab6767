//! What changes of rows make of the document of a directory, as contracts of a function that does nothing.
ghost use Rattle.std.specs.Prelude.{◌≡◌, ℕ, List, Some, false};
ghost use Rattle.mvn_coords.specs.Layout.{Directory};
ghost use Rattle.repo_model.specs.Data.{Row, fading};
ghost use Rattle.repo_model.specs.Document.{document};
ghost use Rattle.repo_model.specs.Effect.{fade, list_again, new_row, with_row};
ghost use Rattle.repo_model.specs.Paths.{file_at, stands_in};
ghost use Rattle.repo_model.specs.State.{change_where, is_row, row_at};
ghost use Rattle.directory_rows.specs.Documents.{added};
ghost use Rattle.ordered_rows.specs.Rows.{without_first};

/// One more row adds to the document of a directory what it has, wherever it stands among the others. A row that fades elsewhere, and
/// rows that go once they have faded, leave it as it was.
pub fn document_laws()
    ensures more { (d : Directory) (new : Row) (rows : List Row) → document d (with_row new rows) ≡ added d (document d rows) new }
    ensures elsewhere { (d : Directory) (path : List ℕ) (moment : ℕ) (rows : List Row) → stands_in d (file_at path) ≡ false
        → document d (change_where (is_row path) (fade moment) rows) ≡ document d rows }
    ensures gone { (d : Directory) (n limit : ℕ) (rows : List Row) → document d (without_first n limit rows) ≡ document d rows }
{}
