//! What holds of the definitions for all documents, as contracts of functions that do nothing.
ghost use Rattle.std.specs.Prelude.{◌≡◌, List, [], ◌∷◌, Some, IsTrue};
ghost use Rattle.std.specs.FinMap.Entries.{find, is_sorted};
ghost use Rattle.mvn_metadata.specs.declared.pair.Pair.{Pair};
ghost use Rattle.mvn_metadata.specs.Document.{Document, lists_versions, merge, merged, newest_snapshot_build};
ghost use Rattle.mvn_metadata.specs.Merge.{Entry, with_entries};
ghost use Rattle.mvn_metadata.specs.Order.{pair_cmp};
ghost use Rattle.mvn_metadata.specs.Form.{is_document};

/// Merging is associative over documents of one kind, merging a document alone or with itself changes nothing, and of
/// two lists of entries the newest build of each pair is kept, of equal ones the first list's.
pub fn merge_laws()
    ensures alone { (d : Document) → IsTrue (is_document d) → merge (d ∷ []) ≡ Some d }
    ensures idempotent { (d : Document) → IsTrue (is_document d) → merged d d ≡ d }
    ensures associative { (d e f : Document) → IsTrue (is_document d) → IsTrue (is_document e) → IsTrue (is_document f)
        → lists_versions d.listing ≡ lists_versions e.listing → lists_versions e.listing ≡ lists_versions f.listing
        → merged d (merged e f) ≡ merged (merged d e) f }
    ensures newest { (q : Pair) (es fs : List Entry) → IsTrue (is_sorted pair_cmp fs)
        → find pair_cmp q (with_entries es fs) ≡ newest_snapshot_build (find pair_cmp q es) (find pair_cmp q fs) }
{}
