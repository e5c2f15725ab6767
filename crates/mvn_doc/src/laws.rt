//! What holds of reading and writing for all texts and documents, as contracts of functions that do nothing.
ghost use Rattle.std.specs.Prelude.{◌≡◌, ℕ, List, Ok, Err, IsTrue, codes};
ghost use Rattle.xml_subset.specs.Content.{Content, Writes};
ghost use Rattle.mvn_metadata.specs.Document.{Document, settled};
ghost use Rattle.mvn_metadata.specs.Form.{is_document};
ghost use Rattle.mvn_doc.specs.declared.place.Place.TheVariants.{Outside};
ghost use Rattle.mvn_doc.specs.Picked.{document_in};
ghost use Rattle.mvn_doc.specs.Reading.{reading};
ghost use Rattle.mvn_doc.specs.Tree.{places};
ghost use Rattle.mvn_doc.specs.Worked as worked;
ghost use Rattle.mvn_metadata.specs.Written.{text};

/// The texts that are read are those that write a tree of elements whose root is `metadata` (XML 1.0, sections 2.1 and
/// 3.1), and what is read is what the tree's elements tell at their places.
pub fn tree_law()
    ensures written { (text : List ℕ) (c : Content) → Writes (codes "metadata") text c → reading text ≡ Ok (document_in (places Outside c)) }
    ensures read { (text : List ℕ) (d : Document) → reading text ≡ Ok d
        → (c : Content) × Writes (codes "metadata") text c × (d ≡ document_in (places Outside c)) }
{}

/// A document is read back from its written form, and whatever is read has the form of a document.
pub fn reading_law()
    ensures again { (d : Document) → IsTrue (is_document d) → reading (text d) ≡ Ok d }
    ensures form { (text : List ℕ) (d : Document) → reading text ≡ Ok d → IsTrue (is_document d) }
{}

/// Worked documents, written and read, and texts that are refused.
pub fn worked_documents()
    ensures snapshot { text worked.snapshot_document ≡ worked.snapshot_text }
    ensures artifact { text worked.artifact_document ≡ worked.artifact_text }
    ensures unsorted { reading worked.unsorted_text ≡ Ok worked.sorted_document }
    ensures sorted { text (settled worked.sorted_document worked.directory) ≡ worked.releases_text }
    ensures no_end { reading (codes "<metadata>") ≡ Err 10 }
    ensures other_close_tag { reading (codes "<metadata></metadatb>") ≡ Err 10 }
    ensures text_after { reading (codes "<metadata/>x") ≡ Err 11 }
    ensures document_type { reading (codes "<!DOCTYPE x><metadata/>") ≡ Err 0 }
{}
