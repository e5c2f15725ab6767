//! What holds of the definitions for all texts, and worked texts, as contracts of functions that do nothing.

ghost use Rattle.std.specs.Prelude.{◌≡◌, ℕ, List, [], ◌∷◌, IsTrue, codes, Ok, Err};
ghost use Rattle.xml_subset.specs.Content.{Content, Writes, data_of, is_within, outlined};
ghost use Rattle.xml_subset.specs.Cut.{trimmed};
ghost use Rattle.xml_subset.specs.Document.{outline};
ghost use Rattle.xml_subset.specs.Element.{Element};
ghost use Rattle.xml_subset.specs.Spelling.{is_name, is_plain, is_value, spelled_document};

use crate::MAX_DEPTH;

/// The texts that are read are those that write a document as a tree (XML 1.0, sections 2.1 and 3.1), and what is read
/// is the tree's outline.
pub fn tree_laws()
    ensures read { (root text : List ℕ) (es : List Element) → outline root text ≡ Ok es → (d : Content) × Writes root text d × (es ≡ outlined 0 d) }
    ensures written { (root text : List ℕ) (d : Content) → Writes root text d → outline root text ≡ Ok (outlined 0 d) }
{}

/// A document that is spelled plainly, with its declaration, is read as it is.
pub fn spelling_law()
    ensures { (root name value : List ℕ) (inner : Content)
        → IsTrue (is_name root) → IsTrue (is_name name) → IsTrue (is_value value) → IsTrue (is_plain inner) → IsTrue (is_within 31 inner)
        → outline root (spelled_document root name value inner)
        ≡ Ok (record { depth = 1; name = root; text = trimmed (data_of inner) } ∷ outlined 1 inner) }
{}

/// Texts that are refused, and where.
pub fn worked_faults()
    ensures no_end { outline (codes "metadata") (codes "<metadata>") ≡ Err 10 }
    ensures other_close_tag { outline (codes "metadata") (codes "<metadata></metadatb>") ≡ Err 10 }
    ensures text_after { outline (codes "metadata") (codes "<metadata/>x") ≡ Err 11 }
    ensures document_type { outline (codes "metadata") (codes "<!DOCTYPE x><metadata/>") ≡ Err 0 }
    ensures character_0 { outline (codes "metadata") (codes "<metadata>&#0;</metadata>") ≡ Err 10 }
    ensures section { outline (codes "metadata") (codes "<metadata><![CDATA[x]]></metadata>") ≡ Err 10 }
{}

/// Texts that are read.
pub fn worked_documents()
    ensures attributes_twice { outline (codes "metadata") (codes "<metadata a='1' a='2'/>")
        ≡ Ok (record { depth = 1; name = codes "metadata"; text = [] } ∷ []) }
    ensures own_text { outline (codes "a") (codes "<?xml version='1.0'?><a> x<!-- c --><b> y </b>&#x7a; </a> ")
        ≡ Ok (record { depth = 1; name = codes "a"; text = codes "xz" } ∷ record { depth = 2; name = codes "b"; text = codes "y" } ∷ []) }
{}

/// The greatest depth of an element.
pub fn limits()
    ensures depth { MAX_DEPTH ≡ 32 }
{}
