//! What follows for settled documents. No function here has code: its contract is the law.
ghost use Rattle.std.specs.Prelude.{◌≡◌, ◌≤◌, ◌+◌, IfSome, length};
ghost use Rattle.mvn_coords.specs.Layout.{Directory};
ghost use Rattle.mvn_metadata.specs.Document.{Document, settled};
ghost use Rattle.mvn_metadata.specs.Written.{text};

/// Settling a document for a directory adds at most 4,000 bytes to its written text, where the directory's group, artifact and
/// version have at most 1,024 bytes each; and a document that is settled stays as it is when it is settled again.
pub fn settled_documents()
    ensures fits { (d : Document) (directory : Directory) → length directory.group ≤ 1024 → length directory.artifact ≤ 1024
        → IfSome directory.version (λ v. length v ≤ 1024) → length (text (settled d directory)) ≤ length (text d) + 4000 }
    ensures once { (d : Document) (directory : Directory) → settled (settled d directory) directory ≡ settled d directory }
{}
