//! Documents that were fetched, as those of their directories.
ghost use Rattle.std.specs.Prelude.{◌≡◌, ◌≤◌, IfOk, IsTrue, Some, length};
ghost use Rattle.mvn_metadata.specs.Document.{settled};
ghost use Rattle.mvn_metadata.specs.Written as written;
ghost use Rattle.repo_model.specs.Command.{longest_landed};
ghost use Rattle.repo_model.specs.History.{latest_moment};
ghost use Rattle.row_tables.specs.Items.{is_kept_in};

use mvn_coords::Dir;
use mvn_coords::laws::directory_is_ruled;
use mvn_metadata::{Doc, NoMemory, settle};
use proxy_entries::Kept;
use settled_laws::settled_documents;
use std::alloc::Global;

/// A document that was fetched, as that of its directory.
pub fn settled(alloc: Global, doc: Doc, dir: &Dir<'_>, checked: u64) -> Result<Kept, NoMemory>
    requires moment { checked ≤ latest_moment }
    requires short { length (written.text doc) ≤ longest_landed }
    ensures doc { IfOk result (λ kept. kept.doc ≡ settled doc dir.now) }
    ensures checked { IfOk result (λ kept. kept.checked ≡ checked) }
    ensures form { IfOk result (λ kept. IsTrue (is_kept_in (Some dir.now) kept.doc)) }
{
    directory_is_ruled(dir);
    settled_documents();
    let doc = settle(alloc, doc, dir)?;
    // Its contract says that a document has its form.
    let _listing = doc.listing();
    Kept::new(alloc, doc, checked)
}
