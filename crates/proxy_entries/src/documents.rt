//! Documents in an ordered map from path to document.
ghost use Rattle.std.specs.Prelude.{◌≡◌, ◌≢◌, None, OnErr, OnOk, string_bytes};
ghost use Rattle.std.specs.Option.{option_map};
ghost use Rattle.repo_model.specs.Effect.{with_kept};
ghost use Rattle.repo_model.specs.Proxies.{kept_at};
ghost use Rattle.proxy_entries.specs.Stored.{shown_documents, shown_kept};

use crate::kept::Kept;
use mvn_metadata::NoMemory;
use std::alloc::Global;
use std::collections::BTreeMap;

/// Puts a document at a path, in the place of the one that is there. When memory runs out nothing is changed.
pub fn put(
    alloc: Global,
    documents: &mut BTreeMap<String, Kept>,
    path: &str,
    kept: Kept,
) -> Result<(), NoMemory>
    ensures ok { OnOk result (shown_documents documents.new.entries ≡ with_kept (shown_kept path.now kept) (shown_documents documents.old.entries)) }
    ensures err { OnErr result (shown_documents documents.new.entries ≡ shown_documents documents.old.entries) }
{
    let key = String::from_str(alloc, path)?;
    documents.insert(key, kept)?;
    Ok(())
}

/// Puts a document at a path that has one, which takes no memory.
pub fn replace(documents: &mut BTreeMap<String, Kept>, key: String, kept: Kept)
    requires { kept_at (string_bytes key) (shown_documents documents.old.entries) ≢ None }
    ensures { shown_documents documents.new.entries ≡ with_kept (shown_kept (string_bytes key) kept) (shown_documents documents.old.entries) }
{
    match documents.insert(key, kept) {
        Ok(_) => {}
        Err(_) => unreachable!(),
    }
}

/// The document at a path.
pub fn find<'a>(documents: &'a BTreeMap<String, Kept>, path: &str) -> Option<&'a Kept>
    ensures { option_map (λ kept. shown_kept path.now kept.now) result ≡ kept_at path.now (shown_documents documents.now.entries) }
{
    documents.get(path)
}
