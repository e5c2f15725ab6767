//! A document that a proxy keeps.
ghost use Rattle.std.specs.Prelude.{◌≡◌, ◌≤◌, IfOk};
ghost use Rattle.mvn_digest.specs.Digests.{digests_of};
ghost use Rattle.mvn_metadata.specs.Written as written;
ghost use Rattle.repo_model.specs.History.{latest_moment};

use mvn_digest::{Digests, Hashes};
use mvn_doc::write;
use mvn_metadata::{Doc, NoMemory};
use std::alloc::Global;
use texts::Bytes;

/// A document that a proxy keeps, as it is written, with its digests, and the moment at which its remote was asked for it, in
/// seconds since 1970 in UTC.
#[derive(Drop)]
pub struct Kept {
    pub doc: Doc,
    pub text: Bytes,
    pub digests: Digests,
    pub checked: u64,
    pub ghost written: { text ≡ written.text doc },
    pub ghost digested: { digests ≡ digests_of text },
    pub ghost in_time: { checked ≤ latest_moment },
}

impl Kept {
    /// A document that was checked at a moment.
    pub fn new(alloc: Global, doc: Doc, checked: u64) -> Result<Kept, NoMemory>
        requires { checked ≤ latest_moment }
        ensures doc { IfOk result (λ kept. kept.doc ≡ doc) }
        ensures checked { IfOk result (λ kept. kept.checked ≡ checked) }
    {
        let text = write(alloc, &doc)?;
        let mut hashes = Hashes::new();
        hashes.update(text.as_slice());
        Ok(Kept {
            doc,
            text: Bytes::from_vec(text),
            digests: hashes.finish(),
            checked,
        })
    }
}
