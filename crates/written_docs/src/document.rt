//! A document as it is written.
ghost use Rattle.std.specs.Prelude.{◌≡◌, IfOk};
ghost use Rattle.std.proofs.Props.{props};
ghost use Rattle.mvn_digest.specs.Digests.{digests_of};
ghost use Rattle.mvn_metadata.specs.Written as form;

use mvn_digest::{Digests, Hashes};
use mvn_doc::write;
use mvn_metadata::{Doc, NoMemory};
use shared_bytes::SharedBytes;
use std::alloc::Global;

/// A document, its written text, of which shares are taken, and the digests of that.
#[derive(Drop)]
pub struct WrittenDoc {
    pub doc: Doc,
    pub text: SharedBytes,
    pub digests: Digests,
    pub ghost formed: { text ≡ form.text doc } by { Prim.hlevel props },
    pub ghost described: { digests ≡ digests_of text } by { Prim.hlevel props },
}

fn digests_of(text: &[u8]) -> Digests
    ensures { result ≡ digests_of text.now }
{
    let mut hashes = Hashes::new();
    hashes.update(text);
    hashes.finish()
}

/// The text of a document and its digests.
pub fn text_of(alloc: Global, doc: &Doc) -> Result<(SharedBytes, Digests), NoMemory>
    ensures text { IfOk result (λ made. made.0 ≡ form.text doc.now) }
    ensures digests { IfOk result (λ made. made.1 ≡ digests_of made.0) }
{
    let text = write(alloc, doc)?;
    let digests = digests_of(text.as_slice());
    let shared = SharedBytes::from_vec(text)?;
    Ok((shared, digests))
}

/// The document with its text and digests.
pub fn written(alloc: Global, doc: Doc) -> Result<WrittenDoc, NoMemory>
    ensures { IfOk result (λ w. w.doc ≡ doc) }
{
    let (text, digests) = text_of(alloc, &doc)?;
    Ok(WrittenDoc { doc, text, digests })
}
