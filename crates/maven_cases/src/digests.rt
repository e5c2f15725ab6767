// Digests of messages, and the texts of side files.
use case_texts::{Tale, bytes_of, copied, text_of};
use mvn_coords::Side;
use mvn_digest::{Digest, Digests, Hashes, read_side, side_text};
use std::alloc::{AllocError, Global};

/// The digests of a message that comes in these pieces.
fn digests_of(pieces: &[String]) -> Digests {
    let mut hashes = Hashes::new();
    for piece in pieces {
        hashes.update(piece.as_bytes());
    }
    hashes.finish()
}

pub(crate) const SIDES: [Side; 4] = [Side::Sha1, Side::Md5, Side::Sha256, Side::Sha512];

pub(crate) fn word_of(side: Side) -> &'static str {
    match side {
        Side::Sha1 => "sha1",
        Side::Md5 => "md5",
        Side::Sha256 => "sha256",
        Side::Sha512 => "sha512",
    }
}

/// The side of a word; SHA-1 where it is that of none.
fn side_of(word: &str) -> Side {
    for side in SIDES {
        if word_of(side) == word {
            return side;
        }
    }
    Side::Sha1
}

/// SHA-1, MD5, SHA-256 and SHA-512 in small digits.
fn told_digests(alloc: Global, digests: &Digests) -> Result<String, AllocError> {
    let sha1: String = text_of(alloc, digests.sha1_text().as_slice())?;
    let md5: String = text_of(alloc, digests.md5_text().as_slice())?;
    let sha256: String = text_of(alloc, side_text(digests, Side::Sha256).as_bytes())?;
    let sha512: String = text_of(alloc, side_text(digests, Side::Sha512).as_bytes())?;
    format!(in alloc; "{sha1} {md5} {sha256} {sha512}")
}

fn told_digest(alloc: Global, digest: &Digest) -> Result<String, AllocError> {
    let mut told: String = copied(alloc, word_of(digest.side()))?;
    told.push_str(" ")?;
    for byte in digest.bytes() {
        write!(told, "{byte:02x}")?;
    }
    Ok(told)
}

/// The digest that a side file's text says, of whatever side; `several` where it says some of more than one.
fn told_read(alloc: Global, text: &[u8]) -> Result<String, AllocError> {
    let mut said: Option<Digest> = None;
    for side in SIDES {
        if let Some(digest) = read_side(text, side) {
            if said.is_some() {
                return copied(alloc, "several");
            }
            said = Some(digest);
        }
    }
    match said {
        Some(digest) => told_digest(alloc, &digest),
        None => copied(alloc, "none"),
    }
}

/// What is told of a step about digests.
pub(crate) fn told(alloc: Global, key: &str, words: &[String]) -> Tale {
    Ok(Some(match (key, words) {
        ("digests", pieces) => told_digests(alloc, &digests_of(pieces))?,
        ("digest", [side, message @ ..]) => {
            told_digest(alloc, &digests_of(message).of(side_of(side.as_str())))?
        }
        ("side-text", [side, message @ ..]) => text_of(
            alloc,
            side_text(&digests_of(message), side_of(side.as_str())).as_bytes(),
        )?,
        ("side", text) => told_read(alloc, bytes_of(alloc, text)?.as_slice())?,
        _ => return Ok(None),
    }))
}
