ghost use Rattle.std.specs.Prelude.{◌≡◌, [], ◌++◌};
ghost use Rattle.mvn_digest.specs.Digests.{digests_of};

use crate::digests::Digests;
use crate::message;
use boxcar::tag::Tag;
use md5::{Digest as _, Md5};
use sha1::Sha1;
use sha2::{Digest as _, Sha256, Sha512};
use std::marker::Model;

/// Running SHA-1, MD5, SHA-256 and SHA-512 of one message (FIPS 180-4; RFC 1321), taken in one pass. They take no memory.
///
/// Contracts see the bytes taken so far.
#[derive(Drop)]
pub struct Hashes {
    sha1: Sha1,
    md5: Md5,
    sha256: Sha256,
    sha512: Sha512,
    message: Tag,
}

impl Model for Hashes {
    ghost use Rattle.std.specs.Prelude.{List, ℕ};
    ghost use Rattle.sha1.specs.Sha1.{Holds as Sha1Holds};
    ghost use Rattle.md5.specs.Md5.{Holds as Md5Holds};
    ghost use Rattle.sha2.specs.Hashers.{Holds256, Holds512};

    ghost Value = { List ℕ };

    ghost view = { λ h. h.message.numbers };

    ghost invariant = { λ h. Sha1Holds h.sha1 h.message.numbers × Md5Holds h.md5 h.message.numbers
        × Holds256 h.sha256 h.message.numbers × Holds512 h.sha512 h.message.numbers };
}

impl Hashes {
    /// The hashes of the empty message.
    pub fn new() -> Hashes
        ensures { result ≡ [] }
    {
        Hashes {
            sha1: Sha1::new(),
            md5: Md5::new(),
            sha256: Sha256::new(),
            sha512: Sha512::new(),
            message: message::empty(),
        }
    }

    /// Adds `bytes` at the end of the message. However a message is cut, its digests are the same.
    pub fn update(&mut self, bytes: &[u8])
        ensures { self.new ≡ self.old ++ bytes.now }
    {
        self.sha1.update(bytes);
        self.md5.update(bytes);
        self.sha256.update(bytes);
        self.sha512.update(bytes);
        self.message = message::joined(&self.message, bytes);
    }

    /// The digests of the whole message.
    pub fn finish(self) -> Digests
        ensures { result ≡ digests_of self }
    {
        let Hashes {
            sha1,
            md5,
            sha256,
            sha512,
            message: _,
        } = self;
        Digests {
            sha1: sha1.finalize(),
            md5: md5.finalize(),
            sha256: sha256.finalize(),
            sha512: sha512.finalize(),
        }
    }
}
