//! What is known of a message's digests.
ghost use Rattle.std.specs.Prelude.{◌≡◌, ◌↔◌, true};
ghost use Rattle.mvn_digest.specs.Digests as spec;
ghost use Rattle.mvn_digest.specs.Digests.{Agrees};

use crate::digests::{Digests, MD5_BYTES, SHA1_BYTES, SHA256_BYTES, SHA512_BYTES};

/// The SHA-256 and the SHA-512 digest of one message.
#[derive(Clone, Copy, Debug, PartialEq, Eq)]
pub struct Further {
    pub sha256: [u8; SHA256_BYTES],
    pub sha512: [u8; SHA512_BYTES],
}

/// The digests that are known of one message: SHA-1 and MD5, and the further ones or neither of these.
#[derive(Clone, Copy, Debug, PartialEq, Eq)]
pub struct Known {
    pub sha1: [u8; SHA1_BYTES],
    pub md5: [u8; MD5_BYTES],
    pub further: Option<Further>,
}

impl Digests {
    /// SHA-256 and SHA-512 of these.
    pub fn further(&self) -> Further
        ensures { result ≡ spec.further_in self.now }
    {
        Further {
            sha256: self.sha256,
            sha512: self.sha512,
        }
    }

    /// All four are known.
    pub fn known(&self) -> Known
        ensures { result ≡ spec.all_known self.now }
    {
        Known {
            sha1: self.sha1,
            md5: self.md5,
            further: Some(self.further()),
        }
    }
}

impl Known {
    /// Whether a message with these digests may be the known one: each digest that is known is its own.
    pub fn agree(&self, digests: &Digests) -> bool
        ensures { result ≡ true ↔ Agrees self.now digests.now }
    {
        let found = Known {
            sha1: digests.sha1,
            md5: digests.md5,
            further: self.further.map(|_| digests.further()),
        };
        found == *self
    }
}
