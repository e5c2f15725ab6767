ghost use Rattle.std.specs.Prelude.{◌≡◌};
ghost use Rattle.mvn_digest.specs.Hex.{hex_text};
ghost use Rattle.mvn_digest.specs.Sides.{bytes_in, side_in, side_of};

use mvn_coords::Side;

/// The length of a SHA-1 digest in bytes (FIPS 180-4, section 1).
pub const SHA1_BYTES: usize = 20;

/// The length of an MD5 digest in bytes (RFC 1321, section 3.5).
pub const MD5_BYTES: usize = 16;

/// The length of a SHA-256 digest in bytes (FIPS 180-4, section 1).
pub const SHA256_BYTES: usize = 32;

/// The length of a SHA-512 digest in bytes (FIPS 180-4, section 1).
pub const SHA512_BYTES: usize = 64;

/// The number of hexadecimal digits of a SHA-1 digest.
pub const SHA1_DIGITS: usize = 40;

/// The number of hexadecimal digits of an MD5 digest.
pub const MD5_DIGITS: usize = 32;

/// The number of hexadecimal digits of a SHA-256 digest.
pub const SHA256_DIGITS: usize = 64;

/// The number of hexadecimal digits of a SHA-512 digest.
pub const SHA512_DIGITS: usize = 128;

/// The four digests of one message.
#[derive(Clone, Copy, Debug, PartialEq, Eq)]
pub struct Digests {
    pub sha1: [u8; SHA1_BYTES],
    pub md5: [u8; MD5_BYTES],
    pub sha256: [u8; SHA256_BYTES],
    pub sha512: [u8; SHA512_BYTES],
}

/// A digest of one side.
#[derive(Clone, Copy, Debug, PartialEq, Eq)]
pub enum Digest {
    Sha1([u8; SHA1_BYTES]),
    Md5([u8; MD5_BYTES]),
    Sha256([u8; SHA256_BYTES]),
    Sha512([u8; SHA512_BYTES]),
}

impl Digest {
    /// The digest's bytes: 20 of SHA-1, 16 of MD5, 32 of SHA-256 or 64 of SHA-512.
    pub fn bytes(&self) -> &[u8]
        ensures { result.now ≡ bytes_in self.now }
    {
        match self {
            Digest::Sha1(bytes) => bytes.as_slice(),
            Digest::Md5(bytes) => bytes.as_slice(),
            Digest::Sha256(bytes) => bytes.as_slice(),
            Digest::Sha512(bytes) => bytes.as_slice(),
        }
    }

    /// The side that the digest is of.
    pub fn side(&self) -> Side
        ensures { result ≡ side_in self.now }
    {
        match self {
            Digest::Sha1(_) => Side::Sha1,
            Digest::Md5(_) => Side::Md5,
            Digest::Sha256(_) => Side::Sha256,
            Digest::Sha512(_) => Side::Sha512,
        }
    }
}

impl Digests {
    /// The digest of a side.
    pub fn of(&self, side: Side) -> Digest
        ensures bytes { bytes_in result ≡ side_of self.now side }
        ensures side { side_in result ≡ side }
    {
        match side {
            Side::Sha1 => Digest::Sha1(self.sha1),
            Side::Md5 => Digest::Md5(self.md5),
            Side::Sha256 => Digest::Sha256(self.sha256),
            Side::Sha512 => Digest::Sha512(self.sha512),
        }
    }

    /// The SHA-1 digest as 40 lower case hexadecimal digits, the high half of each byte first.
    pub fn sha1_text(&self) -> [u8; SHA1_DIGITS]
        ensures { result ≡ hex_text self.now.sha1 }
    {
        let mut text = [0; SHA1_DIGITS];
        let _ = hex::encode_to_slice(self.sha1.as_slice(), &mut text);
        text
    }

    /// The MD5 digest as 32 lower case hexadecimal digits, the high half of each byte first.
    pub fn md5_text(&self) -> [u8; MD5_DIGITS]
        ensures { result ≡ hex_text self.now.md5 }
    {
        let mut text = [0; MD5_DIGITS];
        let _ = hex::encode_to_slice(self.md5.as_slice(), &mut text);
        text
    }
}
