//! Slices of bytes.
ghost use Rattle.std.specs.Prelude.{◌≡◌, ◌≤◌, bytes_eq, length};
ghost use Rattle.std.specs.Option.{option_copied};
ghost use Rattle.byte_cuts.specs.Cuts as spec;

/// Whether the bytes are this word.
pub fn is(bytes: &[u8], word: &[u8]) -> bool
    ensures { result ≡ bytes_eq bytes.now word.now }
{
    bytes == word
}

/// What is left of the bytes after a front.
pub fn behind<'a>(front: &[u8], bytes: &'a [u8]) -> Option<&'a [u8]>
    ensures { option_copied result ≡ spec.behind front.now bytes.now }
{
    bytes.strip_prefix(front)
}

/// Decimal digits without the zeros at their front.
pub fn significant(mut digits: &[u8]) -> &[u8]
    ensures value { result.now ≡ spec.significant digits.entry.now }
    ensures short { length result.now ≤ length digits.entry.now }
{
    while let [b'0', rest @ ..] = digits {
        digits = rest;
    }
    digits
}
