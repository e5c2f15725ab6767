//! Texts in UTF-8.
ghost use Rattle.std.specs.Prelude.{◌≡◌, bytes_eq};
ghost use Rattle.std.specs.Option.{option_copied};
ghost use Rattle.byte_cuts.specs.Cuts as spec;

/// Whether a text is this word.
pub fn is(text: &str, word: &str) -> bool
    ensures { result ≡ bytes_eq text.now word.now }
{
    text == word
}

/// What is left of a text after a front.
pub fn behind<'a>(front: &str, text: &'a str) -> Option<&'a str>
    ensures { option_copied result ≡ spec.behind front.now text.now }
{
    text.strip_prefix(front)
}

/// What is left of a text before an end.
pub fn before<'a>(end: &str, text: &'a str) -> Option<&'a str>
    ensures { option_copied result ≡ spec.before end.now text.now }
{
    text.strip_suffix(end)
}
