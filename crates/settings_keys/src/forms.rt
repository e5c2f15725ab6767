//! Which texts may be ids, hosts, prefixes and update policies.
ghost use Rattle.std.specs.Prelude.{◌≡◌, codes, nat_eq};
ghost use Rattle.std.specs.List.{ends_with, list_all};
ghost use Rattle.settings_keys.specs.Keys as spec;
ghost use Rattle.settings_keys.specs.Ids.{is_id, is_id_byte};

/// 1 to 64 small letters, digits and `-`.
pub(crate) fn is_id(text: &str) -> bool
    ensures { result ≡ is_id text.now }
{
    if text.is_empty() || text.len() > 64 {
        return false;
    }
    are_id_bytes(text)
}

fn are_id_bytes(text: &str) -> bool
    ensures { result ≡ list_all is_id_byte text.now }
{
    text.bytes().all(|b| b.is_ascii_lowercase() || b.is_ascii_digit() || b == b'-')
}

/// 1 to 255 letters, digits, `.` and `-`.
pub(crate) fn is_host(text: &str) -> bool
    ensures { result ≡ spec.is_host text.now }
{
    if text.is_empty() || text.len() > 255 {
        return false;
    }
    are_host_bytes(text)
}

fn are_host_bytes(text: &str) -> bool
    ensures { result ≡ list_all spec.is_host_byte text.now }
{
    text.bytes().all(is_host_byte)
}

fn is_host_byte(b: u8) -> bool
    ensures { result ≡ spec.is_host_byte b }
{
    b.is_ascii_alphanumeric() || b == b'.' || b == b'-'
}

/// Nothing, or `/` and letters, digits and `. _ ~ / -`, at most 512 bytes, the last one no `/`.
pub(crate) fn is_prefix(text: &str) -> bool
    ensures { result ≡ spec.is_prefix text.now }
{
    let Some((first, rest)) = text.as_bytes().split_first() else {
        return true;
    };
    if *first != b'/' || rest.len() >= 512 || !are_prefix_bytes(rest) {
        return false;
    }
    !ends_in_slash(text)
}

#[tactic(auto, using(std::proofs::lemmas::Str::Pattern::ends_text))]
fn ends_in_slash(text: &str) -> bool
    ensures { result ≡ ends_with nat_eq text.now (codes "/") }
{
    text.ends_with("/")
}

fn are_prefix_bytes(bytes: &[u8]) -> bool
    ensures { result ≡ list_all spec.is_prefix_byte bytes.now }
{
    bytes.iter().all(|b| is_prefix_byte(*b))
}

fn is_prefix_byte(b: u8) -> bool
    ensures { result ≡ spec.is_prefix_byte b }
{
    is_host_byte(b) || b == b'_' || b == b'~' || b == b'/'
}

/// `always`, `hourly`, `daily`, `once` or `never`.
pub(crate) fn is_update(text: &str) -> bool
    ensures { result ≡ spec.is_update text.now }
{
    text == "always" || text == "hourly" || text == "daily" || text == "once" || text == "never"
}
