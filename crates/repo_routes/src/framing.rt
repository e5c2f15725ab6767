//! What the method and the fields of a head say of its host, its body and its connection.
ghost use Rattle.std.specs.Prelude.{◌≡◌, codes};
ghost use Rattle.repo_routes.specs.Framing as spec;

use crate::refusal::Refusal;
use http_wire::{BodyLength, Field, Request};

/// Whether the method is HEAD, whose answers have no body (RFC 9110, section 9.3.2).
#[tactic(auto, unfolding(crate::specs::Framing::is_head))]
pub fn is_head(head: &Request) -> bool
    ensures { result ≡ spec.is_head head.now }
{
    head.method() == "HEAD"
}

/// Whether the method is PUT.
#[tactic(auto, unfolding(crate::specs::Framing::is_put))]
pub(crate) fn is_put(head: &Request) -> bool
    ensures { result ≡ spec.is_put head.now }
{
    head.method() == "PUT"
}

/// Whether the method is GET or HEAD.
#[tactic(auto, unfolding(crate::specs::Framing::is_read))]
pub(crate) fn is_read(head: &Request) -> bool
    ensures { result ≡ spec.is_read head.now }
{
    head.method() == "GET" || is_head(head)
}

/// Whether the method is POST.
#[tactic(auto, unfolding(crate::specs::Framing::is_post))]
pub(crate) fn is_post(head: &Request) -> bool
    ensures { result ≡ spec.is_post head.now }
{
    head.method() == "POST"
}

/// The host: a request of HTTP/1.1 names it exactly once (RFC 9112, section 3.2).
#[tactic(auto, unfolding(crate::specs::Framing::check_host))]
pub(crate) fn check_host(head: &Request) -> Result<(), Refusal>
    ensures { result ≡ spec.check_host head.now }
{
    if head.is_old() || head.count(b"Host") == 1 {
        Ok(())
    } else {
        Err(Refusal::BadHost)
    }
}

/// The length of the body (RFC 9112, section 6.3): a PUT has to say it, and none is taken in chunks.
#[tactic(auto, unfolding(crate::specs::Framing::length_of))]
pub(crate) fn length_of(head: &Request) -> Result<u64, Refusal>
    ensures { result ≡ spec.length_of head.now }
{
    if head.count(b"Transfer-Encoding") > 0 {
        return Err(Refusal::NoLength);
    }
    match head.body_length() {
        BodyLength::Known(length) => Ok(length),
        BodyLength::Wrong => Err(Refusal::BadLength),
        BodyLength::Missing if is_put(head) => Err(Refusal::NoLength),
        BodyLength::Missing => Ok(0),
    }
}

/// Whether the head announces a body of at least one byte.
#[tactic(auto, unfolding(crate::specs::Framing::has_body))]
pub(crate) fn has_body(head: &Request) -> bool
    ensures { result ≡ spec.has_body head.now }
{
    match head.body_length() {
        BodyLength::Known(length) => length > 0,
        _ => false,
    }
}

/// Whether the client ends the connection after this request, or has to (RFC 9112, section 9.6).
#[tactic(auto, unfolding(crate::specs::Framing::ends_connection))]
pub(crate) fn ends_connection(head: &Request) -> bool
    ensures { result ≡ spec.ends_connection head.now }
{
    head.is_old() || head.asks_close()
}

/// Whether the field is the expectation `100-continue`, in either case of letters.
fn is_expectation(field: &Field) -> bool
    ensures { result ≡ spec.is_expectation field.now }
{
    field.name.as_slice().eq_ignore_ascii_case(b"Expect")
        && field.value.as_slice().eq_ignore_ascii_case(b"100-continue")
}

/// Whether a field is the expectation `100-continue`.
#[tactic(auto, unfolding(crate::specs::Framing::asks_continue))]
fn asks_continue(fields: &[Field]) -> bool
    ensures { result ≡ spec.asks_continue fields.now }
{
    fields.iter().any(|f| is_expectation(f))
}

/// Whether the client waits for `100 Continue` before it sends the body (RFC 9110, section 10.1.1).
#[tactic(auto, unfolding(crate::specs::Framing::expects_continue))]
pub(crate) fn expects_continue(head: &Request) -> bool
    ensures { result ≡ spec.expects_continue head.now }
{
    !head.is_old() && has_body(head) && asks_continue(head.fields())
}
