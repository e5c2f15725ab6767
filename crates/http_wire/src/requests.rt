//! A request head, and the length of its body (RFC 9112, sections 3 and 6).
ghost use Rattle.std.specs.Prelude.{◌≡◌, IfOk, IsUtf8, codes, count_by, find, map};
ghost use Rattle.std.specs.Option.{option_map};
ghost use Rattle.http_header.specs.Token.{IsToken};

use crate::fields;
use http::Method;
use http::method::MethodError;
use std::alloc::{AllocError, Global};
use std::marker::Model;
use texts::{Bytes, Text};

/// A field of a head: its name, and its value without the blanks around it (RFC 9110, section 5.1).
#[derive(Drop)]
pub struct Field {
    pub name: Bytes,
    pub value: Bytes,
}

/// The length of a request's body by its `Content-Length` fields (RFC 9110, section 8.6).
#[derive(Clone, Copy, Debug, PartialEq, Eq)]
pub enum BodyLength {
    /// There is no such field.
    Missing,
    /// Each such field has 1 to 18 digits, and all say this number.
    Known(u64),
    /// A field has no such digits, or two say different numbers.
    Wrong,
}

/// The head of a request. A contract sees a `Head` of `specs/Head.antt`.
#[derive(Drop)]
pub struct Request {
    method: Method,
    target: Text,
    old: bool,
    fields: Vec<Field>,
}

impl Model for Request {
    ghost use Rattle.http_wire.specs.Head.{Head};

    ghost Value = { Head };

    ghost view = { λ r. record { method = r.method; target = r.target; old = r.old; fields = r.fields.items } };
}

impl Request {
    ghost use Rattle.http_wire.specs.Fields.{asks_close, body_length, is_named};

    /// A head of these parts: `method` is a token, and `target` is text.
    pub(crate) fn new(
        alloc: Global,
        method: &[u8],
        target: &[u8],
        old: bool,
        fields: Vec<Field>,
    ) -> Result<Request, AllocError>
        requires token { IsToken method.now }
        requires text { IsUtf8 target.now }
        ensures { IfOk result (λ r. r ≡ record { method = method.now; target = target.now; old = old; fields = fields.items }) }
    {
        let target = Text::new(alloc, str::from_utf8(target).unwrap())?;
        match Method::from_bytes(alloc, method) {
            Ok(method) => Ok(Request {
                method,
                target,
                old,
                fields,
            }),
            Err(_) => Err(AllocError),
        }
    }

    /// The method, as it was sent (RFC 9110, section 9.1).
    pub fn method(&self) -> &str
        ensures { result.now ≡ self.now.method }
    {
        self.method.as_str()
    }

    /// The request target, as it was sent (RFC 9112, section 3.2).
    pub fn target(&self) -> &str
        ensures { result.now ≡ self.now.target }
    {
        self.target.as_str()
    }

    /// Whether the request is of HTTP/1.0.
    pub fn is_old(&self) -> bool
        ensures { result ≡ self.now.old }
    {
        self.old
    }

    /// The fields, in their order.
    pub fn fields(&self) -> &[Field]
        ensures { result.now ≡ self.now.fields }
    {
        self.fields.as_slice()
    }

    /// How many fields have this name. The case of letters doesn't count.
    pub fn count(&self, name: &[u8]) -> usize
        ensures { result ≡ count_by (is_named name.now) self.now.fields }
    {
        fields::count(self.fields.as_slice(), name)
    }

    /// The value of the first field with this name. The case of letters doesn't count.
    pub fn first(&self, name: &[u8]) -> Option<&[u8]>
        ensures { option_map (λ v. v.now) result
            ≡ option_map (λ f. f.value) (find (is_named name.now) self.now.fields) }
    {
        fields::first(self.fields.as_slice(), name)
    }

    /// Whether a `Connection` field has the option `close` (RFC 9112, section 9.6).
    pub fn asks_close(&self) -> bool
        ensures { result ≡ asks_close self.now.fields }
    {
        fields::asks_close(self.fields.as_slice())
    }

    /// The length of the body by the `Content-Length` fields.
    pub fn body_length(&self) -> BodyLength
        ensures { result ≡ body_length self.now.fields }
    {
        fields::body_length(self.fields.as_slice())
    }
}
