// Streams, and what the calls of a wire give of them.
use crate::generated::told_of_generated;
use crate::plain;
use case_texts::{Tale, bytes_of, copied, number_of, text_of, yes_or_no};
use http_wire::{HeadFault, Request, Wire, WireFault};
use outside_memory::{FaultScript, MemSource};
use std::alloc::{AllocError, Global};

/// A source of these bytes, at most so many a read, that fails at one read.
pub(crate) fn source_of(
    alloc: Global,
    bytes: &[u8],
    most: usize,
    fails_at: u64,
) -> Result<MemSource, AllocError> {
    let script = FaultScript::failing_at([fails_at].to_vec(alloc)?);
    Ok(MemSource::new(Vec::from_slice(alloc, bytes)?, most.max(1), script))
}

pub(crate) fn word_of(fault: WireFault) -> &'static str {
    match fault {
        WireFault::Refused(HeadFault::Broken) => "Broken",
        WireFault::Refused(HeadFault::TooLong) => "TooLong",
        WireFault::Torn => "Torn",
        WireFault::SourceFault => "SourceFault",
        WireFault::NoMemory => "NoMemory",
    }
}

fn line_of(alloc: Global, request: &Request) -> Result<Vec<u8>, AllocError> {
    let minor: &[u8] = if request.is_old() { b"0" } else { b"1" };
    let (method, target) = (request.method(), request.target());
    let mut line = plain::start(alloc, method.as_bytes(), target.as_bytes(), minor)?;
    for field in request.fields() {
        plain::add_field(&mut line, field.name.as_slice(), field.value.as_slice())?;
    }
    Ok(line)
}

/// What one call of `next_request` gave, as a line or a word.
pub(crate) fn said(
    alloc: Global,
    given: Result<Option<Request>, WireFault>,
) -> Result<Vec<u8>, AllocError> {
    match given {
        Ok(Some(request)) => line_of(alloc, &request),
        Ok(None) => Vec::from_slice(alloc, b"Clean"),
        Err(fault) => Vec::from_slice(alloc, word_of(fault).as_bytes()),
    }
}

/// A wire over a source, and what its calls gave, a semicolon after each.
#[derive(Drop)]
struct Calls {
    alloc: Global,
    wire: Wire,
    source: MemSource,
    given: Vec<u8>,
}

impl Calls {
    fn new(alloc: Global, source: MemSource) -> Calls {
        Calls {
            alloc,
            wire: Wire::new(),
            source,
            given: Vec::new(alloc),
        }
    }

    fn add(&mut self, given: &[u8]) -> Result<(), AllocError> {
        self.given.extend_from_slice(given)?;
        self.given.push(b';')?;
        Ok(())
    }

    fn head(&mut self) -> Result<(), AllocError> {
        let head = self.wire.next_request(self.alloc, &mut self.source);
        let line = said(self.alloc, head)?;
        self.add(line.as_slice())
    }

    fn body(&mut self, length: u64) -> Result<(), AllocError> {
        match self.wire.body(self.alloc, &mut self.source, length) {
            Ok(body) => self.add(body.as_slice()),
            Err(fault) => self.add(word_of(fault).as_bytes()),
        }
    }

    /// Makes these calls, each for a head, `-`, or for a body of that length.
    fn make(&mut self, calls: &str) -> Result<(), AllocError> {
        for call in calls.split(',') {
            match number_of(call) {
                Some(length) => self.body(length)?,
                None => self.head()?,
            }
        }
        Ok(())
    }
}

/// What these calls give.
fn given(alloc: Global, source: MemSource, calls: &str) -> Result<Vec<u8>, AllocError> {
    let mut made = Calls::new(alloc, source);
    made.make(calls)?;
    Ok(made.given)
}

/// The source of a step: the most bytes of a read, the read that fails or `never`, and its bytes.
fn source_by(
    alloc: Global,
    most: &str,
    fails_at: &str,
    bytes: &[String],
) -> Result<MemSource, AllocError> {
    let most: usize = most.parse::<usize>().unwrap_or(1);
    let fails_at: u64 = number_of(fails_at).unwrap_or(u64::MAX);
    source_of(alloc, bytes_of(alloc, bytes)?.as_slice(), most, fails_at)
}

/// What is told of a step about streams.
pub(crate) fn told(alloc: Global, key: &str, words: &[String]) -> Tale {
    Ok(Some(match (key, words) {
        ("calls", [calls, most, fails_at, bytes @ ..]) => {
            let source = source_by(alloc, most.as_str(), fails_at.as_str(), bytes)?;
            text_of(alloc, given(alloc, source, calls.as_str())?.as_slice())?
        }
        ("too-long", bytes) => {
            let source = source_by(alloc, "100", "never", bytes)?;
            let given: Vec<u8> = given(alloc, source, "-")?;
            copied(alloc, yes_or_no(given.as_slice() == b"TooLong;".as_slice()))?
        }
        ("generated-streams", []) => copied(alloc, told_of_generated(alloc)?)?,
        _ => return Ok(None),
    }))
}
