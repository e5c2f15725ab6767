// Some hundred generated streams: a wire gives what the plain program says, in whatever pieces they come.
use crate::plain;
use crate::streams::{said, source_of};
use http_wire::Wire;
use outside_memory::MemSource;
use std::alloc::{AllocError, Global};

static FIRST: [&[u8]; 12] = [
    b"GET /a HTTP/1.1",
    b"PUT /b/c HTTP/1.0",
    b"X-y! http://h/?q HTTP/1.1",
    b"GET /\xc3\xa9 HTTP/1.1",
    b"GET / HTTP/1.1",
    b"HEAD * HTTP/1.1",
    b"GET /\xc3 HTTP/1.1",
    b"GET  /a HTTP/1.1",
    b"GET /a HTTP/1.2",
    b"GET /a",
    b"G T /a HTTP/1.1",
    b" GET /a HTTP/1.1",
];

static FIELDS: [&[u8]; 12] = [
    b"Host: x",
    b"A:",
    b"b:\t c d \t",
    b"E: \xff",
    b"Host:y",
    b"a-b: c:d",
    b"F: g\rh",
    b"I : j",
    b" folded",
    b"K",
    b": l",
    b"M: \x01",
];

static ENDS: [&[u8]; 10] = [
    b"\n", b"\r\n", b"\n", b"\r\n", b"\n", b"\r\n", b"\n", b"\r\n", b"\r\r\n", b"",
];

static EMPTY: [&[u8]; 4] = [b"\n", b"\r\n", b"", b"\r"];

/// Choices that look random: a seed that is scrambled at each choice.
#[derive(Drop)]
struct Choices(u64);

impl Choices {
    fn below(&mut self, count: u64) -> usize {
        self.0 = self.0.wrapping_mul(0x9e37_79b9_7f4a_7c15) ^ (self.0 >> 29);
        (self.0 % count.max(1)) as usize
    }

    // One of the options, mostly of the first half.
    fn pick(&mut self, options: &[&'static [u8]]) -> &'static [u8] {
        let count = options.len() as u64;
        let count = if self.below(12) == 0 {
            count
        } else {
            count / 2
        };
        options.get(self.below(count)).copied().unwrap_or(b"")
    }

    // Puts one of the options after the bytes.
    fn add(&mut self, bytes: &mut Vec<u8>, options: &[&'static [u8]]) -> Result<(), AllocError> {
        bytes.extend_from_slice(self.pick(options))
    }

    fn add_times(
        &mut self,
        bytes: &mut Vec<u8>,
        count: usize,
        options: &[&'static [u8]],
    ) -> Result<(), AllocError> {
        for _ in 0..count {
            self.add(bytes, options)?;
        }
        Ok(())
    }

    fn add_lines(
        &mut self,
        bytes: &mut Vec<u8>,
        count: usize,
        options: &[&'static [u8]],
    ) -> Result<(), AllocError> {
        for _ in 0..count {
            self.add(bytes, options)?;
            self.add(bytes, &ENDS)?;
        }
        Ok(())
    }

    fn add_head(&mut self, bytes: &mut Vec<u8>) -> Result<(), AllocError> {
        let blanks = self.below(3);
        self.add_times(bytes, blanks, &EMPTY)?;
        self.add_lines(bytes, 1, &FIRST)?;
        let fields = self.below(4);
        self.add_lines(bytes, fields, &FIELDS)?;
        self.add(bytes, &EMPTY)
    }

    fn stream(&mut self, alloc: Global) -> Result<Vec<u8>, AllocError> {
        let mut bytes = Vec::new(alloc);
        for _ in 0..self.below(4) {
            self.add_head(&mut bytes)?;
        }
        Ok(bytes)
    }
}

// What is left after what a call gives, or none where the plain program says something else.
fn step<'a>(
    alloc: Global,
    wire: &mut Wire,
    source: &mut MemSource,
    rest: &'a [u8],
) -> Result<Option<&'a [u8]>, AllocError> {
    let (want, left) = plain::front(alloc, rest)?;
    let given = said(alloc, wire.next_request(alloc, source))?;
    Ok((given == want).then_some(left))
}

// How many of four calls over the rest of a stream give a head, or none where the plain program says something else.
fn heads_from(
    alloc: Global,
    wire: &mut Wire,
    source: &mut MemSource,
    stream: &[u8],
) -> Result<Option<u32>, AllocError> {
    let mut rest = stream;
    let mut heads = 0u32;
    for _ in 0..4 {
        let Some(left) = step(alloc, wire, source, rest)? else {
            return Ok(None);
        };
        if left.len() < rest.len() {
            heads = heads.saturating_add(1);
        }
        rest = left;
    }
    Ok(Some(heads))
}

fn heads_of(alloc: Global, stream: &[u8], most: usize) -> Result<Option<u32>, AllocError> {
    let mut source = source_of(alloc, stream, most, u64::MAX)?;
    heads_from(alloc, &mut Wire::new(), &mut source, stream)
}

/// What is told of the generated streams: `agreed` where both programs read each alike, and many heads are found.
pub(crate) fn told_of_generated(alloc: Global) -> Result<&'static str, AllocError> {
    let mut heads = 0u32;
    for seed in 1..500u64 {
        let stream = Choices(seed).stream(alloc)?;
        match heads_of(alloc, stream.as_slice(), (seed % 40) as usize)? {
            Some(found) => heads = heads.saturating_add(found),
            None => return Ok("other"),
        }
    }
    Ok(match heads {
        200..1500 => "agreed",
        _ => "too few",
    })
}
