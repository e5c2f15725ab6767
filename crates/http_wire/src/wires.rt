//! Heads and bodies cut off a stream, however its bytes come.
ghost use Rattle.std.specs.Prelude.{◌≡◌, ◌≢◌, ℕ, ◌+◌, ◌-◌, ◌<◌, ◌≤◌, ◌++◌, List, [], length, take, drop, slice_range, min, IfOk, IfNone, IfSome, IsSome, OnErr, OnOk, vec_len, vec_capacity, None};
ghost use Rattle.std.specs.Option.{option_map};
ghost use Rattle.outside.specs.Faults.{HasCause};
ghost use Rattle.outside.specs.Told.{IsAtEnd, in_front};
ghost use Rattle.http_wire.specs.Held.{Grows};
ghost use Rattle.http_wire.specs.declared.faults.HeadFault.{HeadFault};

use crate::HEAD_BYTES;
use crate::faults::{HeadFault, WireFault};
use crate::parser::read_head;
use crate::requests::Request;
use crate::search::{Place, Search, resume};
use outside::{Failed, Source, read_full};
use std::alloc::{AllocError, Global};
use std::marker::Model;

/// How many bytes of a body's room are written to at most before they come. So bytes that are announced and never sent
/// take addresses, and no memory.
const PIECE_BYTES: usize = 65_536;

/// The bytes that were taken from a source and not used yet, at most `HEAD_BYTES`. A contract sees their list.
#[derive(Drop)]
pub struct Wire {
    buffer: [u8; HEAD_BYTES],
    start: usize,
    end: usize,
}

impl Model for Wire {
    ghost use Rattle.std.specs.Prelude.{ℕ, ◌≤◌, List, slice_range};

    ghost Value = { List ℕ };

    ghost view = { λ w. slice_range w.buffer w.start w.end };

    ghost invariant = { λ w. (w.start ≤ w.end) × (w.end ≤ 8192) };
}

/// What `find_head` found.
enum Found {
    /// A whole head is held from `start` to `end`.
    Head { start: usize, end: usize },
    /// The source is at its end, and no whole head is held.
    End,
    /// The wire is full, and no whole head is held.
    Full,
}

/// Moves the bytes from `start` to `end` to the front.
fn move_to_front(buffer: &mut [u8], start: usize, end: usize)
    requires ordered { start ≤ end }
    requires within { end ≤ length buffer.old }
    ensures { take (end - start) buffer.new ≡ slice_range buffer.old start end }
{
    buffer[..end].rotate_left(start);
}

/// Reads once into the part after the first `held` bytes.
fn read_after<S: Source>(source: &mut S, buffer: &mut [u8], held: usize) -> Result<usize, Failed>
    requires { held < length buffer.old }
    ensures cause { HasCause (S.read_faults source.old) (S.read_faults source.new) result }
    ensures kept { take held buffer.new ≡ take held buffer.old }
    ensures count { IfOk result (λ n. held + n ≤ length buffer.new) }
    ensures given { IfOk result (λ n. S.left source.old
        ≡ in_front (slice_range buffer.new held (held + n)) (S.left source.new)) }
    ensures end { IfOk result (λ n. n ≡ 0 → IsAtEnd (S.left source.new)) }
    ensures failed { OnErr result (S.left source.new ≡ S.left source.old) }
    ensures taken { S.taken source.new ≡ S.taken source.old }
    ensures write_faults { S.write_faults source.new ≡ S.write_faults source.old }
{
    source.read(&mut buffer[held..])
}

/// Reads from the source until `body` has `end` bytes, or to the source's end. Its room is there already.
fn read_to<S: Source>(source: &mut S, body: &mut Vec<u8>, end: usize) -> Result<(), Failed>
    requires short { vec_len body.old < end }
    requires room { end ≤ vec_capacity body.old }
    ensures cause { HasCause (S.read_faults source.old) (S.read_faults source.new) result }
    ensures within { OnOk result (vec_len body.new ≤ end) }
    ensures room { vec_capacity body.old ≤ vec_capacity body.new }
    ensures given { OnOk result ((n : ℕ) × Grows body.old.items (S.left source.old) body.new.items (S.left source.new) n) }
    ensures end { OnOk result (vec_len body.new < end → IsAtEnd (S.left source.new)) }
    ensures failed { OnErr result ((gone : List ℕ) × (vec_len body.old + length gone < end)
        × (S.left source.old ≡ in_front gone (S.left source.new))) }
    ensures taken { S.taken source.new ≡ S.taken source.old }
    ensures write_faults { S.write_faults source.new ≡ S.write_faults source.old }
{
    let held = body.len();
    let Ok(()) = body.resize(end, 0) else {
        unreachable!()
    };
    let count = read_full(source, &mut body[held..])?;
    body.truncate(held + count);
    Ok(())
}

/// Reads from the source until `body` has `count` bytes, or to the source's end. Its room is there already, and is
/// written to a piece at a time. Where it has them the source isn't read.
fn read_rest<S: Source>(source: &mut S, body: &mut Vec<u8>, count: usize) -> Result<(), Failed>
    requires within { vec_len body.old ≤ count }
    requires room { count ≤ vec_capacity body.old }
    ensures cause { HasCause (S.read_faults source.old) (S.read_faults source.new) result }
    ensures within { OnOk result (vec_len body.new ≤ count) }
    ensures given { OnOk result ((n : ℕ) × Grows body.old.items (S.left source.old) body.new.items (S.left source.new) n) }
    ensures end { OnOk result (vec_len body.new < count → IsAtEnd (S.left source.new)) }
    ensures failed { OnErr result ((gone : List ℕ) × (vec_len body.old + length gone < count)
        × (S.left source.old ≡ in_front gone (S.left source.new))) }
    ensures unasked { vec_len body.old ≡ count → source.new ≡ source.old }
    ensures taken { S.taken source.new ≡ S.taken source.old }
    ensures write_faults { S.write_faults source.new ≡ S.write_faults source.old }
{
    while body.len() < count {
        let end = body.len() + PIECE_BYTES.min(count - body.len());
        read_to(source, body, end)?;
        if body.len() < end {
            return Ok(());
        }
    }
    Ok(())
}

impl Wire {
    ghost use Rattle.std.specs.List.{list_all};
    ghost use Rattle.http_wire.specs.Front.{Bad, Clean, Cut, Whole, front, head_place, is_line_byte};
    ghost use Rattle.http_wire.specs.Head.{Head, head_of};
    ghost use Rattle.http_wire.specs.Parsed.{IsTaken};
    ghost use Rattle.http_wire.specs.Search.{IsHeadAt};
    ghost use Rattle.http_wire.specs.Stream.{BeginsWith, BeginsWithHead, CountsFaults, unread};
    ghost use Rattle.http_wire.specs.Held.{IsHeld};

    /// A wire that holds nothing.
    pub fn new() -> Wire
        ensures { result ≡ [] }
    {
        Wire {
            buffer: [0; HEAD_BYTES],
            start: 0,
            end: 0,
        }
    }

    /// The bytes that are held.
    pub(crate) fn held(&self) -> &[u8]
        ensures value { result.now ≡ self.now }
        ensures room { length self.now ≤ HEAD_BYTES }
    {
        &self.buffer[self.start..self.end]
    }

    /// Takes that many bytes off the front.
    pub(crate) fn use_up(&mut self, count: usize)
        requires { count ≤ length self.old }
        ensures { self.new ≡ drop count self.old }
    {
        self.start += count;
    }

    /// Moves at most `count` of the bytes that are held, from their front, into an empty body.
    fn hand_out(&mut self, body: &mut Vec<u8>, count: usize) -> Result<(), AllocError>
        requires { body.old.items ≡ [] }
        ensures body { OnOk result (body.new.items ≡ take count self.old) }
        ensures rest { OnOk result (self.new ≡ drop count self.old) }
        ensures kept { OnErr result (self.new ≡ self.old) }
        ensures room { vec_capacity body.old ≤ vec_capacity body.new }
    {
        let part = count.min(self.held().len());
        body.extend_from_slice(&self.held()[..part])?;
        self.use_up(part);
        Ok(())
    }

    /// Reads once from the source. 0 is the source's end.
    fn fill<S: Source>(&mut self, source: &mut S) -> Result<usize, Failed>
        requires { length self.old < HEAD_BYTES }
        ensures cause { HasCause (S.read_faults source.old) (S.read_faults source.new) result }
        ensures given { IfOk result (Grows self.old (S.left source.old) self.new (S.left source.new)) }
        ensures end { IfOk result (λ n. n ≡ 0 → IsAtEnd (S.left source.new)) }
        ensures held { OnErr result (self.new ≡ self.old) }
        ensures left { OnErr result (S.left source.new ≡ S.left source.old) }
        ensures taken { S.taken source.new ≡ S.taken source.old }
        ensures write_faults { S.write_faults source.new ≡ S.write_faults source.old }
    {
        move_to_front(&mut self.buffer, self.start, self.end);
        self.end -= self.start;
        self.start = 0;
        let count = read_after(source, &mut self.buffer, self.end)?;
        self.end += count;
        Ok(count)
    }

    /// Reads until a whole head is held.
    fn find_head<S: Source>(&mut self, source: &mut S) -> Result<Found, Failed>
        ensures cause { HasCause (S.read_faults source.old) (S.read_faults source.new) result }
        ensures unread { unread self.new (S.left source.new) ≡ unread self.old (S.left source.old) }
        ensures found { IfOk result (IsHeld self.new (S.left source.new)) }
        ensures unasked { IsSome (head_place self.old) → source.new ≡ source.old }
        ensures needed { OnErr result (head_place self.new ≡ None) }
        ensures taken { S.taken source.new ≡ S.taken source.old }
        ensures write_faults { S.write_faults source.new ≡ S.write_faults source.old }
    {
        let mut place = Place {
            start: 0,
            line: 0,
            at: 0,
        };
        loop {
            match resume(self.held(), place) {
                Search::Found { start, end } => return Ok(Found::Head { start, end }),
                Search::Open(next) => place = next,
            }
            if self.held().len() == HEAD_BYTES {
                return Ok(Found::Full);
            }
            if self.fill(source)? == 0 {
                return Ok(Found::End);
            }
        }
    }

    /// Takes the head that is held from `start` to `end`, and the blank lines before it.
    fn take_head(
        &mut self,
        alloc: Global,
        start: usize,
        end: usize,
    ) -> Result<Result<Request, HeadFault>, AllocError>
        requires room { length self.old ≤ HEAD_BYTES }
        requires head { IsHeadAt self.old start end }
        ensures taken { IfOk result (IsTaken self.old self.new) }
        ensures memory { OnErr result ((more : List ℕ) → (head : Head) × (rest : List ℕ)
            × (front (self.old ++ more) ≡ Whole head rest)) }
        ensures kept { OnErr result (self.new ≡ self.old) }
    {
        match read_head(alloc, &self.held()[start..end])? {
            Ok(head) => {
                self.use_up(end);
                Ok(Ok(head))
            }
            Err(fault) => Ok(Err(fault)),
        }
    }

    /// Whether nothing but CR and LF is held.
    fn is_blank(&self) -> bool
        ensures { result ≡ list_all is_line_byte self.now }
    {
        self.held().iter().all(|b| *b == b'\r' || *b == b'\n')
    }

    /// Takes the next request head from the wire and the source; `None` is the end of the stream between
    /// requests. Blank lines before a head are skipped (RFC 9112, section 2.2).
    ///
    /// A head has at most `HEAD_BYTES` bytes, blank lines before it included, and at most `FIELD_LINES` field
    /// lines. Where no head is given, no byte is lost. Where the source tells nothing, the clauses that name
    /// its bytes say nothing.
    pub fn next_request<S: Source>(
        &mut self,
        alloc: Global,
        source: &mut S,
    ) -> Result<Option<Request>, WireFault>
        ensures request { IfOk result (λ given. IfSome given (λ head.
            option_map front (unread self.old (S.left source.old))
            ≡ option_map (λ rest. Whole head rest) (unread self.new (S.left source.new)))) }
        ensures spelled { IfOk result (λ given. IfSome given (λ head.
            (bytes : List ℕ) × (head_of bytes ≡ Some head))) }
        ensures clean { IfOk result (λ given. IfNone given
            (BeginsWith (unread self.old (S.left source.old)) Clean)) }

        // Each fault comes only for its cause. Memory is asked for only once a whole head is there.
        ensures torn { result ≡ Err WireFault.Torn
            → BeginsWith (unread self.old (S.left source.old)) Cut }
        ensures refused { (fault : HeadFault) → result ≡ Err (WireFault.Refused fault)
            → BeginsWith (unread self.old (S.left source.old)) (Bad fault) }
        ensures memory { result ≡ Err WireFault.NoMemory
            → BeginsWithHead (unread self.old (S.left source.old)) }
        ensures faults { CountsFaults (S.read_faults source.old) (S.read_faults source.new) result }

        // Where the wire holds a whole head the source isn't read, also where this call read that head: any read may
        // fail, and none fails over a whole head.
        ensures unasked { IsSome (head_place self.old) → source.new ≡ source.old }
        ensures needed { result ≡ Err WireFault.SourceFault → head_place self.new ≡ None }

        // Without a request nothing is used up.
        ensures kept_at_end { IfOk result (λ given. IfNone given
            (unread self.new (S.left source.new) ≡ unread self.old (S.left source.old))) }
        ensures kept { OnErr result
            (unread self.new (S.left source.new) ≡ unread self.old (S.left source.old)) }
        ensures taken { S.taken source.new ≡ S.taken source.old }
        ensures write_faults { S.write_faults source.new ≡ S.write_faults source.old }
    {
        match self.find_head(source)? {
            Found::Head { start, end } => match self.take_head(alloc, start, end)? {
                Ok(request) => Ok(Some(request)),
                Err(fault) => Err(WireFault::Refused(fault)),
            },
            Found::Full => Err(WireFault::Refused(HeadFault::TooLong)),
            Found::End => {
                if self.is_blank() {
                    Ok(None)
                } else {
                    Err(WireFault::Torn)
                }
            }
        }
    }

    /// Takes the next `count` bytes from the wire and the source. Memory is asked for once, before any byte
    /// is used, and written to as they come, at most `PIECE_BYTES` ahead.
    ///
    /// After `NoMemory` nothing is used up. After `Torn` the stream is at its end. After `SourceFault` the wire
    /// is empty, and fewer than `count` bytes are gone. Where the wire holds the whole body the source isn't read.
    pub fn body<S: Source>(
        &mut self,
        alloc: Global,
        source: &mut S,
        count: u64,
    ) -> Result<Vec<u8>, WireFault>
        ensures length { IfOk result (λ body. vec_len body ≡ count) }
        ensures given { IfOk result (λ body. unread self.old (S.left source.old)
            ≡ in_front body.items (unread self.new (S.left source.new))) }

        // Each fault comes only for its cause, and says what is left.
        ensures torn { result ≡ Err WireFault.Torn
            → IfSome (unread self.old (S.left source.old)) (λ all. length all < count) }
        ensures torn_rest { result ≡ Err WireFault.Torn
            → IsAtEnd (unread self.new (S.left source.new)) }
        ensures memory_held { result ≡ Err WireFault.NoMemory → self.new ≡ self.old }
        ensures memory_left { result ≡ Err WireFault.NoMemory → S.left source.new ≡ S.left source.old }
        ensures fault_rest { result ≡ Err WireFault.SourceFault → (gone : List ℕ)
            × (length gone < count) × (self.new ≡ [])
            × (unread self.old (S.left source.old) ≡ in_front gone (S.left source.new)) }
        ensures unasked { count ≤ length self.old → source.new ≡ source.old }
        ensures not_refused { (fault : HeadFault) → result ≢ Err (WireFault.Refused fault) }
        ensures faults { CountsFaults (S.read_faults source.old) (S.read_faults source.new) result }
        ensures taken { S.taken source.new ≡ S.taken source.old }
        ensures write_faults { S.write_faults source.new ≡ S.write_faults source.old }
    {
        let count = count as usize;
        let mut body = Vec::with_capacity(alloc, count)?;
        self.hand_out(&mut body, count)?;
        read_rest(source, &mut body, count)?;
        if body.len() < count {
            return Err(WireFault::Torn);
        }
        Ok(body)
    }
}
