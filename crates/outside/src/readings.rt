//! Stored blobs that are read piece by piece, each against what was recorded of it.
ghost use Rattle.std.specs.Prelude.{◌≡◌, ◌<◌, ◌+◌, ◌++◌, [], None, length, min, true, false, IfOk, IfSome, OnOk};
ghost use Rattle.outside.specs.Checks.{IsPrintOf};
ghost use Rattle.outside.specs.Faults.{HasCause};
ghost use Rattle.outside.specs.Readings.{Advances, Checks, Closes, IsReadOut, Gives, GoesOn, IsAll, IsGivenOrLong, IsReadUp, IsWhole, LooksAhead, Passes, reading_of};

use crate::faults::{Failed, NoMemory};
use crate::pieces::{PIECE_BYTES, Room};
use crate::stores::Blobs;
use boxcar::tag::{Names, Tag};
use mvn_digest::{Digests, Hashes};
use std::alloc::Global;
use std::marker::Model;
use std::mem;

// How a message goes on: its bytes so far, then the piece.
struct Ends;

impl<'a> Names<(&'a Tag, &'a [u8])> for Ends {
    ghost numbers = { λ parts. parts.0.now.numbers ++ parts.1.now };
}

fn joined(message: &Tag, piece: &[u8]) -> Tag
    ensures { result.numbers ≡ message.now.numbers ++ piece.now }
{
    Tag::of::<(&Tag, &[u8]), Ends>(&(message, piece))
}

// What a blob is.
#[derive(Clone, Copy)]
pub(crate) struct Found {
    pub(crate) length: u64,
    pub(crate) digests: Digests,
}

/// What a reading gives next.
#[derive(Clone, Copy, Debug, PartialEq, Eq)]
pub enum Step {
    /// A piece, which the reading lends.
    Piece,
    /// All recorded bytes were given, and the whole was found equal.
    End,
    /// The blob has another length in bytes or other digests than were recorded: these.
    Differs { length: u64, digests: Digests },
}

// How many bytes of a blob of this recorded length are read at once.
fn room_for(length: u64) -> usize
    ensures { result ≡ min 65535 length + 1 }
{
    length.min(PIECE_BYTES as u64 - 1) as usize + 1
}

/// A blob that is read piece by piece, each of 1 to 65,536 bytes. It gives a piece only once a later byte within the recorded
/// length was read, or the whole was found to have the recorded length and digests: of a blob that differs, the last piece of
/// the recorded length is never given. Each piece but the recorded length's last has 65,536 bytes. A longer blob is read on to
/// its end. The bytes of a piece are hashed once it was given, or when the whole is judged: a first piece waits for reads alone.
///
/// Contracts see what was recorded, the bytes read so far, how many of them were given, and the piece.
#[derive(Drop)]
pub struct Reading {
    length: u64,
    digests: Digests,
    at: u64,
    given: u64,
    hashes: Hashes,
    message: Tag,
    piece: Room,
    ahead: Room,
    is_whole: bool,
    is_short: bool,
    is_spent: bool,
    is_over: bool,
}

impl Model for Reading {
    ghost use Rattle.outside.specs.Readings.{ReadingState, IsReading};

    ghost Value = { ReadingState };

    ghost view = { λ r. record {
      recorded = r.length;
      digests = r.digests;
      message = r.message.numbers;
      given = r.given;
      piece = r.piece.bytes;
      is_whole = r.is_whole;
      is_short = r.is_short;
      is_spent = r.is_spent;
      is_over = r.is_over;
    } };

    ghost invariant = { λ r. IsReading r.length r.digests r.message.numbers r.given r.at r.hashes r.piece r.ahead r.is_whole r.is_short r.is_spent r.is_over };
}

impl Reading {
    /// A reading from the first byte on of a blob with this length in bytes and these digests. It takes all the room that the
    /// reading wants: twice 64 KiB, or of a blob that is shorter twice its length and a byte.
    pub fn new(alloc: Global, length: u64, digests: Digests) -> Result<Reading, NoMemory>
        ensures { IfOk result (λ reading. reading ≡ reading_of length digests) }
    {
        let most = room_for(length);
        Ok(Reading {
            length,
            digests,
            at: 0,
            given: 0,
            hashes: Hashes::new(),
            message: Tag::empty(),
            piece: Room::new(alloc, most)?,
            ahead: Room::new(alloc, most)?,
            is_whole: false,
            is_short: false,
            is_spent: false,
            is_over: false,
        })
    }

    /// The piece that was given last. After an end nothing is said of it.
    pub fn piece(&self) -> &[u8]
        ensures { result.now ≡ self.now.piece }
    {
        self.piece.bytes()
    }

    /// The digests of the blob, if it was found whole and equal, and all of it was given.
    pub(crate) fn found(&self) -> Option<Digests>
        ensures { IfSome result (λ digests. (self.now.is_whole ≡ true) × (self.now.given ≡ length self.now.message)
            × (digests ≡ self.now.digests) × IsPrintOf self.now.message self.now.recorded self.now.digests) }
    {
        if self.is_whole {
            Some(self.digests)
        } else {
            None
        }
    }

    // The piece that was given is hashed, the one that was ahead is the one to give, and nothing is ahead.
    fn pass(&mut self)
        requires { self.old.is_spent ≡ false }
        ensures { Passes self.old self.new }
    {
        self.hashes.update(self.piece.bytes());
        mem::swap(&mut self.piece, &mut self.ahead);
        self.ahead.clear();
        self.given = self.at;
    }

    // Reads ahead, within the recorded length, where nothing is ahead. A read that gives less than was wanted found the blob's
    // end, after which none is made.
    fn look_ahead<B: Blobs>(&mut self, blobs: &mut B, held: &B::Held) -> Result<(), Failed>
        requires live { self.old.is_spent ≡ false }
        requires half { self.old.is_over ≡ false }
        requires none { self.old.given ≡ length self.old.message }
        ensures cause { HasCause (B.faults blobs.old) (B.faults blobs.new) result }
        ensures looks { LooksAhead (B.Held.bytes held.now) self.old self.new }
        ensures up { OnOk result (self.new.given ≡ length self.new.message → IsReadUp self.new) }
        ensures ended { IsReadUp self.old → self.new.given ≡ length self.new.message }
        ensures kept { B.shelf blobs.new ≡ B.shelf blobs.old }
    {
        if self.is_short {
            return Ok(());
        }
        let left = self.length - self.at;
        self.ahead.fill(blobs, held, self.at, left)?;
        let bytes = self.ahead.bytes();
        self.is_short = (bytes.len() as u64) < left.min(PIECE_BYTES as u64);
        self.message = joined(&self.message, bytes);
        self.at += bytes.len() as u64;
        Ok(())
    }

    // The last piece is hashed too, and so is all that was read. From here on the reading is spent, until it is judged.
    fn close(&mut self)
        requires live { self.old.is_spent ≡ false }
        requires half { self.old.is_over ≡ false }
        requires all { self.old.given ≡ length self.old.message }
        ensures { Closes self.old self.new }
    {
        self.hashes.update(self.piece.bytes());
        self.is_spent = true;
    }

    // Reads what stands after the recorded length, to the blob's end, and hashes it.
    fn read_on<B: Blobs>(&mut self, blobs: &mut B, held: &B::Held) -> Result<(), Failed>
        requires half { self.old.is_over ≡ false }
        requires spent { self.old.is_spent ≡ true }
        requires not_whole { self.old.is_whole ≡ false }
        requires not_short { self.old.is_short ≡ false }
        ensures cause { HasCause (B.faults blobs.old) (B.faults blobs.new) result }
        ensures goes { GoesOn (B.Held.bytes held.now) self.old self.new }
        ensures told { OnOk result (IsAll (B.Held.bytes held.now) self.new) }
        ensures half { self.new.is_over ≡ false }
        ensures spent { self.new.is_spent ≡ true }
        ensures same { (self.new.is_whole ≡ false) × (self.new.given ≡ self.old.given) × (self.new.piece ≡ self.old.piece) }
        ensures kept { B.shelf blobs.new ≡ B.shelf blobs.old }
    {
        loop {
            self.ahead.fill(blobs, held, self.at, PIECE_BYTES as u64)?;
            if self.ahead.is_empty() {
                return Ok(());
            }
            let bytes = self.ahead.bytes();
            self.hashes.update(bytes);
            self.message = joined(&self.message, bytes);
            self.at += bytes.len() as u64;
        }
    }

    // What the bytes read so far are. All of them were given but for the last piece, or they are too many.
    fn judge(&mut self) -> Option<Found>
        requires half { self.old.is_over ≡ false }
        requires spent { self.old.is_spent ≡ true }
        requires given { IsGivenOrLong self.old }
        ensures recorded { (self.new.recorded ≡ self.old.recorded) × (self.new.digests ≡ self.old.digests) }
        ensures same { (self.new.given ≡ self.old.given) × (self.new.piece ≡ self.old.piece) × (self.new.message ≡ self.old.message)
            × (self.new.is_short ≡ self.old.is_short) }
        ensures equal { result ≡ None → (self.new.is_spent ≡ false) × IsWhole self.new }
        ensures other { IfSome result (λ found. IsPrintOf self.new.message found.length found.digests
            × ¬ ((found.length ≡ self.new.recorded) × (found.digests ≡ self.new.digests))) }
    {
        let hashes = mem::replace(&mut self.hashes, Hashes::new());
        let found = hashes.finish();
        self.is_over = true;
        self.ahead.clear();
        if self.at == self.length && found == self.digests {
            self.is_whole = true;
            self.is_spent = false;
            return None;
        }
        self.is_spent = true;
        Some(Found {
            length: self.at,
            digests: found,
        })
    }

    // Takes the piece that is ahead, and looks ahead of it. It says whether there is nothing after it.
    fn advance<B: Blobs>(&mut self, blobs: &mut B, held: &B::Held) -> Result<bool, Failed>
        requires live { self.old.is_spent ≡ false }
        requires half { self.old.is_over ≡ false }
        ensures cause { HasCause (B.faults blobs.old) (B.faults blobs.new) result }
        ensures goes { GoesOn (B.Held.bytes held.now) self.old self.new }
        ensures advances { IfOk result (λ is_end. Advances (B.Held.bytes held.now) self.old self.new is_end) }
        ensures kept { B.shelf blobs.new ≡ B.shelf blobs.old }
    {
        if self.given == self.at {
            self.look_ahead(blobs, held)?;
        }
        self.advance_by(blobs, held)
    }

    // The same where a piece is ahead, or nothing is left.
    fn advance_by<B: Blobs>(&mut self, blobs: &mut B, held: &B::Held) -> Result<bool, Failed>
        requires live { self.old.is_spent ≡ false }
        requires half { self.old.is_over ≡ false }
        requires up { self.old.given ≡ length self.old.message → IsReadUp self.old }
        ensures cause { HasCause (B.faults blobs.old) (B.faults blobs.new) result }
        ensures goes { GoesOn (B.Held.bytes held.now) self.old self.new }
        ensures advances { IfOk result (λ is_end. Advances (B.Held.bytes held.now) self.old self.new is_end) }
        ensures kept { B.shelf blobs.new ≡ B.shelf blobs.old }
    {
        self.pass();
        self.look_ahead(blobs, held)?;
        Ok(self.given == self.at)
    }

    // Reads what the blob has after the recorded length, where it has so many bytes.
    fn read_past<B: Blobs>(&mut self, blobs: &mut B, held: &B::Held) -> Result<(), Failed>
        requires half { self.old.is_over ≡ false }
        requires spent { self.old.is_spent ≡ true }
        requires not_whole { self.old.is_whole ≡ false }
        requires all { self.old.given ≡ length self.old.message }
        requires up { IsReadUp self.old }
        ensures cause { HasCause (B.faults blobs.old) (B.faults blobs.new) result }
        ensures goes { GoesOn (B.Held.bytes held.now) self.old self.new }
        ensures told { OnOk result (IsAll (B.Held.bytes held.now) self.new) }
        ensures half { self.new.is_over ≡ false }
        ensures spent { self.new.is_spent ≡ true }
        ensures same { (self.new.given ≡ self.old.given) × (self.new.piece ≡ self.old.piece) }
        ensures left { IsGivenOrLong self.new }
        ensures kept { B.shelf blobs.new ≡ B.shelf blobs.old }
    {
        if self.at == self.length {
            self.read_on(blobs, held)
        } else {
            Ok(())
        }
    }

    // Looks whether all of the blob is as it was recorded, and gives what it is where it isn't.
    fn check<B: Blobs>(&mut self, blobs: &mut B, held: &B::Held) -> Result<Option<Found>, Failed>
        requires live { self.old.is_spent ≡ false }
        requires half { self.old.is_over ≡ false }
        requires not_whole { self.old.is_whole ≡ false }
        requires all { self.old.given ≡ length self.old.message }
        requires up { IsReadUp self.old }
        ensures cause { HasCause (B.faults blobs.old) (B.faults blobs.new) result }
        ensures goes { GoesOn (B.Held.bytes held.now) self.old self.new }
        ensures same { (self.new.given ≡ self.old.given) × (self.new.piece ≡ self.old.piece) }
        ensures checks { IfOk result (λ found. Checks (B.Held.bytes held.now) self.new found) }
        ensures kept { B.shelf blobs.new ≡ B.shelf blobs.old }
    {
        self.close();
        self.read_past(blobs, held)?;
        Ok(self.judge())
    }

    /// Reads the next piece, which `piece` lends then. It takes no memory. Each call is to be given the same blob. After
    /// `Differs`, or a failure, a reading is not gone on with.
    pub fn next<B: Blobs>(&mut self, blobs: &mut B, held: &B::Held) -> Result<Step, Failed>
        requires live { self.old.is_spent ≡ false }
        ensures cause { HasCause (B.faults blobs.old) (B.faults blobs.new) result }
        ensures goes { GoesOn (B.Held.bytes held.now) self.old self.new }
        ensures gives { IfOk result (λ step. Gives self.old self.new step) }
        ensures ended { self.old.is_whole ≡ true → result ≡ Ok Step.End }
        ensures told { IfOk result (λ step. IsReadOut (B.Held.bytes held.now) self.old self.new step) }
        ensures kept { B.shelf blobs.new ≡ B.shelf blobs.old }
    {
        if self.is_over {
            return Ok(Step::End);
        }
        if !self.advance(blobs, held)? {
            return Ok(Step::Piece);
        }
        if let Some(found) = self.check(blobs, held)? {
            return Ok(Step::Differs {
                length: found.length,
                digests: found.digests,
            });
        }
        if self.piece.is_empty() {
            Ok(Step::End)
        } else {
            Ok(Step::Piece)
        }
    }
}
