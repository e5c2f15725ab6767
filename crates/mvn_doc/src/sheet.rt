//! A text that is written piece by piece.
ghost use Rattle.std.specs.Prelude.{◌≡◌, ℕ, List, [], Option, Some, None, IfOk, cond};
ghost use Rattle.mvn_doc.specs.Sheet.{Adds};

use mvn_metadata::NoMemory;
use std::alloc::{AllocError, Global};
use std::marker::Model;

/// What is written so far, until memory runs out: from then on nothing is written, and the text is lost.
#[derive(Drop)]
pub(crate) struct Sheet {
    bytes: Vec<u8>,
    is_lost: bool,
}

impl Model for Sheet {
    ghost Value = { Option (List ℕ) };

    ghost view = { λ s. cond s.is_lost None (Some s.bytes.items) };
}

impl Sheet {
    /// An empty sheet with room for so many bytes.
    pub(crate) fn new(alloc: Global, room: usize) -> Result<Sheet, NoMemory>
        ensures { IfOk result (λ s. s ≡ Some []) }
    {
        Ok(Sheet {
            bytes: Vec::with_capacity(alloc, room)?,
            is_lost: false,
        })
    }

    pub(crate) fn put(&mut self, piece: &[u8])
        ensures { Adds self.old self.new piece.now }
    {
        if !self.is_lost {
            self.is_lost = self.bytes.extend_from_slice(piece).is_err();
        }
    }

    pub(crate) fn word(&mut self, word: &str)
        ensures { Adds self.old self.new word.now }
    {
        self.put(word.as_bytes());
    }

    /// The text that was written.
    pub(crate) fn text(self) -> Result<Vec<u8>, NoMemory>
        ensures { IfOk result (λ v. Some v.items ≡ self) }
    {
        if self.is_lost {
            Err(AllocError)
        } else {
            Ok(self.bytes)
        }
    }
}
