ghost use Rattle.std.specs.Prelude.{◌≡◌, ◌↔◌, [], IsSome, Contains};
ghost use Rattle.outside.specs.Faults.{Rose};
ghost use Rattle.outside_memory.specs.Script.{one_more, script_of};

use outside::Failed;
use std::alloc::Global;
use std::marker::Model;

/// Which calls of a disk in memory fail, the first call having the number 0, and how many have. Of a write that fails
/// the first `part` bytes are made all the same, and a cut is made where `part` is not 0. Its counts stand still at
/// 2^64 - 1.
#[derive(Drop)]
pub struct DiskScript {
    failing: Vec<u64>,
    part: u64,
    calls: u64,
    faults: u64,
}

impl Model for DiskScript {
    ghost use Rattle.outside_memory.specs.Script.{Script};

    ghost Value = { Script };

    ghost view = { λ s. record { failing = s.failing.items; calls = s.calls; faults = s.faults } };
}

impl DiskScript {
    /// No call fails.
    pub fn none(alloc: Global) -> DiskScript
        ensures { result ≡ script_of [] }
    {
        DiskScript::failing_at(Vec::new(alloc), 0)
    }

    /// The calls with these numbers fail, in any order, a write among them after its first `part` bytes.
    pub fn failing_at(failing: Vec<u64>, part: u64) -> DiskScript
        ensures { result ≡ script_of failing.items }
    {
        DiskScript {
            failing,
            part,
            calls: 0,
            faults: 0,
        }
    }

    // The next call: where it is to fail, how much of it is made.
    pub(crate) fn next_call(&mut self) -> Option<u64>
        ensures due { IsSome result ↔ Contains self.old.failing self.old.calls }
        ensures after { self.new ≡ record self.old { calls = one_more self.old.calls } }
    {
        let due = self.failing.contains(&self.calls);
        self.calls = self.calls.saturating_add(1);
        if due { Some(self.part) } else { None }
    }

    // A call fails.
    pub(crate) fn fail(&mut self) -> Failed
        ensures cause { Rose self.old.faults self.new.faults }
        ensures after { self.new ≡ record self.old { faults = one_more self.old.faults } }
    {
        self.faults = self.faults.saturating_add(1);
        Failed
    }
}
