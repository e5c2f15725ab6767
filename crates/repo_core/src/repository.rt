//! The repository: each call is one turn of the machine, in a state that is sound.
ghost use Rattle.std.specs.Prelude.{◌≡◌};

use crate::machine::Machine;
use outside::{Clock, Held};
use repo_config::Settings;
use repo_model::{Command, Reply};
use repo_parts::fits;
use row_tables::Records;
use std::marker::Model;

/// The repository: hosted repositories with their rows, proxies with what they keep, the blob numbers, the sessions, the settings,
/// the records, a clock, and how many calls there were.
///
/// Its state is always sound: the repositories and proxies are those of the settings, their rows in byte order of path, each path once;
/// each blob number stands in one place at most; what fades is a snapshot's. The tables that the records tell, where they do,
/// hold the state: its rows, the results of its sessions and its numbers. Each document that is kept is the one of the rows now, and
/// each that is kept of a group the one of what its members have now.
#[derive(Drop)]
pub struct Core<K: Records, C: Clock, H: Held> {
    machine: Machine<C, H>,
    records: K,
}

impl<K: Records, C: Clock, H: Held> Model for Core<K, C, H> {
    ghost use Rattle.std.specs.Coded.{codes};
    ghost use Rattle.record_disk.specs.Codes.{trace_code};
    ghost use Rattle.repo_core.specs.Whole.{Whole, IsKept, whole_of};

    ghost Value = { Whole };

    ghost coded = { Prim.hlevel (codes, trace_code) };

    ghost view = { λ c. whole_of c.machine (K.shows c.records) };

    ghost invariant = { λ c. record {
      kept : IsKept (whole_of c.machine (K.shows c.records));
      ready : (K.shows c.records).IsReady;
    } };
}

impl<K: Records, C: Clock, H: Held> Core<K, C, H> {
    ghost use Rattle.std.specs.Prelude.{◌≡◌, IsTrue};
    ghost use Rattle.repo_model.specs.Command.{meets};
    ghost use Rattle.repo_model.specs.Shown.{shown_command, shown_reply};
    ghost use Rattle.repo_laws.specs.Laws.{KeepsReleases};
    ghost use Rattle.row_tables.specs.Leaving.{HasCause, end_by};
    ghost use Rattle.row_tables.specs.Crashes.{Rests};
    ghost use Rattle.repo_core.specs.CoreTurn.{CoreStep};
    ghost use Rattle.repo_core.specs.Whole.{IsKept, whole_of};

    /// The core of a machine and of records that are ready. The state is sound, and the tables, where told, hold it.
    pub(crate) fn over(machine: Machine<C, H>, records: K) -> Core<K, C, H>
        requires kept { IsKept (whole_of machine (K.shows records)) }
        requires ready { (K.shows records).IsReady }
        ensures { result ≡ whole_of machine (K.shows records) }
    {
        Core { machine, records }
    }

    /// One turn: reads the clock once, and answers the command. What it changes of rows and sessions is recorded first.
    ///
    /// The command meets its condition, as [`Core::fits`] tells. The turn is an entry that fits the machine's state, and
    /// leaves the state that the machine says; the tables, where told, are those with its items, and hold the new state.
    /// Every command but `Done` and `Drop` may run out of memory; where it is wanting, or where the records fail, nothing changes
    /// but the moment and the count of the records. That count has risen where `StoreFault` is answered, and is as it was where
    /// anything else is. A release's row stands after each call as it stood before. A draft for a file is given only
    /// where the repository takes the file, and what a look says to fetch is a plan of the settings. A `Collect` is always committed, an empty one too: where it gives blobs out to be
    /// removed, no change whose commit failed, and which may name one of them, is found any more.
    ///
    /// Where the records tell their file, a crash at any moment of the call leaves one from which a start reads the tables from before the
    /// call or those after it, or one of these with the change whose commit failed and is not undone.
    pub fn call(&mut self, command: Command<H>) -> Reply<H>
        requires { IsTrue (meets self.old.settings (shown_command command)) }
        ensures step { CoreStep self.old command result self.new }
        ensures cause { HasCause (end_by (shown_reply result)) self.old.state.faults self.new.state.faults }
        ensures releases { KeepsReleases self.old.state self.new.state }
        ensures kept { IsKept self.new }
    {
        self.machine.call(&mut self.records, command)
    }

    /// Whether a command meets its condition under these settings: its repository is there, of any kind for a `Look`, its path
    /// names what the command is about, and the repository takes files of the path's kind where it is a `Put`, whose parcel has
    /// the draft's number and at most 2^63 - 1 bytes; what a side file says is a digest of its side. What lands is of a proxy that
    /// is there: under a draft nothing but a file, whose parcel is so, and under none nothing but a document, whose written text
    /// has at most 4,000,000 bytes.
    pub fn fits(settings: &Settings, command: &Command<H>) -> bool
        ensures { result ≡ meets settings.now (shown_command command.now) }
    {
        fits(settings, command)
    }

    /// The settings, which commands are to fit.
    pub fn settings(&self) -> &Settings
        ensures { result.now ≡ self.now.settings }
    {
        self.machine.settings()
    }

    /// How many calls there were; the count stays at 2^64 - 1.
    pub fn calls(&self) -> u64
        ensures { result ≡ self.now.calls }
    {
        self.machine.calls()
    }

    /// Gives the records and the clock back.
    pub fn end(self) -> (K, C)
        ensures tables { (K.shows result.0).tables ≡ self.tables }
        ensures faults { (K.shows result.0).faults ≡ self.state.faults }
        ensures settled { (K.shows result.0).unsettled ≡ self.unsettled }
        ensures rests { Rests self.tables self.unsettled }
        ensures ready { (K.shows result.0).IsReady }
        ensures clock { C.moments result.1 ≡ self.state.clock }
    {
        let Core { machine, records } = self;
        (records, machine.end())
    }
}
