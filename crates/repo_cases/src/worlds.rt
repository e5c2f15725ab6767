// Cores over memory, one after the other, and what outlasts each. A core is called in small functions alone, so that what it
// promises is not carried through the others.
use crate::objects::CaseCore;
use crate::starts::told_start;
use core_steps::{
    Ask, CaseBlobs, CaseHeld, Cores, WorldFault, command_of, may_put, numbers_of, parcel_of, stage,
    told,
};
use outside::{Blobs, Clock, Held, Parcel};
use outside_memory::{ScriptClock, read_whole, store_whole};
use repo_config::{Settings, read};
use repo_core::{Command, Core, Place, Reply, StartFault, start};
use repo_model::Item;
use row_tables::{MemRecords, Records};
use std::alloc::Global;
use std::mem;

/// A core or none, its blobs, and the records while none runs.
#[derive(Drop)]
pub(crate) struct World {
    alloc: Global,
    core: Option<CaseCore>,
    records: MemRecords,
    blobs: CaseBlobs,
    borrowed: Option<Parcel<CaseHeld>>,
    // how many calls the last core had, and what its clock then told
    ended: (u64, u64),
}

// Whether a command meets its condition.
fn is_fit<K: Records, C: Clock, H: Held>(core: &Core<K, C, H>, command: &Command<H>) -> bool {
    Core::<K, C, H>::fits(core.settings(), command)
}

// The reply, where the command meets its condition.
fn reply_of<K: Records, C: Clock, H: Held>(
    core: &mut Core<K, C, H>,
    command: Command<H>,
) -> Option<Reply<H>> {
    if !Core::<K, C, H>::fits(core.settings(), &command) {
        return None;
    }
    Some(core.call(command))
}

// How many calls there were, and the records and the clock.
fn end_of<K: Records, C: Clock, H: Held>(core: Core<K, C, H>) -> (u64, K, C) {
    let calls = core.calls();
    let (records, clock) = core.end();
    (calls, records, clock)
}

// Settings of which nothing is known.
fn settings_of(alloc: Global, text: &[u8]) -> Result<Settings, WorldFault> {
    match read(alloc, text) {
        Ok(settings) => Ok(settings),
        Err(_) => Err(WorldFault::Settings),
    }
}

// The parcel of a file that is given.
fn parcel_in<H: Held>(reply: Option<Reply<H>>) -> Option<Parcel<H>> {
    match reply {
        Some(Reply::File { lease: _, parcel }) => Some(parcel),
        _ => None,
    }
}

impl World {
    /// Nothing is recorded or stored, and no core runs. The calls of the store with these numbers fail; the first has the number 0.
    pub(crate) fn new(alloc: Global, failing: &[u64]) -> Result<World, WorldFault> {
        Ok(World {
            alloc,
            core: None,
            records: MemRecords::new(alloc, Vec::new(alloc)),
            blobs: CaseBlobs::new(alloc, Vec::from_slice(alloc, failing)?),
            borrowed: None,
            ended: (0, 0),
        })
    }

    // A start over the records and the blobs.
    fn start_by(&mut self, settings: Settings, clock: ScriptClock) -> Option<StartFault> {
        let none = MemRecords::new(self.alloc, Vec::new(self.alloc));
        let records = mem::replace(&mut self.records, none);
        match start(self.alloc, settings, records, &mut self.blobs, clock) {
            Ok(core) => {
                self.core = Some(core);
                None
            }
            Err((fault, records, _)) => {
                self.records = records;
                Some(fault)
            }
        }
    }

    fn start_with(&mut self, settings: &[u8], clock: ScriptClock) -> Result<String, WorldFault> {
        self.is_ended()?;
        let settings = settings_of(self.alloc, settings)?;
        told_start(self.alloc, &self.start_by(settings, clock))
    }

    // That no core runs.
    fn is_ended(&self) -> Result<(), WorldFault> {
        match self.core {
            Some(_) => Err(WorldFault::Runs),
            None => Ok(()),
        }
    }

    fn reply_to(
        &mut self,
        command: Command<CaseHeld>,
    ) -> Result<Option<Reply<CaseHeld>>, WorldFault> {
        match &mut self.core {
            Some(core) => Ok(reply_of(core, command)),
            None => Err(WorldFault::NoCore),
        }
    }

    fn told_reply(&mut self, command: Command<CaseHeld>) -> Result<String, WorldFault> {
        match self.reply_to(command)? {
            Some(reply) => told(self.alloc, &reply),
            None => Ok(String::from_str(self.alloc, "unfit")?),
        }
    }

    // Whether a session gives the draft of this number at a path.
    fn gives(&mut self, session: u64, path: &str, draft: u64) -> Result<bool, WorldFault> {
        let asked = may_put(self.alloc, Place::Session(session), path)?;
        let want = format!(in self.alloc; "draft {draft}")?;
        Ok(self.told_reply(asked)?.as_str() == want.as_str())
    }

    // Whether a file without bytes is staged at a path.
    fn takes(&mut self, session: u64, path: &str, draft: u64) -> Result<bool, WorldFault> {
        let parcel = parcel_of(&mut self.blobs, draft, b"")?;
        let sent = stage(self.alloc, session, path, parcel)?;
        Ok(self.told_reply(sent)?.as_str() == "staged")
    }
}

impl Cores for World {
    fn renew(&mut self, failing: &[u64]) -> Result<(), WorldFault> {
        *self = World::new(self.alloc, failing)?;
        Ok(())
    }

    fn another(&self) -> Result<World, WorldFault> {
        World::new(self.alloc, &[])
    }

    fn start(&mut self, settings: &[u8], at: u64, step: u64) -> Result<String, WorldFault> {
        let clock = ScriptClock::stepping(self.alloc, at, step);
        self.start_with(settings, clock)
    }

    fn start_at(&mut self, settings: &[u8], moments: &[u64]) -> Result<String, WorldFault> {
        let [first, rest @ ..] = moments else {
            return Err(WorldFault::NoStep);
        };
        let clock = ScriptClock::listed(*first, Vec::from_slice(self.alloc, rest)?);
        self.start_with(settings, clock)
    }

    fn stop(&mut self) -> Result<(), WorldFault> {
        let Some(core) = self.core.take() else {
            return Err(WorldFault::NoCore);
        };
        let (calls, records, mut clock) = end_of(core);
        self.records = records;
        self.ended = (calls, clock.now());
        Ok(())
    }

    fn ended(&self) -> (u64, u64) {
        self.ended
    }

    fn items(&self) -> Result<&[Item], WorldFault> {
        self.is_ended()?;
        Ok(self.records.items())
    }

    fn fail_at(&mut self, failing: &[u64]) -> Result<(), WorldFault> {
        self.is_ended()?;
        let failing = Vec::from_slice(self.alloc, failing)?;
        self.records = MemRecords::new(self.alloc, failing);
        Ok(())
    }

    fn told_blobs(&mut self) -> Result<String, WorldFault> {
        let listed = self.blobs.list()?;
        let removed: String = numbers_of(self.alloc, self.blobs.removed())?;
        let there: String = numbers_of(self.alloc, listed.as_slice())?;
        Ok(format!(in self.alloc; "removed:{removed} there:{there}")?)
    }

    fn store(&mut self, blob: u64, bytes: &[u8]) -> Result<(), WorldFault> {
        store_whole(&mut self.blobs, blob, bytes)?;
        Ok(())
    }

    fn remove(&mut self, blob: u64) -> Result<(), WorldFault> {
        Ok(self.blobs.remove(blob)?)
    }

    fn fits(&mut self, ask: Ask<'_>) -> Result<bool, WorldFault> {
        let command = command_of(self.alloc, &mut self.blobs, ask)?;
        match &self.core {
            Some(core) => Ok(is_fit(core, &command)),
            None => Err(WorldFault::NoCore),
        }
    }

    fn ask(&mut self, ask: Ask<'_>) -> Result<String, WorldFault> {
        let command = command_of(self.alloc, &mut self.blobs, ask)?;
        self.told_reply(command)
    }

    fn borrow(&mut self, repo: &str, path: &str) -> Result<bool, WorldFault> {
        let command = command_of(self.alloc, &mut self.blobs, Ask::Look(repo, path))?;
        match parcel_in(self.reply_to(command)?) {
            Some(parcel) => {
                self.borrowed = Some(parcel);
                Ok(true)
            }
            None => Ok(false),
        }
    }

    fn read(&mut self) -> Result<Vec<u8>, WorldFault> {
        match &self.borrowed {
            Some(parcel) => Ok(read_whole(self.alloc, &mut self.blobs, &parcel.held)?),
            None => Err(WorldFault::NoStep),
        }
    }

    fn stages(&mut self, session: u64, number: u64) -> Result<bool, WorldFault> {
        let path = format!(in self.alloc; "g/a/{number}/a-{number}.pom")?;
        Ok(self.gives(session, &path, number)? && self.takes(session, &path, number)?)
    }
}
