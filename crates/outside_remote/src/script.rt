ghost use Rattle.std.specs.Prelude.{◌≡◌, ◌↔◌, ◌+◌, ◌∷◌, ◌++◌, [], Err, take, drop, IfOk, IsNone, IfSome, OnOk, OnErr};
ghost use Rattle.outside_remote.specs.declared.exchange.RemoteFault.TheVariants.{Failed};
ghost use Rattle.outside_remote.specs.Exchanges.{HasRemoteCause, asked_so};
ghost use Rattle.outside_remote.specs.Script.{IsFailing, IsFirst, all_told, with_exchange};

use crate::exchange::{Asked, Exchange, RemoteFault};
use crate::remote::Remote;
use std::alloc::{AllocError, Global};
use std::marker::Model;
use texts::{Bytes, Text};

/// A remote in memory, whatever the host. It gives the answers of a list, one an exchange, and keeps the exchanges that were
/// made. Those that the script names fail, the first exchange having the number 0, and so do all after the last answer. An
/// exchange for which memory runs out changes nothing.
#[derive(Drop)]
pub struct ScriptRemote {
    answers: Vec<Bytes>,
    given: usize,
    failing: Vec<u64>,
    made: Vec<Exchange>,
    faults: u64,
}

impl Model for ScriptRemote {
    ghost use Rattle.std.specs.Prelude.{◌≤◌, drop, length};
    ghost use Rattle.outside_remote.specs.Script.{ScriptState};

    ghost Value = { ScriptState };

    ghost view = { λ r. record {
      left = drop r.given r.answers.items;
      failing = r.failing.items;
      made = r.made.items;
      faults = r.faults;
    } };

    ghost invariant = { λ r. r.given ≤ length r.answers.items };
}

fn asked(
    alloc: Global,
    host: &str,
    port: u16,
    request: &[u8],
    limit: u64,
) -> Result<Asked, AllocError>
    ensures { IfOk result (λ asked. asked ≡ asked_so host.now port request.now limit) }
{
    Ok(Asked {
        host: Text::new(alloc, host)?,
        port,
        request: Bytes::new(alloc, request)?,
        limit,
    })
}

/// The first bytes of an answer, at most one more than are wanted.
fn first_bytes(answer: &[u8], limit: u64) -> &[u8]
    ensures { result.now ≡ take (limit + 1) answer.now }
{
    match usize::try_from(limit) {
        Ok(limit) if limit < answer.len() => &answer[..limit + 1],
        _ => answer,
    }
}

impl ScriptRemote {
    /// A remote that gives these answers, and whose exchanges with these numbers fail, in any order.
    pub fn new(alloc: Global, answers: Vec<Bytes>, failing: Vec<u64>) -> ScriptRemote
        ensures { result ≡ record { left = answers.items; failing = failing.items; made = []; faults = 0 } }
    {
        ScriptRemote {
            answers,
            given: 0,
            failing,
            made: Vec::new(alloc),
            faults: 0,
        }
    }

    /// The exchanges that were made, in their order.
    pub fn made(&self) -> &[Exchange]
        ensures { result.now ≡ self.now.made }
    {
        self.made.as_slice()
    }

    /// How many exchanges have failed. The count stands still at 2^64 - 1.
    pub fn faults(&self) -> u64
        ensures { result ≡ self.now.faults }
    {
        self.faults
    }

    /// The answer of the next exchange; none where it fails.
    fn next_answer(&self) -> Option<&[u8]>
        ensures first { IfSome result (λ answer. self.now.left ≡ answer.now ∷ drop 1 self.now.left) }
        ensures none { IsNone result ↔ IsFailing self.now }
    {
        let number = self.made.len() as u64;
        if self.failing.contains(&number) {
            return None;
        }
        let answer = self.answers.get(self.given)?;
        Some(answer.as_slice())
    }

    /// Adds an exchange to those made.
    fn add(&mut self, exchange: Exchange) -> Result<(), AllocError>
        ensures ok { OnOk result (self.new ≡ record self.old { made = self.old.made ++ exchange ∷ [] }) }
        ensures err { OnErr result (self.new ≡ self.old) }
    {
        self.made.push(exchange)?;
        Ok(())
    }
}

impl From<AllocError> for RemoteFault {
    ghost use Rattle.std.specs.Prelude.{◌≡◌};
    ghost use Rattle.outside_remote.specs.declared.exchange.RemoteFault.TheVariants.{NoMemory};

    ghost from_gives = { λ _ fault. fault ≡ NoMemory };

    fn from(_fault: AllocError) -> RemoteFault {
        RemoteFault::NoMemory
    }
}

impl Remote for ScriptRemote {
    ghost sees = { all_told };

    fn exchange(
        &mut self,
        alloc: Global,
        host: &str,
        port: u16,
        request: &[u8],
        limit: u64,
    ) -> Result<Bytes, RemoteFault>
        ensures cause { HasRemoteCause self.old.faults self.new.faults result }
        ensures fails { result ≡ Err Failed → IsFailing self.old }
        ensures passes { OnOk result (IsFailing self.old → ⊥) }
        ensures given { IfOk result (λ bytes. IsFirst limit bytes self.old.left) }
        ensures after { self.new ≡ with_exchange (asked_so host.now port request.now limit) result self.old }
    {
        let asked = asked(alloc, host, port, request, limit)?;
        match self.next_answer() {
            None => {
                self.add(Exchange {
                    asked,
                    gave: Err(RemoteFault::Failed),
                })?;
                self.faults = self.faults.saturating_add(1);
                Err(RemoteFault::Failed)
            }
            Some(answer) => {
                let bytes = Bytes::new(alloc, first_bytes(answer, limit))?;
                let kept = Bytes::new(alloc, bytes.as_slice())?;
                self.add(Exchange {
                    asked,
                    gave: Ok(kept),
                })?;
                self.given += 1;
                Ok(bytes)
            }
        }
    }
}
