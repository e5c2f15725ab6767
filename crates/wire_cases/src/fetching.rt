//! Fetches by their plans, from a remote that gives its answers.
use crate::outcomes::{outcome, plan};
use crate::remotes::answer;
use case_texts::{Tale, copied, number_of, shown};
use fetch_plan::{Outcome, Plan};
use outside_remote::{Exchange, ScriptRemote};
use remote_fetch::{Content, LONGEST_BODY, fetch};
use std::alloc::{AllocError, Global};
use texts::Bytes;

/// The exchanges that the last fetch made.
#[derive(Drop)]
pub struct Fetching {
    made: Vec<String>,
}

// The answers of a step, and the numbers of the exchanges that fail.
fn script(alloc: Global, words: &[String]) -> Result<ScriptRemote, AllocError> {
    let mut given: Vec<Bytes> = Vec::new(alloc);
    let mut failing: Vec<u64> = Vec::new(alloc);
    let mut number: u64 = 0;
    for words in words.split(|word| word.as_str() == "<<") {
        match answer(alloc, words)? {
            None => failing.push(number)?,
            Some(bytes) => given.push(Bytes::from_vec(bytes))?,
        }
        number = number.saturating_add(1);
    }
    Ok(ScriptRemote::new(alloc, given, failing))
}

// What comes of a plan that keeps the limit of all plans.
fn fetched(
    alloc: Global,
    remote: &mut ScriptRemote,
    plan: &Plan,
) -> Result<Option<Outcome<Content>>, AllocError> {
    if plan.limit > LONGEST_BODY {
        return Ok(None);
    }
    Ok(Some(fetch(alloc, remote, plan)?))
}

// An exchange as it is told: host, port, limit and request.
fn asked(alloc: Global, exchange: &Exchange) -> Result<String, AllocError> {
    let asked = &exchange.asked;
    let host: &str = asked.host.as_str();
    let request: String = shown(alloc, asked.request.as_slice())?;
    format!(in alloc; "{host} {} {} {request}", asked.port, asked.limit)
}

fn all_asked(alloc: Global, remote: &ScriptRemote) -> Result<Vec<String>, AllocError> {
    let mut made: Vec<String> = Vec::new(alloc);
    for exchange in remote.made() {
        made.push(asked(alloc, exchange)?)?;
    }
    Ok(made)
}

impl Fetching {
    pub fn new(alloc: Global) -> Fetching {
        Fetching {
            made: Vec::new(alloc),
        }
    }

    // What comes of a plan by these answers, and how many exchanges were made.
    fn told_fetch(&mut self, alloc: Global, plan: &Plan, answers: &[String]) -> Tale {
        let mut remote: ScriptRemote = script(alloc, answers)?;
        let Some(came) = fetched(alloc, &mut remote, plan)? else {
            return Ok(None);
        };
        self.made = all_asked(alloc, &remote)?;
        let text: String = outcome(alloc, &came)?;
        Ok(Some(format!(in alloc; "{text}; {}", self.made.len())?))
    }

    // The exchange with this number.
    fn told_made(&self, alloc: Global, number: u64) -> Result<String, AllocError> {
        match self.made.get(number as usize) {
            Some(text) => copied(alloc, text.as_str()),
            None => copied(alloc, "none"),
        }
    }

    /// What is told of a step.
    pub fn told(&mut self, alloc: Global, key: &str, words: &[String]) -> Tale {
        match (key, words) {
            ("fetch", [what, limit, mark, answers @ ..]) if mark.as_str() == "<<" => {
                let limit: u64 = number_of(limit.as_str()).unwrap_or(0);
                let plan: Plan = plan(alloc, what.as_str() == "file", limit)?;
                self.told_fetch(alloc, &plan, answers)
            }
            ("made", [number]) => {
                let number: u64 = number_of(number.as_str()).unwrap_or(u64::MAX);
                Ok(Some(self.told_made(alloc, number)?))
            }
            _ => Ok(None),
        }
    }
}
