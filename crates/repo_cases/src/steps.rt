// Steps in words.
use crate::many::{file_of, stored_with};
use crate::objects::{listed, records_of};
use crate::recorded::{Recorded, journal_of};
use crate::stand::{Stand, blobs_after};
use case_texts::{Stored, Tale, copied, number_of, run_together, shown, text_of};
use std::alloc::{AllocError, Global};

fn number_in(word: &String) -> u64 {
    number_of(word.as_str()).unwrap_or(0)
}

/// Numbers, each after a blank.
fn push_numbers(told: &mut String, numbers: &[u64]) -> Result<(), AllocError> {
    for number in numbers {
        write!(told, " {number}")?;
    }
    Ok(())
}

/// Blobs by their numbers and texts.
fn stored_of(alloc: Global, words: &[String]) -> Result<Vec<Stored>, AllocError> {
    let mut all: Vec<Stored> = Vec::new(alloc);
    let mut rest: &[String] = words;
    for _ in 0..words.len() {
        let [number, text, more @ ..] = rest else {
            break;
        };
        let blob: u64 = number_in(number);
        let bytes: Vec<u8> = Vec::from_slice(alloc, text.as_bytes())?;
        all.push(Stored { blob, bytes })?;
        rest = more;
    }
    Ok(all)
}

/// Lines, each after a blank, `;` being a line's end.
fn push_lines(told: &mut String, text: &str) -> Result<(), AllocError> {
    for (n, line) in text.split('\n').enumerate() {
        told.push_str(if n == 0 { "" } else { ";" })?;
        if !line.is_empty() {
            write!(told, " {line}")?;
        }
    }
    Ok(())
}

impl Stand {
    /// The status of the last run and its lines, `;` being a line's end.
    fn told_end(&self, alloc: Global) -> Result<String, AllocError> {
        let mut told: String = format!(in alloc; "{}", self.status)?;
        let lines: String = text_of(alloc, self.line.as_slice())?;
        push_lines(&mut told, lines.as_str())?;
        Ok(told)
    }

    fn told_run(
        &mut self,
        alloc: Global,
        command: &str,
        input: &str,
    ) -> Result<String, AllocError> {
        self.run(command, input.as_bytes())?;
        self.told_end(alloc)
    }

    fn told_answers(
        &mut self,
        alloc: Global,
        command: &str,
        input: &str,
    ) -> Result<String, AllocError> {
        self.run(command, input.as_bytes())?;
        text_of(alloc, self.answers.as_slice())
    }

    /// The records are a journal with this file, of whose disk these calls fail.
    fn set_journal(&mut self, file: &[u8], calls: &[u64], part: u64) -> Result<(), AllocError> {
        self.records = Recorded::Journal(journal_of(self.alloc, file, calls, part)?);
        Ok(())
    }

    /// A run that may fail, what a check says by the same disk and store, and what new starts say by what the run left.
    fn told_trial(
        &mut self,
        alloc: Global,
        command: &str,
        input: &str,
        others: [&str; 2],
    ) -> Result<String, AllocError> {
        let end: String = self.told_run(alloc, command, input)?;
        let answers: String = match self.answers.as_slice() {
            [] => copied(alloc, "nothing")?,
            answers => text_of(alloc, answers)?,
        };
        let file: Vec<u8> = Vec::from_slice(alloc, self.records.file())?;
        let again: String = self.told_run(alloc, "check", "")?;
        self.set_journal(file.as_slice(), &[], 0)?;
        let found: String = self.told_run(alloc, "check", "")?;
        let first: String = self.told_answers(alloc, "replay", others[0])?;
        let second: String = self.told_answers(alloc, "replay", others[1])?;
        format!(in alloc; "{answers} {end} {again} {found} {first} {second}")
    }

    /// Sets what desk and cleaner have.
    fn store(&mut self, all: &[Stored]) -> Result<(), AllocError> {
        self.blobs = blobs_after(self.alloc, all, self.blobs_fail.take())?;
        self.garbage = blobs_after(self.alloc, all, self.garbage_fails.take())?;
        Ok(())
    }

    /// Many files that an older program recorded.
    fn set_many(&mut self, count: &String, front: &str, behind: &str) -> Result<(), AllocError> {
        let count = number_in(count).min(9_999) as u32;
        let file: Vec<u8> = file_of(self.alloc, count, front, behind)?;
        self.set_journal(file.as_slice(), &[], 0)?;
        self.store(stored_with(self.alloc, count)?.as_slice())
    }

    /// Sets what runs begin with. Whether these words say it.
    fn sets(&mut self, key: &str, words: &[String]) -> Result<bool, AllocError> {
        match (key, words) {
            ("journal", file) => {
                let file: Vec<u8> = run_together(self.alloc, file)?;
                self.set_journal(file.as_slice(), &[], 0)?;
            }
            ("journal-fails", [call, part, file @ ..]) => {
                let file: Vec<u8> = run_together(self.alloc, file)?;
                self.set_journal(file.as_slice(), &[number_in(call)], number_in(part))?;
            }
            ("records-fail", [call]) => {
                self.records = Recorded::Memory(records_of(self.alloc, Some(number_in(call)))?);
            }
            ("store", blobs) => self.store(stored_of(self.alloc, blobs)?.as_slice())?,
            ("many", [count, front, behind]) => {
                self.set_many(count, front.as_str(), behind.as_str())?;
            }
            ("blobs-fail", [call]) => self.blobs_fail = Some(number_in(call)),
            ("garbage-fails", [call]) => self.garbage_fails = Some(number_in(call)),
            ("settings", [text]) => self.settings = Vec::from_slice(self.alloc, text.as_bytes())?,
            ("at", [moment]) => self.at = number_in(moment),
            ("room", [room]) => self.room = number_in(room) as usize,
            _ => return Ok(false),
        }
        Ok(true)
    }

    /// Whether the journal has this file, or the file that it has.
    fn told_file(&self, alloc: Global, words: &[String]) -> Result<String, AllocError> {
        let want: Vec<u8> = run_together(alloc, words)?;
        if self.records.file() == want.as_slice() {
            return copied(alloc, "yes");
        }
        shown(alloc, self.records.file())
    }

    /// The numbers that desk and cleaner removed, and those that the desk has.
    fn told_blobs(&mut self, alloc: Global) -> Result<String, AllocError> {
        let mut told: String = copied(alloc, "desk")?;
        push_numbers(&mut told, self.blobs.removed())?;
        told.push_str(" cleaner")?;
        push_numbers(&mut told, self.garbage.removed())?;
        told.push_str(" there")?;
        if let Some(there) = listed(&mut self.blobs) {
            push_numbers(&mut told, there.as_slice())?;
        }
        Ok(told)
    }

    /// What is told of a step.
    pub(crate) fn told(&mut self, alloc: Global, key: &str, words: &[String]) -> Tale {
        if self.sets(key, words)? {
            return Ok(Some(copied(alloc, "done")?));
        }
        Ok(Some(match (key, words) {
            ("run", [command, input]) => { self.told_run(alloc, command.as_str(), input.as_str())? }
            ("trial", [command, input, first, second]) => self.told_trial(
                alloc,
                command.as_str(),
                input.as_str(),
                [first.as_str(), second.as_str()],
            )?,
            ("answers", []) => text_of(alloc, self.answers.as_slice())?,
            ("recorded", file) => self.told_file(alloc, file)?,
            ("length", []) => format!(in alloc; "{}", self.records.file().len())?,
            ("blobs", []) => self.told_blobs(alloc)?,
            _ => return Ok(None),
        }))
    }
}
