// A plain, slow machine, written apart from the core: it keeps lists and looks through them for each command. It purges nothing.
use crate::asks::Ask;
use repo_model::Question;
use std::alloc::{AllocError, Global};

#[derive(Drop)]
struct Kept {
    repo: &'static str,
    path: &'static str,
    blob: u64,
    content: &'static [u8],
}

#[derive(Drop)]
pub(crate) struct Plain {
    alloc: Global,
    kept: Vec<Kept>,
    pub(crate) drafts: Vec<u64>,
    leases: Vec<u64>,
    next_draft: u64,
    next_lease: u64,
}

/// Of the contents that are sent: the length, SHA-1, MD5, SHA-256 and SHA-512.
fn content_of(bytes: &[u8]) -> &'static str {
    match bytes {
        b"abc" =>
            "3 a9993e364706816aba3e25717850c26c9cd0d89d 900150983cd24fb0d6963f7d28e17f72 ba7816bf8f01cfea414140de5dae2223b00361a396177a9cb410ff61f20015ad ddaf35a193617abacc417349ae20413112e6fa4e89a97ea20a9eeee64b55d39a2192992a274fc1a836ba3c23a3feebbd454d4423643ce80e2a9ac94fa54ca49f",
        b"abd" =>
            "3 cb4cc28df0fdbe0ecf9d9662e294b118092a5735 4911e516e5aa21d327512e0c8b197616 a52d159f262b2c6ddb724a61840befc36eb30c88877a4030b65cbe86298449c9 1a9840c27a5cf22dab060cdd8a83da2b0fbcb1aeb52d4f9d3894b639083e205a5ab3f6afaeeb21b8e99b5e0fe93daafaabeef274da5d6eadcc9db36e5b6f64c4",
        _ =>
            "0 da39a3ee5e6b4b0d3255bfef95601890afd80709 d41d8cd98f00b204e9800998ecf8427e e3b0c44298fc1c149afbf4c8996fb92427ae41e4649b934ca495991b7852b855 cf83e1357eefb8bdf1542850d66d8007d620e4050b5715dc83f4a921d36ce9ce47d0d13c5d85f2b0ff8318d2877eec2f63b931bd47417a81a538327af927da3e",
    }
}

/// Whether a repository takes a path.
pub(crate) fn takes(repo: &str, path: &str) -> bool {
    let is_snapshot = path.contains("-SNAPSHOT/");
    repo == "mixed" || (repo == "snapshots") == is_snapshot
}

fn give_up(numbers: &mut Vec<u64>, number: u64) {
    numbers.retain(|other| *other != number);
}

fn kept_at<'a>(all: &'a [Kept], repo: &str, path: &str) -> Option<&'a Kept> {
    for kept in all {
        if kept.repo == repo && kept.path == path {
            return Some(kept);
        }
    }
    None
}

impl Plain {
    pub(crate) fn new(alloc: Global) -> Plain {
        Plain {
            alloc,
            kept: Vec::new(alloc),
            drafts: Vec::new(alloc),
            leases: Vec::new(alloc),
            next_draft: 1,
            next_lease: 1,
        }
    }

    fn word(&self, word: &str) -> Result<String, AllocError> {
        String::from_str(self.alloc, word)
    }

    /// The reply to a command, in words.
    pub(crate) fn turn(&mut self, ask: Ask<'static>) -> Result<String, AllocError> {
        match ask {
            Ask::Look(repo, path) => self.look(repo, path),
            Ask::Done(lease) => {
                give_up(&mut self.leases, lease);
                self.word("done")
            }
            Ask::MayPut(repo, path) => self.may_put(repo, path),
            Ask::Put(repo, path, draft, content) => self.put(repo, path, draft, content),
            Ask::Drop(draft) => {
                give_up(&mut self.drafts, draft);
                self.word("dropped")
            }
            Ask::PutDoc(_, _) => self.word("noted"),
            Ask::Question(Question::Status) => {
                let files: usize = self.kept.len();
                format!(in self.alloc; "{files} 0 0 0 0")
            }
            Ask::Commit(_)
            | Ask::Abort(_)
            | Ask::MayStage(_, _)
            | Ask::StageSide(_, _, _)
            | Ask::StageDoc(_, _) => self.word("no-session"),
            // no build is so old, and nothing is unlisted
            Ask::Unlist(_) => self.word("unlisted 0"),
            // the others are not generated
            _ => self.word("unfit"),
        }
    }

    fn look(&mut self, repo: &str, path: &str) -> Result<String, AllocError> {
        let Some(kept) = kept_at(self.kept.as_slice(), repo, path) else {
            return self.word("missed");
        };
        let lease: u64 = self.next_lease;
        let blob: u64 = kept.blob;
        let content: &str = content_of(kept.content);
        let file: String = format!(in self.alloc; "file {lease} {blob} {content}")?;
        self.leases.push(lease)?;
        self.next_lease = lease.wrapping_add(1);
        Ok(file)
    }

    fn may_put(&mut self, repo: &str, path: &str) -> Result<String, AllocError> {
        if !takes(repo, path) {
            return self.word("kind-refused");
        }
        let draft: u64 = self.next_draft;
        self.drafts.push(draft)?;
        self.next_draft = draft.wrapping_add(1);
        format!(in self.alloc; "draft {draft}")
    }

    fn put(
        &mut self,
        repo: &'static str,
        path: &'static str,
        draft: u64,
        content: &'static [u8],
    ) -> Result<String, AllocError> {
        if !self.drafts.contains(&draft) {
            return self.word("no-draft");
        }
        give_up(&mut self.drafts, draft);
        if let Some(kept) = kept_at(self.kept.as_slice(), repo, path) {
            if kept.content == content {
                return self.word("same");
            }
            let old: &str = content_of(kept.content);
            let new: &str = content_of(content);
            return format!(in self.alloc; "taken {old} {new}");
        }
        self.kept.push(Kept {
            repo,
            path,
            blob: draft,
            content,
        })?;
        self.word("created")
    }
}
