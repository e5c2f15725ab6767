//! What may be asked that changes nothing, and what is told to it.
ghost use Rattle.std.specs.Prelude.{◌≡◌};
ghost use Rattle.repo_model.specs.Asked.{question_named};

/// A question to the repository. Its answer changes nothing.
#[derive(Clone, Copy, Debug, PartialEq, Eq)]
pub enum Question {
    /// How much there is.
    Status,
}

/// What is told to a question.
#[derive(Clone, Copy, Debug, PartialEq, Eq)]
pub enum Finding {
    /// How many files of hosted repositories there are, and how many of them are unlisted; how many files and documents
    /// proxies keep; and how many deployment sessions are open.
    Counts {
        files: u64,
        fading: u64,
        cached: u64,
        documents: u64,
        sessions: u64,
    },
}

impl Question {
    /// The question of a name.
    pub fn named(name: &str) -> Option<Question>
        ensures { result ≡ question_named name.now }
    {
        match name {
            "status" => Some(Question::Status),
            _ => None,
        }
    }
}
