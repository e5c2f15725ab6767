use crate::outcomes::End;

/// The mode of a request's answers.
#[derive(Clone, Copy, Debug, PartialEq, Eq)]
pub struct ResponseMode {
    /// Whether the connection ends after the answer, since the request or a body that was not read asks for it.
    pub close: bool,
    /// Whether this is the last request that the connection may make.
    pub last: bool,
    /// Whether an answer is its head alone, as each answer to HEAD is.
    pub head_only: bool,
}

impl ResponseMode {
    ghost use Rattle.std.specs.Prelude.{◌≡◌};
    ghost use Rattle.repo_course.specs.Answers as answers;
    ghost use Rattle.repo_course.specs.Course as courses;

    /// The mode of an answer that ends the connection.
    pub(crate) fn at_end(head_only: bool) -> ResponseMode
        ensures { result ≡ answers.at_end head_only }
    {
        ResponseMode {
            close: true,
            last: false,
            head_only,
        }
    }

    /// The same before a body of `length` bytes that stays unread, which ends the connection too.
    pub(crate) fn with_unread(self, length: u64) -> ResponseMode
        ensures { result ≡ courses.with_unread length self }
    {
        ResponseMode {
            close: length > 0 || self.close,
            last: self.last,
            head_only: self.head_only,
        }
    }

    /// How the stream ends after an answer of this mode, if it does.
    pub fn end(self) -> Option<End>
        ensures { result ≡ courses.end_of self }
    {
        if self.close { Some(End::Closed) } else { None }
    }

    /// Whether the connection ends after an answer of this mode.
    pub fn is_end(self) -> bool
        ensures { result ≡ answers.is_end self }
    {
        self.close || self.last
    }
}
