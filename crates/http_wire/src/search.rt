//! The search for a head in bytes that come in pieces: up to its first empty line (RFC 9112, section 2.1).
ghost use Rattle.std.specs.Prelude.{◌≡◌, ◌⊎◌, [], ◌∷◌, ◌↔◌, IsTrue};
ghost use Rattle.http_wire.specs.Found.{IsFoundIn};
ghost use Rattle.http_wire.specs.Search.{IsOpen};

/// How far a search for the end of a head has come.
#[derive(Clone, Copy)]
pub(crate) struct Place {
    /// Where the head begins: before are blank lines alone.
    pub start: usize,
    /// Where the line that isn't ended yet begins.
    pub line: usize,
    /// How many bytes were looked at.
    pub at: usize,
}

/// What a search has found.
#[derive(Clone, Copy)]
pub(crate) enum Search {
    /// The head is from `start` to `end`.
    Found { start: usize, end: usize },
    /// There is no whole head so far.
    Open(Place),
}

/// Whether nothing stands in the line, whose line feed is left out.
fn is_empty_line(line: &[u8]) -> bool
    ensures { IsTrue result ↔ ((line.now ≡ []) ⊎ (line.now ≡ 13 ∷ [])) }
{
    match line {
        [] => true,
        [only] => *only == b'\r',
        _ => false,
    }
}

/// Goes on with a search over the bytes that it hasn't looked at.
pub(crate) fn resume(bytes: &[u8], from: Place) -> Search
    requires { IsOpen bytes.now from.start from.line from.at }
    ensures { IsFoundIn bytes.now result }
{
    let mut start = from.start;
    let mut line = from.line;
    for i in from.at..bytes.len() {
        if bytes[i] == b'\n' {
            if !is_empty_line(&bytes[line..i]) {
                line = i + 1;
            } else if start < line {
                return Search::Found { start, end: i + 1 };
            } else {
                start = i + 1;
                line = i + 1;
            }
        }
    }
    Search::Open(Place {
        start,
        line,
        at: bytes.len(),
    })
}
