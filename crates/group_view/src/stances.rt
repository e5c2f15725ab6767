//! Which member of a group answers, or is asked.
ghost use Rattle.std.specs.Prelude.{◌≡◌, position};
ghost use Rattle.group_view.specs.Members as spec;

/// What a member of a group does about a path.
#[derive(Clone, Copy, Debug, PartialEq, Eq)]
pub enum Stance {
    /// It answers with what it has.
    Serve,
    /// It asks its remote.
    Fetch,
    /// It has nothing, and asks nobody.
    Pass,
}

/// Whose turn it is, by its place among the members, counted from 0.
#[derive(Clone, Copy, Debug, PartialEq, Eq)]
pub enum Turn {
    /// This member asks its remote.
    Ask(usize),
    /// This member answers.
    Serve(usize),
    /// No member answers or asks.
    Nothing,
}

// The place of the first member that answers.
fn first_serving(stances: &[Stance]) -> Option<usize>
    ensures { result ≡ position spec.serves stances.now }
{
    stances
        .iter()
        .position(|stance| matches!(stance, Stance::Serve))
}

// The place of the first member that asks its remote.
fn first_fetching(stances: &[Stance]) -> Option<usize>
    ensures { result ≡ position spec.fetches stances.now }
{
    stances
        .iter()
        .position(|stance| matches!(stance, Stance::Fetch))
}

/// Whose turn it is among members with these stances, in the order of the group.
///
/// Of a file, or a side file of one, the first member decides that answers or asks. Of a document, or a side file of one, the first
/// member that asks is asked; where none does, no single member answers: the documents of all are merged (`merged`).
pub fn next(stances: &[Stance], document: bool) -> Turn
    ensures { result ≡ spec.next document stances.now }
{
    let serving = if document {
        None
    } else {
        first_serving(stances)
    };
    match (serving, first_fetching(stances)) {
        (None, None) => Turn::Nothing,
        (Some(member), None) => Turn::Serve(member),
        (None, Some(member)) => Turn::Ask(member),
        (Some(first), Some(asked)) if first < asked => Turn::Serve(first),
        (Some(_), Some(asked)) => Turn::Ask(asked),
    }
}
