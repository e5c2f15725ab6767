use case_texts::number_of;

/// What is asked of the repository, about a row or about the number that a command before it gave.
#[derive(Clone, Copy, Debug)]
pub enum Form {
    MayPut,
    Put,
    Look,
    Done,
    /// A look whose lease is not given back.
    Lease,
    /// A look at the document of an artifact.
    Document,
    /// A look at the document of the group, right below which all artifacts stand.
    Group,
    /// A look at the document of the directory above the group.
    Above,
    OpenSession,
    MayStage,
    Stage,
    Commit,
    Unlist,
    Collect,
    Status,
}

/// Commands of one form, and of another one with the numbers that those gave, for the turns from `from` on, before `end`.
#[derive(Clone, Copy)]
pub struct Step {
    pub first: Form,
    pub second: Option<Form>,
    pub from: u64,
    pub end: u64,
}

fn forms(name: &str) -> Option<(Form, Option<Form>)> {
    match name {
        "put" => Some((Form::MayPut, Some(Form::Put))),
        "look" => Some((Form::Look, Some(Form::Done))),
        "stage" => Some((Form::MayStage, Some(Form::Stage))),
        "lease" => Some((Form::Lease, None)),
        "document" => Some((Form::Document, None)),
        "group" => Some((Form::Group, None)),
        "above" => Some((Form::Above, None)),
        "open_session" => Some((Form::OpenSession, None)),
        "commit" => Some((Form::Commit, None)),
        "unlist" => Some((Form::Unlist, None)),
        "collect" => Some((Form::Collect, None)),
        "status" => Some((Form::Status, None)),
        _ => None,
    }
}

impl Step {
    /// The step that a word names.
    pub fn of(word: &str) -> Option<Step> {
        let (name, turns) = word.split_once(':')?;
        let (from, end) = turns.split_once(':')?;
        let (first, second) = forms(name)?;
        Some(Step {
            first,
            second,
            from: number_of(from)?,
            end: number_of(end)?,
        })
    }
}
