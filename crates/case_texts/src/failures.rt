// What a run of which one call fails has to come to.
use crate::cases::Case;
use crate::went::{Went, alike};

/// What the program stands on, of which a call may fail.
#[derive(Clone, Copy, PartialEq, Eq)]
pub enum Object {
    Settings,
    Port,
    Reads,
    Blobs,
    Records,
}

impl Object {
    pub const ALL: [Object; 5] = [
        Object::Settings,
        Object::Port,
        Object::Reads,
        Object::Blobs,
        Object::Records,
    ];

    /// The object with this name.
    pub(crate) fn of(name: &str) -> Option<Object> {
        for object in Object::ALL {
            if object.name() == name {
                return Some(object);
            }
        }
        None
    }

    pub fn name(self) -> &'static str {
        match self {
            Object::Settings => "settings",
            Object::Port => "port",
            Object::Reads => "reads",
            Object::Blobs => "blobs",
            Object::Records => "records",
        }
    }
}

const BEGINNING: &[u8] = b"HTTP/1.1 ";

const CLOSING: &[u8] = b"\r\nConnection: close\r\n";

const STATUS_LINE: &[u8] = b"HTTP/1.1 503 Service Unavailable\r\n";

/// The bytes that the status line of a `503` begins with as that of any other answer does.
const VERSION: usize = 9;

/// How often a text stands in these bytes.
fn times_in(bytes: &[u8], text: &[u8]) -> usize {
    let mut count: usize = 0;
    for at in 0..bytes.len() {
        if bytes.get(at..).is_some_and(|it| it.starts_with(text)) {
            count = count.saturating_add(1);
        }
    }
    count
}

/// Whether there are as many answers as in the whole ones, no content of a case beginning so, or the connection is closed before.
fn are_all(answers: &[u8], whole: &[u8]) -> bool {
    times_in(answers, BEGINNING) == times_in(whole, BEGINNING) || times_in(answers, CLOSING) == 1
}

/// Whether answers go as the whole ones up to one that says that something failed, or how few blobs were removed.
fn goes_up_to_a_fault(answers: &[u8], whole: &[u8]) -> bool {
    let count = alike(answers, whole);
    let told = answers.get(count.saturating_sub(VERSION)..);
    told.is_some_and(|it| it.starts_with(STATUS_LINE))
        || whole
            .get(..count)
            .is_some_and(|it| it.ends_with(b"removed "))
}

/// Whether answers go as the whole ones up to one that tells a fault, and each request after it has its answer too.
fn tell_a_fault(answers: &[u8], whole: &[u8]) -> bool {
    are_all(answers, whole) && goes_up_to_a_fault(answers, whole)
}

/// Whether the run blames its input, having answered just this.
fn blames_the_input(went: &Went, answers: &[u8]) -> bool {
    went.status == 6
        && went.line.as_slice() == b"mvnrepod: input\n".as_slice()
        && went.answers.as_slice() == answers
}

/// Whether the run ends before its connection is asked for, since the store failed, or goes as it has to up to the answer that
/// says so.
fn blames_the_store(went: &Went, case: &Case) -> bool {
    let answers: &[u8] = went.answers.as_slice();
    match went.status {
        4 => went.line.as_slice() == b"mvnrepod: store\n".as_slice() && answers.is_empty(),
        0 => went.is_as_said(case) || tell_a_fault(answers, case.last.answers.as_slice()),
        _ => false,
    }
}

impl Case {
    /// A case with a longer input is not run with each call failing, which would take minutes.
    const MOST_INPUT: usize = 8_000;

    /// Whether a case is to be run with each call failing in turn: nothing of it is to fail, nothing was there before, and its
    /// input is short.
    pub fn is_tried(&self) -> bool {
        self.script.is_plain()
            && self.earlier.is_empty()
            && self.before.is_empty()
            && self.stored.is_empty()
            && self.given.is_empty()
            && self.last.input.len() <= Case::MOST_INPUT
    }

    /// Whether a run of which this call of the object failed ended as it has to.
    ///
    /// A case that is run so comes in one read, so that its first read alone is before an answer.
    pub fn is_sound(&self, went: &Went, object: Object, call: u64) -> bool {
        match object {
            Object::Settings | Object::Port => blames_the_input(went, &[]),
            Object::Reads if call == 0 => blames_the_input(went, &[]),
            Object::Reads => blames_the_input(went, self.last.answers.as_slice()),
            Object::Blobs | Object::Records => blames_the_store(went, self),
        }
    }
}
