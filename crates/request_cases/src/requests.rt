// What request heads are judged to, in words.
use case_texts::{Tale, copied, joined};
use http_wire::Wire;
use mvn_coords::Side;
use outside_memory::{FaultScript, MemSource};
use repo_config::Settings;
use repo_model::Place;
use repo_routes::{
    Allow, Intent, Judged, LONGEST_DOCUMENT, LONGEST_SIDE, Refusal, Refused, Routes, Sort, judge,
};
use std::alloc::{AllocError, Global};
use texts::Text;

/// Two hosted repositories, a proxy and a group; files of at most 5,000 bytes.
const SETTINGS: &str = "max_file = 5000
[[hosted]]
id = 'releases'
releases = true
snapshots = false
[[hosted]]
id = 'snapshots'
releases = false
snapshots = true
[[proxy]]
id = 'central'
host = 'repo.test'
[[group]]
id = 'all'
members = ['releases', 'central']
";

/// The settings of all heads. Where the text stood here, what is known of them would be computed.
fn settings_of(alloc: Global, text: &str) -> Option<Settings> {
    repo_config::read(alloc, text.as_bytes()).ok()
}

fn side_name(side: Side) -> &'static str {
    match side {
        Side::Sha1 => "sha1",
        Side::Md5 => "md5",
        Side::Sha256 => "sha256",
        Side::Sha512 => "sha512",
    }
}

/// The id of a repository, or `session` and its number.
fn place_words(alloc: Global, place: &Place) -> Result<String, AllocError> {
    match place {
        Place::Repository(repo) => String::from_str(alloc, repo.as_str()),
        Place::Session(number) => format!(in alloc; "session {number}"),
    }
}

/// A cleaning of these repositories.
fn clean_words(alloc: Global, repos: &[Text]) -> Result<String, AllocError> {
    let mut words = String::from_str(alloc, "Clean")?;
    for repo in repos {
        words.push_str(" ")?;
        words.push_str(repo.as_str())?;
    }
    Ok(words)
}

/// A body of so many bytes that is put at a path.
fn put_words(
    alloc: Global,
    what: &str,
    place: &Place,
    path: &Text,
    length: u64,
) -> Result<String, AllocError> {
    let (place, path) = (place_words(alloc, place)?, path.as_str());
    format!(in alloc; "{what} {place} {path} {length}")
}

fn intent_words(alloc: Global, intent: &Intent) -> Result<String, AllocError> {
    match intent {
        Intent::Ask(question) => format!(in alloc; "{question:?}"),
        Intent::Clean(repos) => clean_words(alloc, repos.as_slice()),
        Intent::Read { repo, path, sort } => {
            let (repo, path) = (repo.as_str(), path.as_str());
            match sort {
                Sort::Hosted => format!(in alloc; "Read {repo} {path}"),
                Sort::Proxy => format!(in alloc; "Read proxy {repo} {path}"),
                Sort::Group(members) => format!(in alloc; "Read group of {members} {repo} {path}"),
            }
        }
        Intent::PutFile {
            place,
            path,
            length,
        } => put_words(alloc, "PutFile", place, path, *length),
        Intent::PutDocument {
            place,
            path,
            length,
        } => put_words(alloc, "PutDocument", place, path, *length),
        Intent::PutSide {
            place,
            path,
            side,
            length,
        } => {
            let (place, path, side) = (place_words(alloc, place)?, path.as_str(), side_name(*side));
            format!(in alloc; "PutSide {place} {path} {side} {length}")
        }
        Intent::Open(repo) => {
            let repo = repo.as_str();
            format!(in alloc; "Open {repo}")
        }
        Intent::Commit(session) => format!(in alloc; "Commit {session}"),
        Intent::Abort(session) => format!(in alloc; "Abort {session}"),
    }
}

fn refusal_words(alloc: Global, refusal: Refusal) -> Result<String, AllocError> {
    match refusal {
        Refusal::BadTarget => String::from_str(alloc, "BadTarget"),
        Refusal::BadHost => String::from_str(alloc, "BadHost"),
        Refusal::NoLength => String::from_str(alloc, "NoLength"),
        Refusal::BadLength => String::from_str(alloc, "BadLength"),
        Refusal::NoRoute => String::from_str(alloc, "NoRoute"),
        Refusal::NoRepository => String::from_str(alloc, "NoRepository"),
        Refusal::Method(Allow::Read) => String::from_str(alloc, "Method GET, HEAD"),
        Refusal::Method(Allow::ReadAndPut) => String::from_str(alloc, "Method GET, HEAD, PUT"),
        Refusal::Method(Allow::Post) => String::from_str(alloc, "Method POST"),
        Refusal::UnexpectedBody => String::from_str(alloc, "UnexpectedBody"),
        Refusal::NoSession => String::from_str(alloc, "NoSession"),
        Refusal::Unread => String::from_str(alloc, "Unread"),
        Refusal::BadPath(fault) => {
            let name = fault.name();
            format!(in alloc; "BadPath {name}")
        }
        Refusal::NoPath(fault) => {
            let name = fault.name();
            format!(in alloc; "NoPath {name}")
        }
        Refusal::TooLarge(limit) => format!(in alloc; "TooLarge {limit}"),
    }
}

fn add_if(words: &mut String, test: bool, word: &str) -> Result<(), AllocError> {
    if test {
        words.push_str(word)?;
    }
    Ok(())
}

fn words_of(alloc: Global, judged: &Result<Judged, Refused>) -> Result<String, AllocError> {
    match judged {
        Ok(judged) => {
            let mut words = intent_words(alloc, &judged.intent)?;
            add_if(&mut words, judged.head_only, " head")?;
            add_if(&mut words, judged.close, " close")?;
            add_if(&mut words, judged.expects, " expects")?;
            Ok(words)
        }
        Err(refused) => {
            let mut words = refusal_words(alloc, refused.refusal)?;
            add_if(&mut words, refused.head_only, " head")?;
            add_if(&mut words, refused.close, " close")?;
            Ok(words)
        }
    }
}

/// What the first head of a stream is judged to.
fn judged(
    alloc: Global,
    settings: &Settings,
    source: &mut MemSource,
) -> Result<String, AllocError> {
    let routes = Routes::new(alloc)?;
    match Wire::new().next_request(alloc, source) {
        Ok(Some(head)) => words_of(alloc, &judge(alloc, settings, &routes, &head)?),
        _ => copied(alloc, "no head"),
    }
}

/// A head whose lines are parted by `;`, and the empty line.
fn head_of(alloc: Global, text: &str) -> Result<Vec<u8>, AllocError> {
    let mut head: Vec<u8> = Vec::new(alloc);
    for line in text.split(';') {
        head.extend_from_slice(line.as_bytes())?;
        head.extend_from_slice(b"\r\n")?;
    }
    head.extend_from_slice(b"\r\n")?;
    Ok(head)
}

fn told_request(alloc: Global, text: &str) -> Result<String, AllocError> {
    let Some(settings) = settings_of(alloc, SETTINGS) else {
        return copied(alloc, "no settings");
    };
    let script = FaultScript::failing_at(Vec::new(alloc));
    let mut source = MemSource::new(head_of(alloc, text)?, 9000, script);
    judged(alloc, &settings, &mut source)
}

/// What is told of a step about requests.
pub(crate) fn told(alloc: Global, key: &str, words: &[String]) -> Tale {
    Ok(Some(match (key, words) {
        ("request", _) => told_request(alloc, joined(alloc, words)?.as_str())?,
        ("limits", []) => format!(in alloc; "{LONGEST_SIDE} {LONGEST_DOCUMENT}")?,
        _ => return Ok(None),
    }))
}
