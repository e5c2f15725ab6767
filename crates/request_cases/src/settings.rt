// Texts of settings, and what they are read as or refused for. The settings are read in a small function of its own, so that what that
// promises is not carried through the others.
use case_texts::{Tale, bytes_of, copied, yes_or_no};
use repo_config::{GroupRule, HostedRule, ProxyRule, Settings, SettingsFault};
use repo_model::Update;
use std::alloc::{AllocError, Global};
use texts::Text;

/// Settings of which nothing is known.
fn read_plainly(alloc: Global, text: &[u8]) -> Result<Settings, SettingsFault> {
    repo_config::read(alloc, text)
}

/// The name of a refusal, and what it is about.
fn parts_of(fault: &SettingsFault) -> (&str, &str) {
    match fault {
        SettingsFault::NotToml => ("NotToml", ""),
        SettingsFault::Unknown(key) => ("Unknown ", key.as_str()),
        SettingsFault::Missing(key) => ("Missing ", key.as_str()),
        SettingsFault::Range(key) => ("Range ", key.as_str()),
        SettingsFault::TwiceNamed(id) => ("TwiceNamed ", id.as_str()),
        SettingsFault::NoMember(id) => ("NoMember ", id.as_str()),
        SettingsFault::MemberIsGroup(id) => ("MemberIsGroup ", id.as_str()),
        SettingsFault::NoMemory => ("memory", ""),
    }
}

fn told_fault(alloc: Global, fault: &SettingsFault) -> Result<String, AllocError> {
    let (name, about) = parts_of(fault);
    format!(in alloc; "{name}{about}")
}

/// `ok`, or the name of the refusal and what it is about.
fn told_answer(alloc: Global, text: &[u8]) -> Result<String, AllocError> {
    match read_plainly(alloc, text) {
        Ok(_) => copied(alloc, "ok"),
        Err(fault) => told_fault(alloc, &fault),
    }
}

fn update_name(update: Update) -> &'static str {
    match update {
        Update::Always => "always",
        Update::Hourly => "hourly",
        Update::Daily => "daily",
        Update::Once => "once",
        Update::Never => "never",
    }
}

fn push_texts(told: &mut String, word: &str, texts: &[Text]) -> Result<(), AllocError> {
    write!(told, " {word}")?;
    for text in texts {
        let text: &str = text.as_str();
        write!(told, " {text}")?;
    }
    Ok(())
}

/// A hosted repository: its id, whether it takes releases and snapshots, and how many builds it keeps and for how many days.
fn push_hosted(told: &mut String, rule: &HostedRule) -> Result<(), AllocError> {
    let id: &str = rule.id();
    let releases: &str = yes_or_no(rule.releases());
    let snapshots: &str = yes_or_no(rule.snapshots());
    let count: u64 = rule.keep_count();
    let days: u64 = rule.keep_days();
    write!(told, " hosted {id} {releases} {snapshots} {count} {days}")
}

/// A proxy: its id and host, its port, prefix, policy and seconds, and the patterns that it lets through and blocks.
fn push_proxy(told: &mut String, rule: &ProxyRule) -> Result<(), AllocError> {
    let id: &str = rule.id();
    let host: &str = rule.host();
    let port: u16 = rule.port();
    let prefix: &str = rule.prefix();
    let update: &str = update_name(rule.update());
    let seconds: u64 = rule.negative_seconds();
    write!(
        told,
        " proxy {id} {host} {port} {prefix} {update} {seconds}"
    )?;
    push_texts(told, "allow", rule.allow().texts())?;
    push_texts(told, "block", rule.block().texts())
}

fn push_group(told: &mut String, rule: &GroupRule) -> Result<(), AllocError> {
    let id: &str = rule.id();
    write!(told, " group {id}")?;
    push_texts(told, "of", rule.members())
}

/// The seconds of the grace and between cleanings and the longest file, and the repositories.
fn told_settings(alloc: Global, settings: &Settings) -> Result<String, AllocError> {
    let grace: u64 = settings.grace_seconds();
    let clean: u64 = settings.clean_seconds();
    let file: u64 = settings.max_file();
    let mut told: String = format!(in alloc; "{grace} {clean} {file}")?;
    for rule in settings.hosted() {
        push_hosted(&mut told, rule)?;
    }
    for rule in settings.proxies() {
        push_proxy(&mut told, rule)?;
    }
    for rule in settings.groups() {
        push_group(&mut told, rule)?;
    }
    Ok(told)
}

/// Whole settings, value by value, or the refusal.
fn told_whole(alloc: Global, text: &[u8]) -> Result<String, AllocError> {
    match read_plainly(alloc, text) {
        Ok(settings) => told_settings(alloc, &settings),
        Err(fault) => told_fault(alloc, &fault),
    }
}

/// Whether a path is matched by what the first proxy lets through, and by what it blocks.
fn told_matches(alloc: Global, text: &[u8], path: &str) -> Result<String, AllocError> {
    let Ok(settings) = read_plainly(alloc, text) else {
        return copied(alloc, "refused");
    };
    let Some(proxy) = settings.proxies().first() else {
        return copied(alloc, "no proxy");
    };
    let allowed: &str = yes_or_no(proxy.allow().allows(path));
    let blocked: &str = yes_or_no(proxy.block().allows(path));
    format!(in alloc; "{allowed} {blocked}")
}

/// A text of settings as the words say it: `;` stands for the end of a line, and `@` for the middle.
fn spelled(alloc: Global, words: &[String], middle: &str) -> Result<Vec<u8>, AllocError> {
    let mut text: Vec<u8> = Vec::new(alloc);
    for byte in &bytes_of(alloc, words)? {
        match *byte {
            b';' => text.push(b'\n')?,
            b'@' => text.extend_from_slice(middle.as_bytes())?,
            other => text.push(other)?,
        }
    }
    Ok(text)
}

/// What is told of a step about settings, by the text that `@` stands for.
pub(crate) fn told(alloc: Global, middle: &str, key: &str, words: &[String]) -> Tale {
    Ok(Some(match (key, words) {
        ("settings", _) => told_answer(alloc, spelled(alloc, words, middle)?.as_slice())?,
        ("whole", _) => told_whole(alloc, spelled(alloc, words, middle)?.as_slice())?,
        ("lets", [text, path]) => told_matches(alloc, text.as_bytes(), path.as_str())?,
        _ => return Ok(None),
    }))
}
