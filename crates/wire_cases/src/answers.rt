// The bytes of answers.
use case_texts::{Tale, bytes_of, number_of, text_of};
use http_wire::{
    Answer, Content, NO_MEMORY, Status, continue_answer, no_memory_answer, no_memory_head, render,
};
use mvn_digest::{Digests, Hashes};
use std::alloc::{AllocError, Global};
use texts::{Bytes, Text};

fn status_of(word: &str) -> Status {
    match word {
        "200" => Status::Ok,
        "201" => Status::Created,
        "405" => Status::MethodNotAllowed,
        "409" => Status::Conflict,
        _ => Status::InsufficientStorage,
    }
}

fn content_of(word: &str) -> Content {
    match word {
        "file" => Content::File,
        "document" => Content::Document,
        _ => Content::Plain,
    }
}

/// A file's answer has the digests of its body.
fn digests_of(content: Content, body: &[u8]) -> Option<Digests> {
    let mut hashes = Hashes::new();
    hashes.update(body);
    (content == Content::File).then_some(hashes.finish())
}

/// The methods, parted by commas.
fn allow_of(alloc: Global, methods: &str) -> Result<Option<Text>, AllocError> {
    if methods.is_empty() {
        return Ok(None);
    }
    let mut allow: String = String::new(alloc);
    for (n, method) in methods.split(',').enumerate() {
        allow.push_str(if n == 0 { "" } else { ", " })?;
        allow.push_str(method)?;
    }
    Ok(Some(Text::from_string(allow)))
}

/// The answer of a status, a content, a length, methods, whether it closes, and a body.
fn told_answer(
    alloc: Global,
    [status, content, length, methods, close]: [&str; 5],
    body: &[u8],
) -> Result<String, AllocError> {
    let content: Content = content_of(content);
    let answer = Answer {
        status: status_of(status),
        content,
        length: number_of(length).unwrap_or(0),
        digests: digests_of(content, body),
        allow: allow_of(alloc, methods)?,
        close: close == "closes",
        body: Bytes::new(alloc, body)?,
    };
    text_of(alloc, render(alloc, &answer)?.as_slice())
}

/// An answer that is prepared.
fn prepared(name: &str) -> &'static [u8] {
    match name {
        "continue" => continue_answer(),
        "no-memory" => no_memory_answer(),
        "no-memory-head" => no_memory_head(),
        _ => NO_MEMORY,
    }
}

/// What is told of a step about answers.
pub(crate) fn told(alloc: Global, key: &str, words: &[String]) -> Tale {
    Ok(Some(match (key, words) {
        ("answer", [status, content, length, methods, close, body @ ..]) => told_answer(
            alloc,
            [
                status.as_str(),
                content.as_str(),
                length.as_str(),
                methods.as_str(),
                close.as_str(),
            ],
            bytes_of(alloc, body)?.as_slice(),
        )?,
        ("prepared", [name]) => text_of(alloc, prepared(name.as_str()))?,
        _ => return Ok(None),
    }))
}
