// What fits as a value of a document.
use case_texts::{Tale, copied, yes_or_no};
use mvn_coords::{is_artifact, is_version_directory};
use mvn_metadata::{is_base, is_base_version, is_classifier, is_extension, is_group};
use std::alloc::Global;

fn fits(value: &str, text: &str) -> bool {
    match value {
        "group" => is_group(text.as_bytes()),
        "artifact" => is_artifact(text),
        "version" => is_version_directory(text),
        "base-version" => is_base_version(text),
        "base" => is_base(text),
        "classifier" => is_classifier(text),
        "extension" => is_extension(text),
        _ => false,
    }
}

/// What is told of a step about values.
pub(crate) fn told(alloc: Global, key: &str, words: &[String]) -> Tale {
    Ok(match (key, words) {
        ("fits", [value, text]) => {
            Some(copied(alloc, yes_or_no(fits(value.as_str(), text.as_str())))?)
        }
        _ => None,
    })
}
