// The elements of texts, and where texts are refused.
use case_texts::{Tale, bytes_of, copied, shown};
use std::alloc::{AllocError, Global};
use xml_subset::{Element, XmlFault, outline};

/// An element: its name, its depth, `=`, its text and `;`.
fn push_element(told: &mut String, element: &Element<'_>) -> Result<(), AllocError> {
    let alloc: Global = *told.allocator();
    let name: String = shown(alloc, element.name)?;
    let depth: usize = element.depth;
    let text: String = shown(alloc, &element.text)?;
    write!(told, "{name}{depth}={text};")
}

fn told_elements(alloc: Global, elements: &[Element<'_>]) -> Result<String, AllocError> {
    let mut told: String = String::new(alloc);
    for element in elements {
        push_element(&mut told, element)?;
    }
    Ok(told)
}

/// How many elements there are, and the last of them.
fn told_last(alloc: Global, elements: &[Element<'_>]) -> Result<String, AllocError> {
    let count: usize = elements.len();
    let mut told: String = format!(in alloc; "{count} ")?;
    if let Some(last) = elements.last() {
        push_element(&mut told, last)?;
    }
    Ok(told)
}

/// The elements of a text with the root `metadata`, or where it is refused.
fn told_outline(alloc: Global, text: &[u8], last_alone: bool) -> Result<String, AllocError> {
    match outline(alloc, b"metadata", text) {
        Ok(elements) if last_alone => told_last(alloc, elements.as_slice()),
        Ok(elements) => told_elements(alloc, elements.as_slice()),
        Err(XmlFault::Malformed { at }) => format!(in alloc; "at {at}"),
        Err(XmlFault::NoMemory) => copied(alloc, "no memory"),
    }
}

/// What is told of a step about elements.
pub(crate) fn told(alloc: Global, key: &str, words: &[String]) -> Tale {
    Ok(Some(match key {
        "elements" => told_outline(alloc, bytes_of(alloc, words)?.as_slice(), false)?,
        "last-element" => told_outline(alloc, bytes_of(alloc, words)?.as_slice(), true)?,
        _ => return Ok(None),
    }))
}
