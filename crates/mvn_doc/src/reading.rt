//! Reading a document.
ghost use Rattle.std.specs.Prelude.{◌≡◌, IfOk, IfErr, Ok, [], map};
ghost use Rattle.xml_subset.specs.Element.{shown};
ghost use Rattle.mvn_doc.specs.Picked.{document_in};
ghost use Rattle.mvn_doc.specs.Place.{placed};
ghost use Rattle.mvn_doc.specs.Reading.{IsFaultOf, fault_of, reading};

use crate::picked::document;
use crate::place::with_places;
use mvn_metadata::{Doc, NoMemory};
use std::alloc::{AllocError, Global};
use xml_subset::{Element, XmlFault, outline};

/// Why a document was not read.
#[derive(Clone, Copy, Debug, PartialEq, Eq)]
pub enum DocFault {
    /// It is no metadata document. The token that starts `at` this byte cannot be cut or may not stand there, or the
    /// text ends here too early. Bytes are counted from 0, a byte order mark included.
    BadDocument { at: usize },
    /// There was no memory; it may come at any text.
    NoMemory,
}

impl From<AllocError> for DocFault {
    ghost use Rattle.std.specs.Prelude.{◌≡◌};
    ghost use Rattle.mvn_doc.specs.declared.reading.DocFault.TheVariants.{NoMemory};

    ghost from_gives = { λ _ fault. fault ≡ NoMemory };

    fn from(_fault: AllocError) -> DocFault {
        DocFault::NoMemory
    }
}

fn doc_fault(fault: XmlFault) -> DocFault
    ensures { result ≡ fault_of fault }
{
    match fault {
        XmlFault::Malformed { at } => DocFault::BadDocument { at },
        XmlFault::NoMemory => DocFault::NoMemory,
    }
}

/// The document that a text is (Maven repository metadata 1.1.0, in a subset of XML 1.0). An element counts where the
/// elements around it, from `metadata` on, are those of the format; all else is skipped, attributes too. Where the format
/// has an element once, its first one counts, and a value out of its form is none. `NoMemory` may come at any text. Time
/// and memory are linear in the text, but for the order of what is listed.
pub fn read(alloc: Global, text: &[u8]) -> Result<Doc, DocFault>
    ensures document { IfOk result (λ d. reading text.now ≡ Ok d) }
    ensures fault { IfErr result (IsFaultOf (reading text.now)) }
{
    let elements = match outline(alloc, b"metadata", text) {
        Ok(elements) => elements,
        Err(fault) => return Err(doc_fault(fault)),
    };
    Ok(picked(alloc, elements.as_slice())?)
}

/// The document that elements in document order tell.
fn picked<'a>(alloc: Global, elements: &'a [Element<'a>]) -> Result<Doc, NoMemory>
    ensures { IfOk result (λ d. d ≡ document_in (placed [] (map shown elements.now))) }
{
    let placed = with_places(alloc, elements)?;
    document(alloc, placed.as_slice())
}
