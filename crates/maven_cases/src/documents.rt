// Documents: read, made step by step, settled, merged and written.
use case_texts::{Tale, bytes_of, copied, text_of};
use group_view::merged;
use mvn_coords::{Build, Dir, Kind, Stamp, is_artifact, is_version_directory, kind_of};
use mvn_doc::{DocFault, read, write};
use mvn_metadata::{
    Doc, Listing, Pair, SnapshotBuild, Undo, Versions, empty, is_entry, is_group, merge, settle,
};
use mvn_version::Version;
use std::alloc::{AllocError, Global};
use std::mem;
use texts::{Bytes, Text};

/// The document that is made, what undoes its last change in place, and documents that were kept.
#[derive(Drop)]
pub(crate) struct Documents {
    alloc: Global,
    doc: Doc,
    undo: Option<Undo>,
    kept: Vec<Doc>,
}

/// A document of nothing.
fn nothing(alloc: Global) -> Doc {
    let listing = Listing::Artifact {
        versions: Versions::new(alloc),
        updated: None,
    };
    Doc::new(None, None, listing)
}

/// The directory whose document has this path.
fn directory(path: &str) -> Option<Dir<'_>> {
    match kind_of(path) {
        Ok(Kind::Doc(dir)) => Some(dir),
        _ => None,
    }
}

fn with_version(alloc: Global, doc: Doc, version: &str) -> Result<Doc, AllocError> {
    let version = Version::parse(alloc, version)?;
    if !is_version_directory(version.as_str()) {
        return Ok(doc);
    }
    doc.with_version(version)
}

fn pair_of(alloc: Global, classifier: &str, extension: &str) -> Result<Pair, AllocError> {
    let classifier = Text::new(alloc, classifier)?;
    let extension = Text::new(alloc, extension)?;
    Ok(Pair {
        classifier,
        extension,
    })
}

fn build_of(stamp: &str, number: &str) -> Option<Build> {
    Build::new(Stamp::parse(stamp)?, number.parse::<u32>().ok()?)
}

/// The document with an entry, where it is one.
fn with_entry(doc: Doc, pair: Pair, snapshot: SnapshotBuild) -> Result<Doc, AllocError> {
    if !is_entry(&pair, &snapshot) {
        return Ok(doc);
    }
    doc.with_build(pair, snapshot)
}

/// The text of a document.
fn written(alloc: Global, doc: &Doc) -> Result<String, AllocError> {
    let text: Vec<u8> = write(alloc, doc)?;
    Ok(text_of(alloc, text.as_slice())?)
}

const START: &str =
    "<?xml version=\"1.0\" encoding=\"UTF-8\"?>\n<metadata modelVersion=\"1.1.0\">\n";

/// A text inside a root.
fn rooted(alloc: Global, inner: &[u8]) -> Result<Vec<u8>, AllocError> {
    let mut text: Vec<u8> = Vec::from_slice(alloc, b"<metadata>")?;
    text.extend_from_slice(inner)?;
    text.extend_from_slice(b"</metadata>")?;
    Ok(text)
}

/// What stands inside the root of a written text.
fn inner_of(written: &str) -> &str {
    match written.strip_prefix(START) {
        Some(rest) => rest.strip_suffix("</metadata>\n").unwrap_or("no end"),
        None => "no start",
    }
}

/// The group and the artifact of a document in which nothing is listed, where they fit.
fn told_made(alloc: Global, group: &str, artifact: &str) -> Result<String, AllocError> {
    if !is_group(group.as_bytes()) || !is_artifact(artifact) {
        return Ok(copied(alloc, "none")?);
    }
    let group = Bytes::new(alloc, group.as_bytes())?;
    let artifact = Text::new(alloc, artifact)?;
    let listing = Listing::Artifact {
        versions: Versions::new(alloc),
        updated: None,
    };
    let doc = Doc::new(Some(group), Some(artifact), listing);
    let group: String = text_of(alloc, doc.group().unwrap_or(b""))?;
    let artifact: &str = doc.artifact().unwrap_or("");
    Ok(format!(in alloc; "{group} {artifact}")?)
}

impl Documents {
    /// A document of nothing, and none that was kept.
    pub(crate) fn new(alloc: Global) -> Documents {
        Documents {
            alloc,
            doc: nothing(alloc),
            undo: None,
            kept: Vec::new(alloc),
        }
    }

    /// Takes the document out.
    fn taken(&mut self) -> Doc {
        mem::replace(&mut self.doc, nothing(self.alloc))
    }

    /// Reads a document: nothing, or where its text is refused.
    fn read(&mut self, text: &[u8]) -> Result<Option<usize>, AllocError> {
        match read(self.alloc, text) {
            Ok(doc) => {
                self.doc = doc;
                Ok(None)
            }
            Err(DocFault::BadDocument { at }) => Ok(Some(at)),
            Err(DocFault::NoMemory) => Err(AllocError),
        }
    }

    /// The text of the document of a text, or where it is refused.
    fn told_read(&mut self, text: &[u8]) -> Result<String, AllocError> {
        match self.read(text)? {
            None => written(self.alloc, &self.doc),
            Some(at) => Ok(format!(in self.alloc; "at {at}")?),
        }
    }

    /// The document of a directory of this path, in which nothing is listed.
    fn empty(&mut self, path: &str) -> Result<&'static str, AllocError> {
        match directory(path) {
            Some(dir) => {
                self.doc = empty(self.alloc, &dir)?;
                Ok("done")
            }
            None => Ok("no directory"),
        }
    }

    fn settle(&mut self, path: &str) -> Result<&'static str, AllocError> {
        match directory(path) {
            Some(dir) => {
                let doc: Doc = self.taken();
                self.doc = settle(self.alloc, doc, &dir)?;
                Ok("done")
            }
            None => Ok("no directory"),
        }
    }

    fn add_versions(&mut self, versions: &[String]) -> Result<&'static str, AllocError> {
        for version in versions {
            let doc: Doc = self.taken();
            self.doc = with_version(self.alloc, doc, version.as_str())?;
        }
        Ok("done")
    }

    /// Adds a version and a moment in place.
    fn add_version(
        &mut self,
        version: &str,
        moment: Option<u64>,
    ) -> Result<&'static str, AllocError> {
        let version = Version::parse(self.alloc, version)?;
        match moment {
            Some(moment)
                if moment <= Stamp::LAST_MOMENT && is_version_directory(version.as_str()) => {
                let undo: Undo = self.doc.add_version(version, Stamp::from_moment(moment))?;
                self.undo = Some(undo);
                Ok("done")
            }
            _ => Ok("no version"),
        }
    }

    fn undo_version(&mut self) -> &'static str {
        match mem::take(&mut self.undo) {
            Some(undo) => {
                self.doc.undo_version(&undo);
                "done"
            }
            None => "nothing",
        }
    }

    fn update(&mut self, moment: Option<u64>) -> &'static str {
        match moment {
            Some(moment) if moment <= Stamp::LAST_MOMENT => {
                let doc: Doc = self.taken();
                self.doc = doc.with_update(Stamp::from_moment(moment));
                "done"
            }
            _ => "no moment",
        }
    }

    /// Adds the build of a base, a stamp and a number, for a classifier and an extension.
    fn add_build(
        &mut self,
        [classifier, extension, base, stamp, number]: [&str; 5],
    ) -> Result<&'static str, AllocError> {
        let Some(build) = build_of(stamp, number) else {
            return Ok("no build");
        };
        let pair: Pair = pair_of(self.alloc, classifier, extension)?;
        let base = Text::new(self.alloc, base)?;
        let doc: Doc = self.taken();
        self.doc = with_entry(doc, pair, SnapshotBuild { base, build })?;
        Ok("done")
    }

    /// Keeps the document.
    fn keep(&mut self) -> Result<&'static str, AllocError> {
        let doc: Doc = self.taken();
        self.kept.push(doc).map_err(AllocError::from)?;
        Ok("done")
    }

    /// The text of all documents that were kept, merged.
    fn told_merged(&mut self) -> Result<String, AllocError> {
        if self.kept.is_empty() {
            return Ok(copied(self.alloc, "nothing is kept")?);
        }
        let doc: Doc = merge(self.alloc, self.kept.as_slice())?;
        written(self.alloc, &doc)
    }

    /// The text of all documents that were kept, as those of a group's members.
    fn told_members(&mut self) -> Result<String, AllocError> {
        match merged(self.alloc, self.kept.as_slice())? {
            Some(doc) => written(self.alloc, &doc),
            None => Ok(copied(self.alloc, "none")?),
        }
    }

    /// What a step does to the document.
    fn changed(&mut self, key: &str, words: &[String]) -> Result<&'static str, AllocError> {
        match (key, words) {
            ("empty", [path]) => self.empty(path.as_str()),
            ("settle", [path]) => self.settle(path.as_str()),
            ("add-versions", versions) => self.add_versions(versions),
            ("add-version", [version, moment]) => {
                self.add_version(version.as_str(), moment.as_str().parse::<u64>().ok())
            }
            ("undo-version", []) => Ok(self.undo_version()),
            ("update", [moment]) => Ok(self.update(moment.as_str().parse::<u64>().ok())),
            ("add-build", [classifier, extension, base, stamp, number]) => self.add_build([
                classifier.as_str(),
                extension.as_str(),
                base.as_str(),
                stamp.as_str(),
                number.as_str(),
            ]),
            ("keep", []) => self.keep(),
            _ => Ok(""),
        }
    }

    /// What is read, merged or written in a step.
    fn written(&mut self, key: &str, words: &[String]) -> Tale {
        Ok(Some(match (key, words) {
            ("document", _) => {
                let text: Vec<u8> = bytes_of(self.alloc, words)?;
                self.told_read(text.as_slice())?
            }
            ("inside", _) => {
                let inner: Vec<u8> = bytes_of(self.alloc, words)?;
                let text: Vec<u8> = rooted(self.alloc, inner.as_slice())?;
                let told: String = self.told_read(text.as_slice())?;
                copied(self.alloc, inner_of(told.as_str()))?
            }
            ("merged", []) => self.told_merged()?,
            ("members", []) => self.told_members()?,
            ("written", []) => written(self.alloc, &self.doc)?,
            ("coordinates-of", [group, artifact]) => {
                told_made(self.alloc, group.as_str(), artifact.as_str())?
            }
            _ => return Ok(None),
        }))
    }

    /// What is told of a step about documents.
    pub(crate) fn told(&mut self, key: &str, words: &[String]) -> Tale {
        if let Some(told) = self.written(key, words)? {
            return Ok(Some(told));
        }
        match self.changed(key, words)? {
            "" => Ok(None),
            told => Ok(Some(copied(self.alloc, told)?)),
        }
    }
}
