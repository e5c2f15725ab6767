// Some hundred generated paths: the real program says of each what the plain one says.
use crate::paths::real;
use crate::plain_paths;
use crate::plain_paths::Said;
use std::alloc::{AllocError, Global};

// Choices stand between blanks; `-` is the one of no byte.
const GROUPS: &str = "org/acme g a/b/c x-1/y_2 g org o.p/q ../q";

const ARTIFACTS: &str = "lib l.b lib-1.0 lib lib l+b";

const VERSIONS: &str =
    "1.0 1.1-SNAPSHOT 1.0.jar 1-SNAPSHOT 2+7 SNAPSHOT -SNAPSHOT 1.1-SNAPSHOT 1.0-snapshot a-SNAPSHOT-SNAPSHOT 1.1-SNAPSHOT 0";

// After a release's version.
const TAILS: &str = ".jar -all.jar -all.tar.gz -20240229.235959-1.jar .. . - -.jar -all x.jar";

// After a snapshot's base.
const BUILDS: &str =
    "-20240229.235959-1.jar -20240229.235959-12-all.tar.gz -20000229.000000-999999999.jar -00000101.000000-90.jar -99991231.235959-7.. -20240229.235959-7 -20240229.235959-7-all -SNAPSHOT.jar -SNAPSHOT-all.jar -SNAPSHOTS.jar -20230229.235959-1.jar -19000229.000000-1.jar -20240431.000000-1.jar -20241301.000000-1.jar -20240229.240000-1.jar -20240229.236000-1.jar -20240229.235959-01.jar -20240229.235959-1000000000.jar -20240229.235959.jar -2024022.9235959-1.jar";

const SIDES: &str = "- - - .sha1 .md5 .sha256 .sha512 .md5.sha256";

// What there is of a path's directory.
const PLACES: &str = "all all all all all all group name";

// One path of six is a document's.
const DOCUMENTS: &str = "document - - - - -";

/// Choices that look random: a seed that is scrambled at each choice.
#[derive(Drop)]
struct Choices(u64);

impl Choices {
    fn pick(&mut self, options: &'static str) -> &'static str {
        self.0 = self.0.wrapping_mul(0x9e37_79b9_7f4a_7c15) ^ (self.0 >> 29);
        let count = options.split_whitespace().count().max(1) as u64;
        let picked = options
            .split_whitespace()
            .nth((self.0 % count) as usize)
            .unwrap_or("-");
        if picked == "-" { "" } else { picked }
    }

    // The parts of a file's name.
    fn file(&mut self, artifact: &'static str, version: &'static str) -> [&'static str; 4] {
        let named = match self.pick("lib - - -") {
            "" => artifact,
            lib => lib,
        };
        let (base, tail) = match version.strip_suffix("-SNAPSHOT") {
            Some(base) => (base, self.pick(BUILDS)),
            None => (version, self.pick(TAILS)),
        };
        [named, "-", base, tail]
    }

    // The parts of a file's name, or a document's name in their place.
    fn name(&mut self, file: [&'static str; 4]) -> [&'static str; 4] {
        if self.pick(DOCUMENTS).is_empty() {
            file
        } else {
            ["maven-metadata.xml", "", "", ""]
        }
    }

    fn path(&mut self, alloc: Global) -> Result<String, AllocError> {
        let group = self.pick(GROUPS);
        let artifact = self.pick(ARTIFACTS);
        let version = self.pick(VERSIONS);
        let file = self.file(artifact, version);
        let places = self.pick(PLACES);
        let name = self.name(file);
        let side = self.pick(SIDES);
        let above = above(places, group);
        let directory = directory(places, artifact, version);
        joined(alloc, [&above, &directory, &name, &[side]])
    }
}

fn above(places: &str, group: &'static str) -> [&'static str; 2] {
    match places {
        "name" => ["", ""],
        _ => [group, "/"],
    }
}

fn directory(places: &str, artifact: &'static str, version: &'static str) -> [&'static str; 4] {
    match places {
        "group" => ["", "", "", ""],
        _ => [artifact, "/", version, "/"],
    }
}

fn push_all(path: &mut String, parts: &[&str]) -> Result<(), AllocError> {
    for part in parts {
        path.push_str(part)?;
    }
    Ok(())
}

fn joined(alloc: Global, lists: [&[&str]; 4]) -> Result<String, AllocError> {
    let mut path = String::new(alloc);
    for list in lists {
        push_all(&mut path, list)?;
    }
    Ok(path)
}

/// What a path is found to be.
#[derive(Clone, Copy)]
enum Found {
    File,
    Document,
    Fault,
}

fn found_of(said: &Said) -> Found {
    match said {
        Ok(line) if line.starts_with("file") => Found::File,
        Ok(_) => Found::Document,
        Err(_) => Found::Fault,
    }
}

// What both programs find a path to be, or none where they say something else.
fn agreed(alloc: Global, path: &str) -> Result<Option<Found>, AllocError> {
    let said = real(alloc, path)?;
    let plain = plain_paths::said(alloc, path)?;
    Ok((said == plain).then_some(found_of(&said)))
}

// How many paths are of files and how many have a fault, or the first seed of whose path the two programs say
// something else.
fn compared(alloc: Global) -> Result<Result<(u32, u32), u64>, AllocError> {
    let mut files = 0u32;
    let mut faults = 0u32;
    for seed in 1..800 {
        let path = Choices(seed).path(alloc)?;
        match agreed(alloc, path.as_str())? {
            Some(Found::File) => files = files.saturating_add(1),
            Some(Found::Document) => {}
            Some(Found::Fault) => faults = faults.saturating_add(1),
            None => return Ok(Err(seed)),
        }
    }
    Ok(Ok((files, faults)))
}

/// What is told of the generated paths: `agreed` where both programs say the same of each, and many are files and many have a fault.
pub(crate) fn told_of_generated(alloc: Global) -> Result<&'static str, AllocError> {
    Ok(match compared(alloc)? {
        Ok((50.., 100..)) => "agreed",
        Ok(_) => "too few",
        Err(_) => "other",
    })
}
