use case_texts::number_of;
use std::alloc::{AllocError, Global};

/// The files of a version, in byte order.
const FILES: u64 = 4;

/// The rows of a repository: files of releases, four a version, or of snapshots, one a build.
#[derive(Clone, Copy)]
pub struct Rows {
    releases: bool,
    rows: u64,
    size: u64,
    stride: u64,
}

impl Rows {
    /// So many rows, with so many versions an artifact or builds a directory, and this stride from one turn to the next.
    pub fn of(kind: &String, rows: &String, size: &String, stride: &String) -> Option<Rows> {
        Some(Rows {
            releases: kind.as_str() == "releases",
            rows: number_of(rows.as_str())?,
            size: number_of(size.as_str())?,
            stride: number_of(stride.as_str())?,
        })
    }

    /// The repository that has them.
    pub fn repository(self) -> &'static str {
        if self.releases {
            "releases"
        } else {
            "snapshots"
        }
    }

    /// The path of the `n`th turn. After the last row they rise.
    pub fn path(self, alloc: Global, n: u64) -> Result<String, AllocError> {
        let there = n.wrapping_mul(self.stride).checked_rem(self.rows);
        let row = if n < self.rows { there.unwrap_or(n) } else { n };
        if self.releases {
            release(alloc, row, self.size)
        } else {
            build(alloc, row, self.size)
        }
    }

    /// The path of the document of the `n`th artifact.
    pub fn document(self, alloc: Global, n: u64) -> Result<String, AllocError> {
        format!(in alloc; "org/acme/lib{n:06}/maven-metadata.xml")
    }
}

fn release(alloc: Global, row: u64, versions: u64) -> Result<String, AllocError> {
    let version = (row / FILES).checked_rem(versions).unwrap_or(0);
    let artifact = (row / FILES).checked_div(versions).unwrap_or(0);
    let end = match row % FILES {
        0 => "-javadoc.jar",
        1 => "-sources.jar",
        2 => ".jar",
        _ => ".pom",
    };
    format!(in alloc;
        "org/acme/lib{artifact:06}/1.{version:04}/lib{artifact:06}-1.{version:04}{end}"
    )
}

fn build(alloc: Global, row: u64, builds: u64) -> Result<String, AllocError> {
    let number = row.checked_rem(builds).unwrap_or(0);
    let number = number.saturating_add(1_000_000);
    let artifact = row.checked_div(builds).unwrap_or(0);
    format!(in alloc;
        "org/acme/lib{artifact:06}/1.0-SNAPSHOT/lib{artifact:06}-1.0-20240229.120000-{number}.jar"
    )
}
