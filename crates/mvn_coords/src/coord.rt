//! The coordinates of a file, and the directory of a document.
ghost use Rattle.std.specs.Prelude.{◌≡◌, is_some};
ghost use Rattle.std.specs.Option.{option_copied};

use crate::Build;
use crate::name::Ending;
use std::marker::Model;

/// The coordinates of a file, which always meet the path rule, and the path that they were read
/// from.
#[derive(Debug, Drop)]
pub struct Coord<'a> {
    path: &'a str,
    group: &'a str,
    artifact: &'a str,
    dir: &'a str,
    build: Option<Build>,
    classifier: &'a str,
    extension: &'a str,
}

impl<'a> Model for Coord<'a> {
    ghost use Rattle.mvn_coords.specs.Layout.{Coordinates};

    ghost Value = { Coordinates };

    ghost use Rattle.mvn_coords.specs.Fields.{coordinates_in, KeepsFile};

    ghost view = { coordinates_in };

    ghost invariant = { KeepsFile };
}

impl<'a> Coord<'a> {
    ghost use Rattle.mvn_coords.specs.FileName.{base_of};
    ghost use Rattle.mvn_coords.specs.Layout.{coordinates_of, text_of};
    ghost use Rattle.mvn_coords.specs.Path.{IsFile};

    pub(crate) fn with_ending(
        path: &'a str,
        group: &'a str,
        artifact: &'a str,
        dir: &'a str,
        ending: Ending<'a>,
    ) -> Self
        requires rule { IsFile (coordinates_of group.now artifact.now dir.now ending) }
        requires text { path.now ≡ text_of (coordinates_of group.now artifact.now dir.now ending) }
        ensures { result ≡ coordinates_of group.now artifact.now dir.now ending.entry }
    {
        let Ending {
            build,
            classifier,
            extension,
        } = ending;
        Coord {
            path,
            group,
            artifact,
            dir,
            build,
            classifier,
            extension,
        }
    }

    /// The file's path, with its segments joined by `/`.
    pub fn path(&self) -> &'a str
        ensures text { result.now ≡ text_of self.now }
        ensures rule { IsFile self.now }
    {
        self.path
    }

    /// The group's segments, joined by `/`.
    pub fn group(&self) -> &'a str
        ensures { result.now ≡ self.now.group }
    {
        self.group
    }

    /// The artifact identifier.
    pub fn artifact(&self) -> &'a str
        ensures { result.now ≡ self.now.artifact }
    {
        self.artifact
    }

    /// The version directory.
    pub fn dir(&self) -> &'a str
        ensures { result.now ≡ self.now.directory }
    {
        self.dir
    }

    /// The build of a file in a snapshot directory; none at a release.
    pub fn build(&self) -> Option<Build>
        ensures { result ≡ self.now.build }
    {
        self.build
    }

    /// Whether the file lies in a snapshot directory, `X-SNAPSHOT`; just then it has a build.
    pub fn is_snapshot(&self) -> bool
        ensures directory { result ≡ is_some (base_of self.now.directory) }
        ensures build { result ≡ is_some self.now.build }
    {
        self.build.is_some()
    }

    /// The classifier, empty where there is none.
    pub fn classifier(&self) -> &'a str
        ensures { result.now ≡ self.now.classifier }
    {
        self.classifier
    }

    /// The extension without its dot.
    pub fn extension(&self) -> &'a str
        ensures { result.now ≡ self.now.extension }
    {
        self.extension
    }
}

/// A directory that has a document, `maven-metadata.xml`: an artifact's, a group's (whose last
/// segment then stands as the artifact), or a snapshot directory.
#[derive(Debug, Drop)]
pub struct Dir<'a> {
    path: &'a str,
    group: &'a str,
    artifact: &'a str,
    version: Option<&'a str>,
}

impl<'a> Model for Dir<'a> {
    ghost use Rattle.mvn_coords.specs.Layout.{Directory};

    ghost Value = { Directory };

    ghost use Rattle.mvn_coords.specs.Fields.{directory_in, KeepsDirectory};

    ghost view = { directory_in };

    ghost invariant = { KeepsDirectory };
}

impl<'a> Dir<'a> {
    ghost use Rattle.mvn_coords.specs.Layout.{directory, text_of_directory};
    ghost use Rattle.mvn_coords.specs.Path.{IsDirectory};

    pub(crate) fn new(
        path: &'a str,
        group: &'a str,
        artifact: &'a str,
        version: Option<&'a str>,
    ) -> Self
        requires rule { IsDirectory (directory group.now artifact.now (option_copied version)) }
        requires text { path.now
            ≡ text_of_directory (directory group.now artifact.now (option_copied version)) }
        ensures { result ≡ directory group.now artifact.now (option_copied version.entry) }
    {
        Dir {
            path,
            group,
            artifact,
            version,
        }
    }

    /// The directory's path, with its segments joined by `/`.
    pub fn path(&self) -> &'a str
        ensures text { result.now ≡ text_of_directory self.now }
        ensures rule { IsDirectory self.now }
    {
        self.path
    }

    /// The group's segments, joined by `/`; empty where the directory has one segment.
    pub fn group(&self) -> &'a str
        ensures { result.now ≡ self.now.group }
    {
        self.group
    }

    /// The artifact identifier.
    pub fn artifact(&self) -> &'a str
        ensures { result.now ≡ self.now.artifact }
    {
        self.artifact
    }

    /// The version of a snapshot directory, which ends in `-SNAPSHOT`.
    pub fn version(&self) -> Option<&'a str>
        ensures { option_copied result ≡ self.now.version }
    {
        self.version
    }

    /// Whether it is a snapshot directory.
    pub fn is_snapshot(&self) -> bool
        ensures { result ≡ is_some self.now.version }
    {
        self.version.is_some()
    }
}
