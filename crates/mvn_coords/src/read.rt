//! What a path names, by the Maven 2 repository layout.
ghost use Rattle.std.specs.Prelude.{◌≡◌, ◌≤◌, ◌<◌, length, Ok, IfOk, string_bytes, ◌++◌, ◌∷◌, codes, false};
ghost use Rattle.std.specs.List.{list_all};
ghost use Rattle.std.specs.Str.{bytes_eq};
ghost use Rattle.mvn_coords.specs.Segment as segment;
ghost use Rattle.mvn_coords.specs.Layout as layout;
ghost use Rattle.mvn_coords.specs.Path as path_rule;
ghost use Rattle.mvn_coords.specs.Kind.{kind, kind_by, text_of_kind, with_side};

use crate::name::{base_of, ending_in};
use crate::segment::{are_artifact_bytes, are_group_bytes, fits_version};
use crate::text::cut_last;
use crate::{Coord, Dir, Kind, NoMemory, PathFault, Side, is_segment};
use byte_cuts::text::{before, is};
use std::alloc::Global;
use std::marker::Model;

/// What a path names, or the first step of the path rule that it breaks.
///
/// A path has 1 to 1,024 bytes, and segments of 1 to 255 bytes of `A-Z a-z 0-9 . _ + -` between
/// single slashes. It names a file, `group/artifact/version/artifact-version[-classifier].extension`
/// with one or more group segments, or the document `maven-metadata.xml` of a directory; with
/// `.sha1`, `.md5`, `.sha256` or `.sha512` at its end, a side file of either (Maven 2 repository layout).
pub fn kind_of(path: &str) -> Result<Kind<'_>, PathFault>
    ensures kind { result ≡ kind path.now }
    ensures path { IfOk result (λ k. text_of_kind k ≡ path.now) }
{
    if path.is_empty() {
        return Err(PathFault::Empty);
    }
    if path.len() > 1024 {
        return Err(PathFault::Long);
    }
    if !all_segments(path) {
        return Err(PathFault::BadSegment);
    }
    match cut_side(path) {
        Ok(cut) => named(cut),
        Err(fault) => Err(fault),
    }
}

/// The path of a file. The only error is out of memory.
pub fn path_of(alloc: Global, c: &Coord<'_>) -> Result<String, NoMemory>
    ensures path { IfOk result (λ path. string_bytes path ≡ layout.text_of c.now) }
    ensures kind { kind (layout.text_of c.now) ≡ Ok (Kind.File c.now) }
{
    String::from_str(alloc, c.path())
}

/// Whether each part between slashes is a segment.
fn all_segments(path: &str) -> bool
    ensures { result ≡ list_all segment.is_segment (segment.levels path.now) }
{
    let mut rest = path;
    'levels: while let Some((above, last)) = cut_last(rest) {
        if !is_segment(last) {
            return false;
        }
        rest = above;
    }
    is_segment(rest)
}

/// Whether each part between slashes may be part of a group.
fn all_groups(path: &str) -> bool
    ensures { result ≡ layout.all_groups (segment.levels path.now) }
{
    let mut rest = path;
    'levels: while let Some((above, last)) = cut_last(rest) {
        if !are_group_bytes(last) {
            return false;
        }
        rest = above;
    }
    are_group_bytes(rest)
}

/// A path without its side suffix, and the side.
#[derive(Drop)]
struct Cut<'a> {
    path: &'a str,
    side: Option<Side>,
}

impl<'a> Model for Cut<'a> {
    ghost use Rattle.mvn_coords.specs.Path.{Cut as CutOf};

    ghost Value = { CutOf };

    ghost view = { λ c. record { path = c.path.now; side = c.side } };
}

#[tactic(auto, using(std::proofs::lemmas::Str::Pattern::ends_text))]
fn has_suffix(path: &str) -> bool
    ensures { result ≡ path_rule.has_suffix path.now }
{
    path.ends_with(".sha1")
        || path.ends_with(".md5")
        || path.ends_with(".sha256")
        || path.ends_with(".sha512")
}

fn cut_side(path: &str) -> Result<Cut<'_>, PathFault>
    ensures { result ≡ path_rule.cut_side path.now }
{
    if let Some(rest) = before(".sha1", path) {
        return cut_off(Side::Sha1, rest);
    }
    if let Some(rest) = before(".md5", path) {
        return cut_off(Side::Md5, rest);
    }
    if let Some(rest) = before(".sha256", path) {
        return cut_off(Side::Sha256, rest);
    }
    if let Some(rest) = before(".sha512", path) {
        return cut_off(Side::Sha512, rest);
    }
    Ok(Cut { path, side: None })
}

fn cut_off(side: Side, path: &str) -> Result<Cut<'_>, PathFault>
    ensures { result ≡ path_rule.cut_off side path.now }
{
    if has_suffix(path) {
        return Err(PathFault::BadSide);
    }
    Ok(Cut {
        path,
        side: Some(side),
    })
}

/// What a path without a side suffix names.
fn named(cut: Cut<'_>) -> Result<Kind<'_>, PathFault>
    requires { path_rule.IsPlain cut.path }
    ensures { result ≡ kind_by cut.entry }
{
    let Cut { path, side } = cut;
    let Some((above, name)) = cut_last(path) else {
        return Err(PathFault::Short);
    };
    if is(name, "maven-metadata.xml") {
        return match directory(path, above) {
            Ok(dir) => Ok(document_kind(dir, side)),
            Err(fault) => Err(fault),
        };
    }
    match file(path, above, name) {
        Ok(coord) => Ok(file_kind(coord, side)),
        Err(fault) => Err(fault),
    }
}

fn file_kind(coord: Coord<'_>, side: Option<Side>) -> Kind<'_>
    ensures { result ≡ with_side (layout.file coord.entry) side }
{
    match side {
        Some(side) => Kind::FileSide(coord, side),
        None => Kind::File(coord),
    }
}

fn document_kind(dir: Dir<'_>, side: Option<Side>) -> Kind<'_>
    ensures { result ≡ with_side (layout.document dir.entry) side }
{
    match side {
        Some(side) => Kind::DocSide(dir, side),
        None => Kind::Doc(dir),
    }
}

/// Whether these may stand as group, artifact and version directory.
fn may_stand(group: &str, artifact: &str, version: &str) -> bool
    ensures { result ≡ layout.may_stand (segment.levels group.now) artifact.now version.now }
{
    all_groups(group) && are_artifact_bytes(artifact) && fits_version(version)
}

/// The file that a path names: group segments, artifact, version directory and the file's name.
fn file<'a>(path: &'a str, above: &'a str, name: &'a str) -> Result<Coord<'a>, PathFault>
    requires plain { path_rule.IsPlain path.now }
    requires below { path_rule.IsBelow path.now above.now name.now }
    requires file { bytes_eq name.now (codes "maven-metadata.xml") ≡ false }
    ensures { result ≡ layout.file_of (segment.levels path.now) }
{
    let Some((version_path, dir)) = cut_last(above) else {
        return Err(PathFault::Short);
    };
    let Some((group, artifact)) = cut_last(version_path) else {
        return Err(PathFault::Short);
    };
    if !may_stand(group, artifact, dir) {
        return Err(PathFault::BadSegment);
    }
    match ending_in(artifact, dir, name) {
        Ok(ending) => Ok(Coord::with_ending(path, group, artifact, dir, ending)),
        Err(fault) => Err(fault),
    }
}

/// The directory of the document that a path names.
fn directory<'a>(document: &str, path: &'a str) -> Result<Dir<'a>, PathFault>
    requires plain { path_rule.IsPlain document.now }
    requires below { path_rule.IsBelow document.now path.now (codes "maven-metadata.xml") }
    ensures { result ≡ layout.directory_of (segment.levels path.now) }
{
    let Some((above, last)) = cut_last(path) else {
        if !are_artifact_bytes(path) {
            return Err(PathFault::BadSegment);
        }
        return Ok(Dir::new(path, "", path, None));
    };
    let Some((group, artifact)) = cut_last(above) else {
        return artifact_directory(document, path, above, last);
    };
    if base_of(last).is_none() {
        return artifact_directory(document, path, above, last);
    }
    if !may_stand(group, artifact, last) {
        return Err(PathFault::BadSegment);
    }
    Ok(Dir::new(path, group, artifact, Some(last)))
}

/// The directory of an artifact or a group.
fn artifact_directory<'a>(
    document: &str,
    path: &'a str,
    group: &'a str,
    artifact: &'a str,
) -> Result<Dir<'a>, PathFault>
    requires plain { path_rule.IsPlain document.now }
    requires below { path_rule.IsBelow document.now path.now (codes "maven-metadata.xml") }
    requires judged { layout.directory_of (segment.levels path.now)
        ≡ layout.artifact_directory artifact.now (segment.levels group.now) }
    ensures { result ≡ layout.directory_of (segment.levels path.now) }
{
    if !all_groups(group) || !are_artifact_bytes(artifact) {
        return Err(PathFault::BadSegment);
    }
    Ok(Dir::new(path, group, artifact, None))
}
