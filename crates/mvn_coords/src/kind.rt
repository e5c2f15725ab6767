use crate::{Coord, Dir, Side};

/// What a path names.
#[derive(Debug, Drop)]
pub enum Kind<'a> {
    /// A file by its coordinates.
    File(Coord<'a>),
    /// The side file of a file.
    FileSide(Coord<'a>, Side),
    /// The document of a directory.
    Doc(Dir<'a>),
    /// The side file of a document.
    DocSide(Dir<'a>, Side),
}
