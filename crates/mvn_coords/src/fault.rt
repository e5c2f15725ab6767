ghost use Rattle.std.specs.Prelude.{◌≡◌};
ghost use Rattle.mvn_coords.specs.Fault.{name_of_fault};

/// Why a text is no path of a repository: the first step of the path rule that it breaks.
#[derive(Clone, Copy, Debug, PartialEq, Eq)]
pub enum PathFault {
    /// The text has no byte.
    Empty,
    /// The text has more than 1,024 bytes.
    Long,
    /// A segment is empty, longer than 255 bytes, `.` or `..`, has a byte outside the alphabet,
    /// or may not stand where it stands.
    BadSegment,
    /// Two side suffixes.
    BadSide,
    /// Too few segments.
    Short,
    /// The file's name is not `artifact-version` with an extension.
    NotNamed,
    /// `SNAPSHOT` stands in the place of a unique snapshot's timestamp and number.
    LiteralSnapshot,
    /// No civil timestamp stands where a unique snapshot has its own.
    BadStamp,
    /// No build number from 1 to 999,999,999 without leading zeros follows the timestamp.
    BadBuild,
}

impl PathFault {
    /// The fault's name, as the variant is written.
    pub fn name(self) -> &'static str
        ensures { result.now ≡ name_of_fault self }
    {
        match self {
            PathFault::Empty => "Empty",
            PathFault::Long => "Long",
            PathFault::BadSegment => "BadSegment",
            PathFault::BadSide => "BadSide",
            PathFault::Short => "Short",
            PathFault::NotNamed => "NotNamed",
            PathFault::LiteralSnapshot => "LiteralSnapshot",
            PathFault::BadStamp => "BadStamp",
            PathFault::BadBuild => "BadBuild",
        }
    }
}

/// A digest that a side file has: `.sha1`, `.md5`, `.sha256` or `.sha512` after the path of its file or document.
#[derive(Clone, Copy, Debug, PartialEq, Eq)]
pub enum Side {
    Sha1,
    Md5,
    Sha256,
    Sha512,
}
