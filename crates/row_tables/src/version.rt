/// The version of a recorded change: in the first one files have no SHA-256 and SHA-512.
#[derive(Clone, Copy, Debug, PartialEq, Eq)]
pub enum Version {
    First,
    Second,
}
