//! Tests of the journal over disks that are stopped: in memory, where all that a crash may leave is looked at, and over a real
//! file. They stand apart from the journal, since a crate is proved once more with its tests.
#![tactic(auto)]

#[cfg(test)]
mod bytes;
#[cfg(test)]
mod courses;
#[cfg(test)]
mod crashes;
#[cfg(test)]
mod crashing;
#[cfg(test)]
mod disks;
#[cfg(test)]
mod files;
#[cfg(test)]
mod images;
#[cfg(test)]
mod starts;
