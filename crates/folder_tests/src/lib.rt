//! Tests of stores of blobs, in memory and in a folder, of sources and sinks over std, and of the folder in which a program keeps what
//! outlasts it. They stand apart from these, since a crate is proved once more with its tests.
#![tactic(auto)]

#[cfg(test)]
mod blob_stores;
#[cfg(test)]
mod noted;
#[cfg(test)]
mod openings;
#[cfg(test)]
mod orders;
#[cfg(test)]
mod pieces;
#[cfg(test)]
mod places;
#[cfg(test)]
mod std_forms;
