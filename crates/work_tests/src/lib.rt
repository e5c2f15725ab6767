//! Tests of `run_serve` and of what it stands on: servers over objects in memory and over a folder, and a stream whose client
//! waits for each answer. They stand apart from these, since a crate is proved once more with its tests.
#![tactic(auto)]

#[cfg(test)]
mod cases;
#[cfg(test)]
mod folder_servers;
#[cfg(test)]
mod folders;
#[cfg(test)]
mod literals;
#[cfg(test)]
mod lock_step;
#[cfg(test)]
mod meetings;
#[cfg(test)]
mod servers;
#[cfg(test)]
mod serving;
#[cfg(test)]
mod stock;
