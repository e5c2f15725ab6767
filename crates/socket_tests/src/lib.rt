//! Tests of the connections over TCP, on the loopback interface, of fetches from servers there, and of the timers.
#![tactic(auto)]

#[cfg(test)]
mod accepting;
#[cfg(test)]
mod answers;
#[cfg(test)]
mod connections;
#[cfg(test)]
mod courses;
#[cfg(test)]
mod crowds;
#[cfg(test)]
mod patrols;
#[cfg(test)]
mod remotes;
#[cfg(test)]
mod servers;
#[cfg(test)]
mod stand_in;
#[cfg(test)]
mod timers;
#[cfg(test)]
mod waits;
