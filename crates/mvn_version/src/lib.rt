//! Maven's version order (POM reference, "Version Order Specification"), for any text. A version is parsed once, in
//! time linear in its text, and compared without memory. Where releases of Maven differ from one another, the
//! definition of a key in `specs/Key.antt` decides.
#![tactic(auto)]

mod element;
pub mod laws;
mod token;
mod version;

pub use version::{NoMemory, Version, compare};
