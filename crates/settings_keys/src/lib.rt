//! The keys of the tables of settings: what stands at a key of a document (TOML 1.1), which keys there are and which values
//! they take, and the first that is unknown, missing or unfit.
#![tactic(auto)]

mod forms;
mod kinds;
mod lists;
mod unfit;
mod values;
mod walks;

pub use kinds::{TableKind, Walk};
pub use values::{flag_at, items_at, items_in, number_at, text_at, value_at};
pub use walks::first_fault;
