//! A hosted repository: its rows, what they answer, and what changes them, which stands once it is recorded.
#![tactic(auto)]

mod builder;
mod changes;
mod delivering;
mod hosted;
mod looks;
mod purge;
mod put;
mod seen;
mod storing;

pub use builder::HostedBuilder;
pub use changes::change_of;
pub use directory_rows::Rule;
pub use hosted::Hosted;
pub use hosted_delivery::PutAll;
pub use ordered_rows::{Phase, Row, print_of};
pub use put::Put;
pub use seen::{DocText, Seen};
