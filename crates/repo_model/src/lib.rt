//! The one-thread repository: its state, its commands and replies, one turn, and legal histories.
//!
//! The definitions stand in `specs/`: a turn is a reply and a list of effects, each a small change of one part of the state.
//! `repo_laws` has what holds of them.
#![tactic(auto)]

mod ask;
mod blobs;
mod command;
mod fetched;
mod item;
mod numbers;
mod print;
mod question;
mod reply;
mod session;
mod step;
mod update;

pub use ask::Ask;
pub use blobs::Numbers;
pub use command::{Command, Place};
pub use fetched::Got;
pub use item::Item;
pub use numbers::NUMBER_END;
pub use print::{Print, Recorded};
pub use question::{Finding, Question};
pub use reply::Reply;
pub use session::SessionResult;
pub use step::Step;
pub use update::Update;
