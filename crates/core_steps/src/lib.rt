//! Steps of cases in words, over cores as a trait: the commands that they are, what is replied in words, and a plain machine that
//! answers generated commands beside. What a bench makes its commands of stands here too, and the store of blobs that all cases of the
//! repository stand on. Nothing here names the repository that takes the commands.
#![tactic(auto)]

mod asks;
mod bench_commands;
mod bench_rows;
mod bench_steps;
mod blobs;
mod commands;
mod faults;
mod fetched;
mod generated;
mod plain;
mod replies;
mod steps;

pub use asks::Ask;
pub use bench_commands::Maker;
pub use bench_rows::Rows;
pub use bench_steps::{Form, Step};
pub use blobs::{CaseBlobs, CaseHeld, CasePen};
pub use commands::{command_of, may_put, parcel_of, stage};
pub use faults::WorldFault;
pub use replies::{numbers_of, told};
pub use steps::{Cores, take};
