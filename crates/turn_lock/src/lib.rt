//! Any number of threads call one sequential object in turn. There is one legal history of their calls, which stands in the proofs alone.
#![tactic(auto)]

mod history;
mod hold;
mod law;
mod many;
mod seat;
mod thing;
mod turns;
mod view;

pub use history::each_call_may_be_asked;
pub use many::{join_all, split_many};
pub use seat::{Note, NoteToken, Seat, SeatToken, close};
pub use thing::Thing;
pub use turns::Turns;
pub use view::Entry;
